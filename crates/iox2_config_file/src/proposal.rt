//! What was probably meant by a key that no setting has.
ghost use Rattle.std.specs.Prelude.{◌≡◌, ◌∷◌, ◌<◌, [], length, bytes_eq, MatchOption, map};
ghost use Rattle.std.specs.Prelude.{option_map, ◌==◌, IfOk};
ghost use Rattle.iox2_config_file.specs.Unknown.{is_dash, spelling, is_path, is_wanted};
ghost use Rattle.iox2_config_file.specs.Unknown.{keys_of, wanted_in, wanted_view};
ghost use Rattle.iox2_config_file.specs.Unknown.{distance_below, nearest, nearest_below};
ghost use Rattle.iox2_config_file.specs.Unknown.{proposal_of, proposal_view, proposed, unquoted};
ghost use Rattle.iox2_config_file.specs.Read.{row_view};
ghost use Rattle.std.specs.List.{find, list_any};
ghost use Rattle.iox2_config.specs.declared.config.Config.{Config};
ghost use Rattle.iox2_config_file.specs.Settings.{prefix_of};
ghost use Rattle.std.specs.Str.{chars};

use crate::section::{Row, SECTIONS, Section, rows};
use std::alloc::{AllocError, Global};
use strsim::levenshtein;

/// Whether a byte is `-` or `_`.
fn is_dash(byte: u8) -> bool
    ensures { result ≡ is_dash byte }
{
    byte == b'-' || byte == b'_'
}

/// The first letter of a key, in its small form, and what follows it.
#[tactic(auto, unfolding(crate::specs::Unknown::spelling))]
fn next_letter(key: &[u8]) -> Option<(u8, &[u8])>
    ensures { MatchOption result (spelling key.now ≡ []) (λ p.
        (spelling key.now ≡ p.0 ∷ spelling p.1.now) × (length p.1.now < length key.now)) }
{
    let mut rest = key;
    while let Some((byte, more)) = rest.split_first() {
        if !is_dash(*byte) {
            return Some((byte.to_ascii_lowercase(), more));
        }
        rest = more;
    }
    None
}

/// Whether two keys are the same but for `-`, `_` and the case of letters.
fn is_respelled(key: &[u8], known: &[u8]) -> bool
    ensures { result ≡ bytes_eq (spelling key.now) (spelling known.now) }
{
    let mut left = key;
    let mut right = known;
    while let Some((letter, more)) = next_letter(left) {
        let Some((other, rest)) = next_letter(right) else {
            return false;
        };
        if letter != other {
            return false;
        }
        left = more;
        right = rest;
    }
    match next_letter(right) {
        Some(_) => false,
        None => true,
    }
}

/// Which key is looked for.
#[derive(Clone, Copy)]
pub(crate) enum Wanted<'a> {
    /// The key that is the same but for `-`, `_` and the case of letters.
    Respelled(&'a str),
    /// The key whose path is one of these two texts.
    Path(&'a str, &'a str),
}

/// Whether a text is the path of a key of a table: a prefix, and then the key.
fn is_path_of(text: &str, section: Section, key: &str) -> bool
    ensures { result ≡ is_path text.now (prefix_of section) key.now }
{
    match text.as_bytes().strip_prefix(section.prefix().as_bytes()) {
        Some(rest) => rest == key.as_bytes(),
        None => false,
    }
}

/// Whether a key of a table is the one that is wanted.
fn is_wanted(wanted: Wanted<'_>, section: Section, key: &str) -> bool
    ensures { result ≡ is_wanted (wanted_view wanted.entry) (section, key.now) }
{
    match wanted {
        Wanted::Respelled(name) => is_respelled(name.as_bytes(), key.as_bytes()),
        Wanted::Path(text, other) => {
            is_path_of(text, section, key) || is_path_of(other, section, key)
        }
    }
}

/// The first key of a table that is wanted.
fn find_among(wanted: Wanted<'_>, section: Section, rows: &[Row]) -> Option<(Section, &'static str)>
    ensures { option_map (λ p. (p.0, p.1.now)) result
        ≡ find (is_wanted (wanted_view wanted.entry)) (keys_of section (map row_view rows.now)) }
{
    for row in rows {
        if is_wanted(wanted, section, row.key) {
            return Some((section, row.key));
        }
    }
    None
}

/// The first known key of all tables that is wanted.
#[tactic(auto, unfolding(crate::specs::Unknown::wanted_in))]
fn find_wanted(wanted: Wanted<'_>) -> Option<(Section, &'static str)>
    ensures { (c : Config)
        → option_map (λ p. (p.0, p.1.now)) result ≡ wanted_in c (wanted_view wanted.entry) }
{
    for section in &SECTIONS {
        if let Some(found) = find_among(wanted, *section, rows(*section)) {
            return Some(found);
        }
    }
    None
}

/// How a known key is like one that is not known.
#[derive(Clone, Copy, Debug, PartialEq, Eq)]
pub enum Likeness {
    /// It is a key of the same table, and the same but for `-`, `_` and the case of letters.
    Spelling,
    /// It is a key of another table, and the same but for `-`, `_` and the case of letters.
    OtherTable,
    /// Its path, from the root or from the table on, stands in quotes.
    Quoted,
    /// It is the nearest key of the same table.
    Near,
}

/// A known key that was probably meant.
#[derive(Clone, Copy, Debug, PartialEq, Eq)]
pub struct Proposal {
    /// Its table.
    pub section: Section,
    /// The key.
    pub key: &'static str,
    /// How it is like the one that is not known.
    pub likeness: Likeness,
}

/// The size of the longest key, in bytes, for which the nearest one is looked for.
const LONGEST_NEAR: usize = 64;

/// How many characters a text has.
#[tactic(auto, using(std::proofs::lemmas::Str::chars_from_encodes))]
fn char_count(text: &str) -> usize
    ensures { result ≡ length (chars text.now) }
{
    text.chars().count()
}

/// The distance of two keys, where it is below a limit. It is not where one of them has so many
/// characters more than the other, which is looked at first.
#[tactic(auto, using(crate::proofs::Distances::is_far), unfolding(crate::specs::Unknown::edit_distance))]
fn distance_below(
    alloc: Global,
    key: &str,
    known: &str,
    limit: usize,
) -> Result<Option<usize>, AllocError>
    ensures { IfOk result (λ found. found ≡ distance_below key.now known.now limit) }
{
    if limit <= char_count(key).abs_diff(char_count(known)) {
        return Ok(None);
    }
    let n = levenshtein(alloc, key, known)?;
    if n < limit { Ok(Some(n)) } else { Ok(None) }
}

/// The first of the rows at the least distance, where that is below a limit.
#[tactic(auto, using(crate::proofs::Nearest::nearest_is))]
fn nearest_below(
    alloc: Global,
    section: Section,
    key: &str,
    below: usize,
    rows: &[Row],
) -> Result<Option<(Section, &'static str)>, AllocError>
    ensures { IfOk result (λ found. option_map (λ p. (p.0, p.1.now)) found
        ≡ nearest_below key.now below (keys_of section (map row_view rows.now))) }
{
    let mut found = None;
    let mut limit = below;
    for row in rows {
        if let Some(n) = distance_below(alloc, key, row.key, limit)? {
            found = Some((section, row.key));
            limit = n;
        }
    }
    Ok(found)
}

/// The nearest of the rows: at most two characters have to be put in, taken out or changed, or a
/// third of the key's bytes.
#[tactic(auto, unfolding(crate::specs::Unknown::nearest))]
fn nearest(
    alloc: Global,
    section: Section,
    key: &str,
    rows: &[Row],
) -> Result<Option<(Section, &'static str)>, AllocError>
    ensures { IfOk result (λ found. option_map (λ p. (p.0, p.1.now)) found
        ≡ nearest key.now (keys_of section (map row_view rows.now))) }
{
    if key.len() <= LONGEST_NEAR {
        nearest_below(alloc, section, key, (key.len() / 3).max(2) + 1, rows)
    } else {
        Ok(None)
    }
}

/// A proposal of a known key.
fn proposal_of(likeness: Likeness, found: Option<(Section, &'static str)>) -> Option<Proposal>
    ensures { option_map proposal_view result
        ≡ option_map (proposal_of likeness) (option_map (λ p. (p.0, p.1.now)) found.entry) }
{
    match found {
        Some((section, key)) => Some(Proposal {
            section,
            key,
            likeness,
        }),
        None => None,
    }
}

/// Whether a byte of a key is a dot.
fn has_dot(key: &[u8]) -> bool
    ensures { result ≡ list_any (λ b. b == 46) key.now }
{
    key.iter().any(|byte| *byte == b'.')
}

/// Of a key with a dot, the known key whose path it is: from the root on, or from its table on.
fn unquoted(alloc: Global, section: Section, key: &str) -> Result<Option<Proposal>, AllocError>
    ensures { IfOk result (λ found. (c : Config)
        → option_map proposal_view found ≡ unquoted c section key.now) }
{
    if !has_dot(key.as_bytes()) {
        return Ok(None);
    }
    let mut path = String::new(alloc);
    path.push_str(section.prefix())?;
    path.push_str(key)?;
    let found = find_wanted(Wanted::Path(key, path.as_str()));
    Ok(proposal_of(Likeness::Quoted, found))
}

/// What was probably meant by a key that a table does not have: the same key but for `-`, `_` and
/// the case of letters; or else such a key of another table; or else the key whose path stands in
/// quotes; or else the nearest key.
#[tactic(auto, unfolding(crate::specs::Unknown::proposed))]
pub(crate) fn propose(
    alloc: Global,
    section: Section,
    key: &str,
) -> Result<Option<Proposal>, AllocError>
    ensures { IfOk result (λ found. (c : Config)
        → option_map proposal_view found ≡ proposed c section key.now) }
{
    let rows = rows(section);
    let respelled = find_among(Wanted::Respelled(key), section, rows);
    if let Some(found) = proposal_of(Likeness::Spelling, respelled) {
        return Ok(Some(found));
    }
    let elsewhere = find_wanted(Wanted::Respelled(key));
    if let Some(found) = proposal_of(Likeness::OtherTable, elsewhere) {
        return Ok(Some(found));
    }
    if let Some(found) = unquoted(alloc, section, key)? {
        return Ok(Some(found));
    }
    Ok(proposal_of(Likeness::Near, nearest(alloc, section, key, rows)?))
}
