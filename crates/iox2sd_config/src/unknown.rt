//! The keys of a file that no setting has.
ghost use Rattle.std.specs.Prelude.{◌≡◌, IfOk, IsSome, map, option_map, string_bytes};
ghost use Rattle.config_report.specs.Notes.{finding_view};
ghost use Rattle.iox2_config_file.specs.Unknown.{proposal_view, unknown_view};
ghost use Rattle.iox2sd_config.specs.Unknown.{likeness_number, meant_number, meant_path};
ghost use Rattle.iox2sd_config.specs.Unknown.{named_view, paths_of, plain_of, c_key};
ghost use Rattle.iox2sd_config.specs.Unknown.{c_key_at, c_unknown, unknown_answer, ListsKeys};
ghost use Rattle.iox2sd_config.specs.Unknown.{ListsUnknown, PutsKeys, PutsUnknown};
ghost use Rattle.toml.specs.Parse.{parse_document};

use crate::fault::{
    column_of, cut, key_of, key_path, line_of, section_number, sort_key_at, unread_status,
};
use config_report::{Finding, Positions, Subject, key_position, parse_file};
use iox2_config_file::{Likeness, Proposal, UnknownKey};
use iox2sd_common::answers::put;
use iox2sd_common::status::Status;
use std::alloc::{AllocError, Global};
use toml_positions::Position;

/// A key of a file that no setting has.
#[repr(C)]
#[derive(Clone, Copy)]
pub struct PlainUnknown {
    /// The table in which it stands, as of a fault.
    pub table: u32,
    /// How the known key that was probably meant is like it. 0: none is. 1: it is the same but for
    /// `-`, `_` and case. 2: it is the same but for these, in another table. 3: its path stands in
    /// quotes. 4: it is the nearest one.
    pub likeness: u32,
    /// The line where it begins, from 1; 0 where there is no position.
    pub line: usize,
    /// The column, in bytes from 1; 0 where there is no position.
    pub column: usize,
    /// How many bytes the path of the key has among all paths.
    pub key_length: usize,
    /// The first bytes of the path of the known key that was probably meant, and then zeros.
    pub meant: [u8; 80],
    /// How many bytes this path has; 0 where there is none.
    pub meant_length: usize,
    /// The first bytes of what is wrong and was probably meant, in words, and then zeros.
    pub reason: [u8; 256],
    /// How many bytes the words have.
    pub reason_length: usize,
}

/// An unknown key as a plain value, and its path as TOML writes it.
#[derive(Drop)]
pub(crate) struct NamedKey {
    /// The plain value.
    plain: PlainUnknown,
    /// The path.
    path: String,
}

/// How many keys of a file no setting has.
#[repr(C)]
#[derive(Clone, Copy)]
pub struct UnknownAnswer {
    /// The number of a [`Status`].
    pub status: u32,
    /// How many there are.
    pub count: usize,
    /// How many bytes all their paths have.
    pub length: usize,
}

/// The answer of this status.
fn answer(status: Status, count: usize, length: usize) -> UnknownAnswer
    ensures { result ≡ unknown_answer status count length }
{
    UnknownAnswer {
        status: status.code(),
        count,
        length,
    }
}

/// The number of how a known key is like one that is not known.
fn likeness_number(likeness: Likeness) -> u32
    ensures { result ≡ likeness_number likeness }
{
    likeness as u32 + 1
}

/// The same of what was probably meant, or 0.
fn meant_number(meant: Option<Proposal>) -> u32
    ensures { result ≡ meant_number (option_map proposal_view meant) }
{
    match meant {
        Some(meant) => likeness_number(meant.likeness),
        None => 0,
    }
}

/// The path of the known key that was probably meant, or nothing.
fn meant_path(alloc: Global, meant: Option<Proposal>) -> Result<String, AllocError>
    ensures { IfOk result (λ path.
        string_bytes path ≡ meant_path (option_map proposal_view meant)) }
{
    match meant {
        Some(meant) => key_path(alloc, meant.section, meant.key),
        None => Ok(String::new(alloc)),
    }
}

/// An unknown key as a plain value, by what is found of it and what was probably meant.
fn c_key(key: &UnknownKey, meant: &str, finding: &Finding) -> PlainUnknown
    requires { meant.now ≡ meant_path (option_map proposal_view key.now.meant) }
    ensures { result ≡ c_key key.now.section (option_map proposal_view key.now.meant)
        (finding_view finding.now) }
{
    let reason = finding.message.as_bytes();
    PlainUnknown {
        table: section_number(key.section),
        likeness: meant_number(key.meant),
        line: line_of(finding.position),
        column: column_of(finding.position),
        key_length: key_of(finding).len(),
        meant: cut(meant.as_bytes()),
        meant_length: meant.len(),
        reason: cut(reason),
        reason_length: reason.len(),
    }
}

/// An unknown key that begins at this position.
fn named_key(
    alloc: Global,
    key: &UnknownKey,
    position: Option<Position>,
) -> Result<NamedKey, AllocError>
    ensures { IfOk result (λ named.
        named_view named ≡ c_key_at position (unknown_view key.now)) }
{
    let finding = key.finding(alloc, position)?;
    let path = String::from_str(alloc, key_of(&finding))?;
    let meant = meant_path(alloc, key.meant)?;
    let plain = c_key(key, meant.as_str(), &finding);
    Ok(NamedKey { plain, path })
}

/// Some unknown keys of a text, each at its position.
fn named_keys(alloc: Global, text: &str, keys: &[UnknownKey]) -> Result<Vec<NamedKey>, AllocError>
    requires { IsSome (parse_document text.now) }
    ensures { IfOk result (λ named.
        map named_view named.items ≡ map (c_unknown text.now) (map unknown_view keys.now)) }
{
    let mut positions = Positions::of(text);
    let mut named = Vec::new(alloc);
    for key in keys {
        let position = key_position(alloc, &mut positions, key)?;
        named.push(named_key(alloc, key, position)?)?;
    }
    Ok(named)
}

/// Some unknown keys of a text, in the order of the file.
fn listed_keys(alloc: Global, text: &str, keys: &[UnknownKey]) -> Result<Vec<NamedKey>, AllocError>
    requires { IsSome (parse_document text.now) }
    ensures { IfOk result (λ listed. ListsKeys text.now keys.now listed.items) }
{
    let mut named = named_keys(alloc, text, keys)?;
    named.sort_by_key(|key| sort_key_at(key.plain.line, key.plain.column))?;
    Ok(named)
}

/// The plain values of some unknown keys.
fn plain_of(alloc: Global, listed: &[NamedKey]) -> Result<Vec<PlainUnknown>, AllocError>
    ensures { IfOk result (λ plain. plain.items ≡ plain_of listed.now) }
{
    let mut plain = Vec::with_capacity(alloc, listed.len())?;
    for key in listed {
        plain.push(key.plain)?;
    }
    Ok(plain)
}

/// The paths of some unknown keys, one after the other.
fn paths_of(alloc: Global, listed: &[NamedKey]) -> Result<String, AllocError>
    ensures { IfOk result (λ text. string_bytes text ≡ paths_of listed.now) }
{
    let mut text = String::new(alloc);
    for key in listed {
        text.push_str(key.path.as_str())?;
    }
    Ok(text)
}

/// Writes some unknown keys, where they and their paths fit.
fn put_keys(
    plain: &[PlainUnknown],
    text: &str,
    out: &mut [PlainUnknown],
    paths: &mut [u8],
) -> UnknownAnswer
    ensures { PutsKeys plain.now text.now out.old paths.old result out.new paths.new }
{
    if text.len() > paths.len() || !put(plain, out) {
        return answer(Status::BufferTooShort, plain.len(), text.len());
    }
    put(text.as_bytes(), paths);
    answer(Status::Done, plain.len(), text.len())
}

/// Writes some unknown keys of a text in its order, where they and their paths fit.
fn put_unknown(
    alloc: Global,
    text: &str,
    keys: &[UnknownKey],
    out: &mut [PlainUnknown],
    paths: &mut [u8],
) -> UnknownAnswer
    requires { IsSome (parse_document text.now) }
    ensures { PutsUnknown text.now keys.now out.old paths.old result out.new paths.new }
{
    let Ok(listed) = listed_keys(alloc, text, keys) else {
        return answer(Status::NoMemory, 0, 0);
    };
    let Ok(plain) = plain_of(alloc, listed.as_slice()) else {
        return answer(Status::NoMemory, 0, 0);
    };
    let Ok(names) = paths_of(alloc, listed.as_slice()) else {
        return answer(Status::NoMemory, 0, 0);
    };
    put_keys(plain.as_slice(), names.as_str(), out, paths)
}

/// Writes the keys of a file that no setting has to the front of an array, in the order of the
/// file, and their paths, one after the other, to the front of a buffer, where all of them fit. It
/// does so whether values are allowed or not.
///
/// Refused are, in this order, a text that is not UTF-8 (`NotUtf8`), is too deep (`TooDeep`) or no
/// TOML (`NotToml`), and too short an array or buffer (`BufferTooShort`), with the lengths that
/// they need. Want of memory (`NoMemory`) is refused at any point. Then both are as they were.
#[unsafe(no_mangle)]
pub extern "C" fn iox2sd_config_unknown_at(
    alloc: Global,
    text: &[u8],
    out: &mut [PlainUnknown],
    paths: &mut [u8],
) -> UnknownAnswer
    ensures { ListsUnknown text.now out.old paths.old result out.new paths.new }
{
    match parse_file(alloc, text) {
        Ok((text, contents)) => {
            put_unknown(alloc, text, contents.unknown.as_slice(), out, paths)
        }
        Err(unread) => answer(unread_status(&unread), 0, 0),
    }
}
