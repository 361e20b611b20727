//! Lines and columns, and those where paths of keys are written.
ghost use Rattle.std.specs.Prelude.{◌≡◌, ◌≤◌, ◌++◌, [], length, map, take, slice_index_or};
ghost use Rattle.std.specs.Prelude.{IfOk, IsSome, OnOk, Some, is_some, option_map};
ghost use Rattle.std.specs.Prelude.{if◌then◌else◌};
ghost use Rattle.toml_parser.specs.Reading.{key_view, path_view as keys_view};
ghost use Rattle.toml.specs.Data.{get_member, table};
ghost use Rattle.toml.specs.Parse as spec;
ghost use Rattle.toml.specs.View.{table_view, view};
ghost use Rattle.toml_positions.specs.Position.{column_after, position_after};
ghost use Rattle.toml_positions.specs.Written.{agree, writes, parts, path_below, path_view};
ghost use Rattle.toml_positions.specs.Kept.{IsKeptOf};
ghost use Rattle.toml_positions.specs.Written.{first_position, written_in};
ghost use Rattle.toml_positions.specs.Written.{position_in, value_at, written_view};

use crate::expression::{Head, past_brackets, read_expression};
use std::alloc::{AllocError, Global};
use std::marker::Model;
use toml::{Table, Value};
use toml_parser::text::{byte_at, first, skip_blank};
use toml_parser::{Key, bytes};

/// Where a byte of a text stands: its line and its column, both counted from 1. Columns are counted
/// in bytes. A byte order mark in front has none.
#[derive(Clone, Copy, Debug, PartialEq, Eq)]
pub struct Position {
    /// The line.
    pub line: usize,
    /// The column.
    pub column: usize,
}

/// The position of the byte that follows these first bytes of a text.
#[tactic(auto, unfolding(toml::specs::Parse::skip_bom))]
pub fn position_after(before: &[u8]) -> Position
    ensures { result ≡ position_after before.now }
{
    let line = before.iter().filter(|byte| **byte == b'\n').count() + 1;
    if bytes::byte_at(before, 0) == 0xEF
        && bytes::byte_at(before, 1) == 0xBB
        && bytes::byte_at(before, 2) == 0xBF
    {
        return Position {
            line,
            column: column_after(&before[3..]),
        };
    }
    Position {
        line,
        column: column_after(before),
    }
}

/// The column that follows some bytes that begin in the first column.
fn column_after(bytes: &[u8]) -> usize
    ensures { result ≡ column_after 1 bytes.now }
{
    let mut column = 1;
    for at in 0..bytes.len() {
        if bytes[at] == b'\n' {
            column = 1;
        } else {
            column += 1;
        }
    }
    column
}

/// The path of a key: the keys that lead to its table, and the key.
#[derive(Clone, Copy, Debug, PartialEq, Eq)]
pub struct KeyPath<'a> {
    /// The keys that lead to the table, none for the whole file.
    pub table: &'a [&'a str],
    /// The key in the table.
    pub key: &'a str,
}

/// What follows a byte order mark, if there is one.
#[tactic(auto, using(std::proofs::lemmas::Bool::Decides::nat_tests, toml::proofs::Turns::bom_boundary), unfolding(toml::specs::Parse::skip_bom))]
fn skip_bom(text: &str) -> &str
    ensures rest { result.now ≡ spec.skip_bom text.now }
    ensures within { length result.now ≤ length text.now }
{
    if first(text) == 0xEF && byte_at(text, 1) == 0xBB && byte_at(text, 2) == 0xBF {
        &text[3..]
    } else {
        text
    }
}

impl<'a> KeyPath<'a> {
    /// The key of this index.
    #[tactic(auto, using(crate::proofs::Paths::key_above, crate::proofs::Paths::key_last))]
    fn at(&self, index: usize) -> &'a str
        requires { index ≤ length self.now.table.now }
        ensures { result.now ≡ slice_index_or (path_view self.now) index [] }
    {
        if index < self.table.len() {
            self.table[index]
        } else {
            self.key
        }
    }
}

/// Whether the path of an expression and another one agree as far as both go.
#[tactic(auto, using(crate::proofs::Paths::agree_next, crate::proofs::Paths::agree_past, crate::proofs::Paths::path_size))]
fn agree(keys: &[String], path: &KeyPath<'_>) -> bool
    ensures { result ≡ agree (keys_view keys.now) (path_view path.now) }
{
    for index in 0..keys.len() {
        if path.table.len() < index {
            return true;
        }
        if keys[index].as_str() != path.at(index) {
            return false;
        }
    }
    true
}

/// Whether an expression writes a path.
#[tactic(auto, using(crate::proofs::Paths::goes_on))]
fn writes(keys: &[String], pair: bool, path: &KeyPath<'_>) -> bool
    ensures { result ≡ writes (keys_view keys.now) pair (path_view path.now) }
{
    agree(keys, path) && (pair || path.table.len() < keys.len())
}

/// An expression of a text.
#[derive(Drop)]
struct Written {
    /// How many bytes stand before its key.
    before: usize,
    /// The path of its key.
    path: Vec<String>,
    /// Whether it is a pair, and no header.
    pair: bool,
}

/// A copy of some keys.
fn copied(alloc: Global, keys: &[String]) -> Result<Vec<String>, AllocError>
    ensures { IfOk result (λ copy. keys_view copy.items ≡ keys_view keys.now) }
{
    let mut copy = Vec::new(alloc);
    for key in keys {
        copy.push(String::from_str(alloc, key.as_str())?)?;
    }
    Ok(copy)
}

/// Appends the keys of an expression to a path.
#[tactic(auto, using(crate::proofs::Paths::led))]
fn lead(path: &mut Vec<String>, key: Key) -> Result<(), AllocError>
    ensures { OnOk result (keys_view path.new.items
        ≡ keys_view path.old.items ++ parts (key_view key)) }
{
    let Key {
        path: mut front,
        last,
    } = key;
    path.append(&mut front)?;
    path.push(last)?;
    Ok(())
}

/// The path of an expression below the header in force.
fn path_below(alloc: Global, header: &[String], head: Head) -> Result<Vec<String>, AllocError>
    ensures { IfOk result (λ path. keys_view path.items
        ≡ path_below (keys_view header.now) (key_view head.key, head.pair)) }
{
    if head.pair {
        let mut path = copied(alloc, header)?;
        lead(&mut path, head.key)?;
        Ok(path)
    } else {
        let mut path = Vec::new(alloc);
        lead(&mut path, head.key)?;
        Ok(path)
    }
}

/// The header in force below an expression.
fn header_below(
    alloc: Global,
    header: Vec<String>,
    path: &[String],
    pair: bool,
) -> Result<Vec<String>, AllocError>
    ensures { IfOk result (λ next. keys_view next.items
        ≡ (if pair then keys_view header.items else keys_view path.now)) }
{
    if pair {
        Ok(header)
    } else {
        copied(alloc, path)
    }
}

/// The expressions of a text that is TOML, in their order.
#[tactic(auto, using(crate::proofs::Known::document_lines))]
fn written_in(alloc: Global, text: &str) -> Result<Vec<Written>, AllocError>
    ensures { IfOk result (λ all. IsSome (spec.parse_document text.now)
        → map written_view all.items ≡ written_in text.now) }
{
    let mut all = Vec::new(alloc);
    let mut header = Vec::new(alloc);
    let mut rest = skip_bom(text);
    'expressions: loop {
        let start = skip_blank(rest, true);
        let Some((head, after)) = read_expression(alloc, start)? else {
            return Ok(all);
        };
        let pair = head.pair;
        let path = path_below(alloc, header.as_slice(), head)?;
        header = header_below(alloc, header, path.as_slice(), pair)?;
        let before = text.len() - past_brackets(start).len();
        all.push(Written { before, path, pair })?;
        rest = after;
    }
}

/// The position behind so many bytes of a text.
#[tactic(auto, using(std::proofs::Common::take_all))]
fn position_behind(text: &str, before: usize) -> Position
    ensures { result ≡ position_after (take before text.now) }
{
    if before < text.len() {
        position_after(&text.as_bytes()[..before])
    } else {
        position_after(text.as_bytes())
    }
}

/// The position of the first of some expressions of a text that writes a path.
fn first_position(text: &str, all: &[Written], path: &KeyPath<'_>) -> Option<Position>
    ensures { result ≡ first_position text.now (path_view path.now) (map written_view all.now) }
{
    for written in all {
        if writes(written.path.as_slice(), written.pair, path) {
            return Some(position_behind(text, written.before));
        }
    }
    None
}

/// What a table has at a key.
#[tactic(auto, using(toml::proofs::Views::table_get))]
fn get<'a>(table: &'a Table, key: &str) -> Option<&'a Value>
    ensures { option_map (λ v. view v.now) result ≡ get_member key.now (table_view table.now) }
{
    table.get(key)
}

/// Whether a file has something at a path.
#[tactic(auto, using(crate::proofs::Paths::in_table))]
fn has(file: &Table, path: &KeyPath<'_>) -> bool
    ensures { result ≡ is_some (value_at (path_view path.now)
        (Some (table (table_view file.now)))) }
{
    let mut table = file;
    for key in path.table {
        let Some(value) = get(table, key) else {
            return false;
        };
        let Some(inner) = value.as_table() else {
            return false;
        };
        table = inner;
    }
    get(table, path.key).is_some()
}

/// The table that a text is, if it is TOML.
fn parse(alloc: Global, text: &str) -> Result<Option<Table>, AllocError>
    ensures { IfOk result (λ file. option_map table_view file ≡ spec.parse_document text.now) }
{
    match toml::table_from_str(alloc, text) {
        Ok(file) => Ok(Some(file)),
        Err(e) if e.is_memory() => Err(AllocError),
        Err(_) => Ok(None),
    }
}

/// What is kept of a text that was gone over.
#[derive(Drop)]
struct Kept {
    /// The table that it is, if it is TOML.
    file: Option<Table>,
    /// Its expressions.
    all: Vec<Written>,
}

/// Goes over a text.
fn keep(alloc: Global, text: &str) -> Result<Kept, AllocError>
    ensures { IfOk result (IsKeptOf text.now) }
{
    Ok(Kept {
        file: parse(alloc, text)?,
        all: written_in(alloc, text)?,
    })
}

/// The position where a path that a text has is first written, by what is kept of the text.
#[tactic(auto, using(crate::proofs::Paths::nothing_at))]
fn position_of(text: &str, kept: &Kept, path: &KeyPath<'_>) -> Option<Position>
    requires { IsKeptOf text.now kept.now }
    ensures { result ≡ position_in text.now (path_view path.now) }
{
    match &kept.file {
        Some(table) => {
            if has(table, path) {
                first_position(text, kept.all.as_slice(), path)
            } else {
                None
            }
        }
        None => None,
    }
}

/// Where the keys of a text stand. The text is gone over where the first position is looked up, and
/// what its expressions write is kept for the others.
#[derive(Drop)]
pub struct Positions<'a> {
    text: &'a str,
    kept: Option<Kept>,
}

impl<'a> Model for Positions<'a> {
    ghost use Rattle.std.specs.Prelude.{ℕ, List, IfSome};
    ghost use Rattle.toml_positions.specs.Kept.{IsKeptOf};

    ghost Value = { List ℕ };

    ghost view = { λ p. p.text.now };

    ghost invariant = { λ p. IfSome p.kept (IsKeptOf p.text.now) };
}

impl<'a> Positions<'a> {
    /// Those of this text.
    pub fn of(text: &'a str) -> Self
        ensures { result ≡ text.now }
    {
        Positions { text, kept: None }
    }

    /// The text.
    pub fn text(&self) -> &'a str
        ensures { result.now ≡ self.now }
    {
        self.text
    }

    /// The position where a path of keys is first written in a text that is TOML: the key of the
    /// first expression whose path leads through it, or of the first pair whose path it leads
    /// through. A path at which the text has nothing has none, and no path of a text that is no
    /// TOML.
    ///
    /// The text is gone over twice for the first path, and up to the key of each that is found.
    pub fn at(&mut self, alloc: Global, path: &KeyPath<'_>) -> Result<Option<Position>, AllocError>
        ensures text { self.new ≡ self.old }
        ensures position { IfOk result (λ found.
            found ≡ position_in self.old (path_view path.now)) }
    {
        let kept = match self.kept.take() {
            Some(kept) => kept,
            None => keep(alloc, self.text)?,
        };
        let found = position_of(self.text, &kept, path);
        self.kept = Some(kept);
        Ok(found)
    }
}
