//! What is wrong with a file of settings, as plain values, and in which order.
ghost use Rattle.std.specs.Prelude.{◌≡◌, IfOk, string_bytes, take};
ghost use Rattle.config_report.specs.Notes.{finding_view};
ghost use Rattle.iox2_config_file.specs.Read.{fault_view};
ghost use Rattle.iox2sd_common.specs.Answers.{zero_padded};
ghost use Rattle.iox2sd_config.specs.Faults.{section_number, type_number, kind_number};
ghost use Rattle.iox2sd_config.specs.Faults.{fault_status, found_number, wanted_number, key_path};
ghost use Rattle.iox2sd_config.specs.Faults.{key_of, no_position, worded, line_of};
ghost use Rattle.iox2sd_config.specs.Faults.{column_of, c_note, c_at, c_unread, unread_status};
ghost use Rattle.iox2sd_config.specs.Faults.{sort_key_at};

use config_report::{Finding, Subject, Unread};
use iox2_config_file::{Fault, Kind, NameFault, Section, SettingFault, TomlType};
use iox2_texts::bounded::SemanticStringError;
use iox2sd_common::answers::zero_padded;
use iox2sd_common::status::Status;
use std::alloc::{AllocError, Global};
use toml_positions::Position;

/// What is wrong with a file, and with which key.
#[repr(C)]
#[derive(Clone, Copy)]
pub struct PlainFault {
    /// The number of a [`Status`].
    pub status: u32,
    /// The table of the key. 0: the whole file. 1: `global`. 2: `global.service`.
    /// 3: `global.node`. 4: `defaults`. 5: `defaults.publish-subscribe`. 6: `defaults.event`.
    /// 7: `defaults.request-response`. 8: `defaults.blackboard`.
    pub table: u32,
    /// The type of the value where another is wanted, or 0. 1: a string. 2: an integer. 3: a float.
    /// 4: a boolean. 5: a date-time. 6: an array. 7: a table.
    pub found: u32,
    /// What is wanted, or 0 where nothing is wrong with a key. 1: a table. 2: an integer. 3: a
    /// boolean. 4: a path. 5: the name of a file. 6: what is done where a buffer is full. 7: how a
    /// data segment grows. 8: a duration.
    pub wanted: u32,
    /// The line where the key begins, or where the text is no file of settings, from 1; 0 where
    /// there is no position.
    pub line: usize,
    /// The column, in bytes from 1; 0 where there is no position.
    pub column: usize,
    /// The first bytes of the path of the key, and then zeros.
    pub key: [u8; 80],
    /// How many bytes the path of the key has; 0 where nothing is wrong with a key.
    pub key_length: usize,
    /// The first bytes of what is wrong, in words, and then zeros.
    pub reason: [u8; 256],
    /// How many bytes the words have.
    pub reason_length: usize,
}

/// The number of a table of the file: they are numbered in their order, from 0.
pub(crate) fn section_number(section: Section) -> u32
    ensures { result ≡ section_number section }
{
    section as u32
}

/// The number of a type of TOML: they are numbered in their order, from 1.
fn type_number(found: TomlType) -> u32
    ensures { result ≡ type_number found }
{
    found as u32 + 1
}

/// The number of what a value may be, in their order from 1.
fn kind_number(wanted: Kind) -> u32
    ensures { result ≡ kind_number wanted }
{
    wanted as u32 + 1
}

/// The status of what is wrong with a value.
fn fault_status(fault: Fault) -> Status
    ensures { result ≡ fault_status fault }
{
    match fault {
        Fault::WrongType { .. } => Status::WrongType,
        Fault::OutOfRange => Status::BelowZero,
        Fault::NoPath(SemanticStringError::ExceedsMaximumLength) => Status::TooLong,
        Fault::NoPath(SemanticStringError::InvalidContent) => Status::BadPath,
        Fault::NoFileName(NameFault::TooLong) => Status::TooLong,
        Fault::NoFileName(_) => Status::NoFileName,
        Fault::UnknownVariant(_) => Status::UnknownVariant,
        Fault::NoDuration => Status::NoDuration,
        Fault::NanosTooLarge => Status::BadDuration,
    }
}

/// The type of a value where another is wanted.
fn found_number(fault: Fault) -> u32
    ensures { result ≡ found_number fault }
{
    match fault {
        Fault::WrongType { found, .. } => type_number(found),
        _ => 0,
    }
}

/// What is wanted in place of a value.
fn wanted_number(fault: Fault) -> u32
    ensures { result ≡ wanted_number fault }
{
    kind_number(match fault {
        Fault::WrongType { wanted, .. } => wanted,
        Fault::OutOfRange => Kind::Number,
        Fault::NoPath(_) => Kind::Path,
        Fault::NoFileName(_) => Kind::FileName,
        Fault::UnknownVariant(wanted) => wanted,
        Fault::NoDuration | Fault::NanosTooLarge => Kind::Duration,
    })
}

/// The first bytes of a text, and then zeros.
pub(crate) fn cut<const N: usize>(text: &[u8]) -> [u8; N]
    ensures { result ≡ zero_padded N (take N text.now) }
{
    zero_padded(if text.len() <= N { text } else { &text[..N] })
}

/// The path of a key: its tables, and then the key.
pub(crate) fn key_path(alloc: Global, section: Section, key: &str) -> Result<String, AllocError>
    ensures { IfOk result (λ path. string_bytes path ≡ key_path section key.now) }
{
    let mut path = String::new(alloc);
    path.push_str(section.prefix())?;
    path.push_str(key)?;
    Ok(path)
}

impl PlainFault {
    /// What a status says, and nothing of a key.
    pub(crate) fn of(status: Status) -> PlainFault
        ensures { result ≡ no_position status }
    {
        PlainFault::with_reason(status, status.text())
    }

    /// A status in these words, and nothing of a key.
    pub(crate) fn with_reason(status: Status, reason: &str) -> PlainFault
        ensures { result ≡ worded status reason.now }
    {
        PlainFault {
            status: status.code(),
            table: 0,
            found: 0,
            wanted: 0,
            line: 0,
            column: 0,
            key: [0; 80],
            key_length: 0,
            reason: cut(reason.as_bytes()),
            reason_length: reason.len(),
        }
    }
}

/// The line of a position, or 0.
pub(crate) fn line_of(position: Option<Position>) -> usize
    ensures { result ≡ line_of position }
{
    match position {
        Some(Position { line, .. }) => line,
        None => 0,
    }
}

/// The column of a position, or 0.
pub(crate) fn column_of(position: Option<Position>) -> usize
    ensures { result ≡ column_of position }
{
    match position {
        Some(Position { column, .. }) => column,
        None => 0,
    }
}

/// The key that a finding is about, or nothing.
pub(crate) fn key_of(finding: &Finding) -> &str
    ensures { result.now ≡ key_of (finding_view finding.now).key }
{
    match &finding.key {
        Some(key) => key.as_str(),
        None => "",
    }
}

/// What is found in a file, with its status, and the table, the type and the kind of the value.
fn reported(status: Status, table: u32, found: u32, wanted: u32, finding: &Finding) -> PlainFault
    ensures { result ≡ c_note status table found wanted (finding_view finding.now) }
{
    let key = key_of(finding).as_bytes();
    let reason = finding.message.as_bytes();
    PlainFault {
        status: status.code(),
        table,
        found,
        wanted,
        line: line_of(finding.position),
        column: column_of(finding.position),
        key: cut(key),
        key_length: key.len(),
        reason: cut(reason),
        reason_length: reason.len(),
    }
}

/// What is wrong with the value of a key that begins at this position.
pub(crate) fn plain_fault(
    alloc: Global,
    fault: &SettingFault,
    position: Option<Position>,
) -> Result<PlainFault, AllocError>
    ensures { IfOk result (λ plain. plain ≡ c_at position (fault_view fault.now)) }
{
    let finding = fault.finding(alloc, position)?;
    Ok(reported(
        fault_status(fault.fault),
        section_number(fault.section),
        found_number(fault.fault),
        wanted_number(fault.fault),
        &finding,
    ))
}

/// Why bytes are no file of settings.
pub(crate) fn plain_unread(unread: &Unread) -> PlainFault
    ensures { result ≡ c_unread unread.now }
{
    match unread {
        Unread::NotUtf8(finding) => reported(Status::NotUtf8, 0, 0, 0, finding),
        Unread::TooDeep(finding) => reported(Status::TooDeep, 0, 0, 0, finding),
        Unread::NotToml(finding) => reported(Status::NotToml, 0, 0, 0, finding),
        Unread::NoMemory(_) => PlainFault::of(Status::NoMemory),
    }
}

/// The same by the status alone.
pub(crate) fn unread_status(unread: &Unread) -> Status
    ensures { result ≡ unread_status unread.now }
{
    match unread {
        Unread::NotUtf8(_) => Status::NotUtf8,
        Unread::TooDeep(_) => Status::TooDeep,
        Unread::NotToml(_) => Status::NotToml,
        Unread::NoMemory(_) => Status::NoMemory,
    }
}

/// Where something with this line and this column stands among others: what has none comes last.
pub(crate) fn sort_key_at(line: usize, column: usize) -> (usize, usize)
    ensures { result ≡ sort_key_at line column }
{
    if line == 0 {
        (usize::MAX, usize::MAX)
    } else {
        (line, column)
    }
}
