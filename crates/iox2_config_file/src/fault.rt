//! What the value of a key may be, and which values of a file are not allowed.
ghost use Rattle.std.specs.Prelude.{◌≡◌, Some, ◌++◌, map, option_map, OnOk};
ghost use Rattle.iox2_config_file.specs.Read.{kind_text, no_file_name_text, no_path_text};
ghost use Rattle.iox2_config_file.specs.Read.{reason_text, type_text, located_text, fault_view};
ghost use Rattle.iox2_config_file.specs.Read.{row_fault, row_view, section_faults, section_members};
ghost use Rattle.toml.specs.Data.{Members};
ghost use Rattle.toml.specs.View.{table_view};
ghost use Rattle.iox2_config.specs.declared.config.Config.{Config};

use crate::section::{Row, Section, get, rows};
use crate::value::fault;
use iox2_texts::bounded::SemanticStringError;
use std::alloc::AllocError;
use std::error::Error;
use std::fmt;
use toml::Table;

/// What the value of a key may be.
#[derive(Clone, Copy, Debug, PartialEq, Eq)]
pub enum Kind {
    /// A table of settings.
    Table,
    /// An integer from 0 to 2^63 - 1.
    Number,
    /// A boolean.
    Flag,
    /// A text that is a path.
    Path,
    /// A text that is the name of a file.
    FileName,
    /// The name of a `BackpressureStrategy`.
    Backpressure,
    /// The name of an `AllocationStrategy`.
    Allocation,
    /// A table of `secs` and `nanos`, and nothing else.
    Duration,
}

/// The types of TOML.
#[derive(Clone, Copy, Debug, PartialEq, Eq)]
pub enum TomlType {
    /// A text.
    String,
    /// An integer.
    Integer,
    /// A number with a fraction.
    Float,
    /// `true` or `false`.
    Boolean,
    /// A date, a time or both.
    Datetime,
    /// A list of values.
    Array,
    /// Values under keys.
    Table,
}

/// Why a text is no name of a file: the first of these that is true of it.
#[derive(Clone, Copy, Debug, PartialEq, Eq)]
pub enum NameFault {
    /// It is empty.
    Empty,
    /// It has more than 255 bytes.
    TooLong,
    /// It is `.` or `..`.
    Dots,
    /// It has a `/`.
    Slash,
    /// It has a byte that is not from 1 to 127.
    ForeignByte,
}

/// What is wrong with the value of a key.
#[derive(Clone, Copy, Debug, PartialEq, Eq)]
pub enum Fault {
    /// It is of another type than the one that is wanted.
    WrongType {
        /// What it is.
        found: TomlType,
        /// What is wanted.
        wanted: Kind,
    },
    /// A number below 0.
    OutOfRange,
    /// A text that is no path.
    NoPath(SemanticStringError),
    /// A text that is no name of a file.
    NoFileName(NameFault),
    /// A text that names no variant of the kind.
    UnknownVariant(Kind),
    /// A table that does not have just the integers `secs` and `nanos`, none of them below 0.
    NoDuration,
    /// A duration whose `nanos` have more than 32 bits.
    NanosTooLarge,
}

impl Error for Fault {}

impl fmt::Display for Fault {
    ghost output = { λ fault. Some (reason_text fault) };

    #[tactic(auto, unfolding(crate::specs::Read::reason_text))]
    fn fmt<W: fmt::Write>(&self, f: &mut fmt::Formatter<W>) -> fmt::Result {
        match self {
            Fault::WrongType { found, wanted } => write!(f, "is {found}, and {wanted} is wanted"),
            Fault::OutOfRange => f.write_str("is not an integer from 0 to 9223372036854775807"),
            Fault::NoPath(error) => write!(f, "is no path: {}", no_path(error)),
            Fault::NoFileName(error) => write!(f, "is no name of a file: {}", no_file_name(*error)),
            Fault::UnknownVariant(wanted) => write!(f, "is not {wanted}"),
            Fault::NoDuration => f.write_str(
                "is not `{ secs = S, nanos = N }` with two integers from 0 on",
            ),
            Fault::NanosTooLarge => f.write_str("has `nanos` of 2^32 or more"),
        }
    }
}

/// Why a text is no path.
fn no_path(error: &SemanticStringError) -> &'static str
    ensures { result.now ≡ no_path_text error.now }
{
    match error {
        SemanticStringError::InvalidContent => no_file_name(NameFault::ForeignByte),
        SemanticStringError::ExceedsMaximumLength => no_file_name(NameFault::TooLong),
    }
}

/// Why a text is no name of a file.
fn no_file_name(error: NameFault) -> &'static str
    ensures { result.now ≡ no_file_name_text error }
{
    match error {
        NameFault::Empty => "it is empty",
        NameFault::TooLong => "it has more than 255 bytes",
        NameFault::Dots => "it is `.` or `..`",
        NameFault::Slash => "it has a `/`",
        NameFault::ForeignByte => "it has a byte that is not from 1 to 127",
    }
}

impl fmt::Display for Kind {
    ghost output = { λ kind. Some (kind_text kind) };

    fn fmt<W: fmt::Write>(&self, f: &mut fmt::Formatter<W>) -> fmt::Result {
        f.write_str(match self {
            Kind::Table => "a table",
            Kind::Number => "an integer",
            Kind::Flag => "a boolean",
            Kind::Path => "a string with a path",
            Kind::FileName => "a string with the name of a file",
            Kind::Backpressure => "\"RetryUntilDelivered\" or \"DiscardData\"",
            Kind::Allocation => "\"BestFit\", \"PowerOfTwo\" or \"Static\"",
            Kind::Duration => "a table of `secs` and `nanos`",
        })
    }
}

impl fmt::Display for TomlType {
    ghost output = { λ found. Some (type_text found) };

    fn fmt<W: fmt::Write>(&self, f: &mut fmt::Formatter<W>) -> fmt::Result {
        f.write_str(match self {
            TomlType::String => "a string",
            TomlType::Integer => "an integer",
            TomlType::Float => "a float",
            TomlType::Boolean => "a boolean",
            TomlType::Datetime => "a date-time",
            TomlType::Array => "an array",
            TomlType::Table => "a table",
        })
    }
}

/// What is wrong with the value of a key, and where.
#[derive(Clone, Copy, Debug, PartialEq, Eq)]
pub struct SettingFault {
    /// The table in which the key stands.
    pub section: Section,
    /// The key.
    pub key: &'static str,
    /// What is wrong with its value.
    pub fault: Fault,
}

impl Error for SettingFault {}

impl fmt::Display for SettingFault {
    ghost output = { λ fault. Some (located_text (fault_view fault)) };

    fn fmt<W: fmt::Write>(&self, f: &mut fmt::Formatter<W>) -> fmt::Result {
        write!(f, "{}{}: {}", self.section.prefix(), self.key, self.fault)
    }
}

/// What is wrong with the value of a key, if it has one.
fn fault_of(section: Section, table: &Table, row: &Row) -> Option<SettingFault>
    ensures { option_map fault_view result
        ≡ row_fault section (table_view table.now) (row_view row.now) }
{
    let value = get(table, row.key)?;
    Some(SettingFault {
        section,
        key: row.key,
        fault: fault(row.kind, value)?,
    })
}

/// Adds the faults of the values in a table of the file.
#[tactic(auto, unfolding(crate::specs::Read::section_faults))]
pub(crate) fn add_faults(
    faults: &mut Vec<SettingFault>,
    section: Section,
    table: &Table,
) -> Result<(), AllocError>
    ensures { OnOk result ((c : Config) (file : Members)
        → table_view table.now ≡ section_members section file → map fault_view faults.new.items
        ≡ map fault_view faults.old.items ++ section_faults c file section) }
{
    let rows = rows(section);
    for row in rows {
        if let Some(fault) = fault_of(section, table, row) {
            faults.push(fault)?;
        }
    }
    Ok(())
}
