//! What a setting holds, how the value of a key is read, and the settings of a configuration, one
//! by one.
ghost use Rattle.std.specs.Prelude.{◌≡◌, ◌<◌, ◌^◌, Some, IfSome, option_map};
ghost use Rattle.std.specs.List.{list_any};
ghost use Rattle.std.specs.Result.{result_map_both, result_err};
ghost use Rattle.iox2_texts.specs.Path.{is_slash};
ghost use Rattle.std.specs.Duration.{as_nanos};
ghost use Rattle.toml_parser.specs.Lexical.{line_feed};
ghost use Rattle.toml_writer.specs.Text.{has};
ghost use Rattle.toml.specs.Data.{get_member};
ghost use Rattle.toml.specs.View.{view, table_view};
ghost use Rattle.iox2_config_file.specs.Values.{type_in, value_in, value_or, duration_in, part_in};
ghost use Rattle.iox2_config_file.specs.Values.{flag, text as text_value, text_in, is_path};
ghost use Rattle.iox2_config_file.specs.Values.{is_file_name, name_fault};
ghost use Rattle.iox2_config_file.specs.Values as values;
ghost use Rattle.iox2_config_file.specs.declared.fault.Kind.TheVariants as kind;
ghost use Rattle.iox2_config_file.specs.Write.{value_view, value_text, value_is_set, value_fits};
ghost use Rattle.iox2_config_file.specs.Settings as table_of;

use crate::fault::{Fault, Kind, NameFault, TomlType};
use crate::section::{Section, get, member_count, node_settings, service_settings};
use crate::{
    blackboard_settings, event_settings, publish_subscribe_settings, request_response_settings,
};
use iox2_config::config::{AllocationStrategy, BackpressureStrategy, Config};
use iox2_texts::bounded::SemanticStringError;
use iox2_texts::paths::{FileName, Path};
use std::fmt;
use std::time::Duration;
use toml::{Table, Value};
use toml_writer::{write_key, write_string};

/// What a setting holds. `{}` writes it as TOML does, in one line.
#[derive(Clone, Copy, Debug, PartialEq, Eq)]
pub enum SettingValue<'a> {
    /// A number.
    Number(usize),
    /// A switch.
    Flag(bool),
    /// A path, or the name of a file.
    Text(&'a str),
    /// What a sender does where a receiver's buffer is full.
    Backpressure(BackpressureStrategy),
    /// How a data segment grows.
    Allocation(AllocationStrategy),
    /// A time.
    Duration(Duration),
    /// Nothing: the setting is not set.
    Absent,
}

impl fmt::Display for SettingValue<'_> {
    ghost output = { λ value. Some (value_text (value_view value)) };

    fn fmt<W: fmt::Write>(&self, f: &mut fmt::Formatter<W>) -> fmt::Result {
        match self {
            SettingValue::Number(n) => write!(f, "{n}"),
            SettingValue::Flag(on) => write!(f, "{on}"),
            SettingValue::Text(text) if has_newline(text) => write_key(f, text),
            SettingValue::Text(text) => write_string(f, text),
            SettingValue::Backpressure(BackpressureStrategy::RetryUntilDelivered) => f.write_str(
                "\"RetryUntilDelivered\"",
            ),
            SettingValue::Backpressure(BackpressureStrategy::DiscardData) => f.write_str(
                "\"DiscardData\"",
            ),
            SettingValue::Allocation(AllocationStrategy::BestFit) => f.write_str("\"BestFit\""),
            SettingValue::Allocation(AllocationStrategy::PowerOfTwo) => f.write_str(
                "\"PowerOfTwo\"",
            ),
            SettingValue::Allocation(AllocationStrategy::Static) => f.write_str("\"Static\""),
            SettingValue::Duration(time) => write!(
                f,
                "{{ nanos = {}, secs = {} }}",
                time.subsec_nanos(),
                time.as_secs()
            ),
            SettingValue::Absent => f.write_str("not set"),
        }
    }
}

/// Whether a text has a newline. As a value TOML would write it in several lines, as a key in one.
fn has_newline(text: &str) -> bool
    ensures { result ≡ has line_feed text.now }
{
    text.as_bytes().iter().any(|b| *b == b'\n')
}

impl SettingValue<'_> {
    /// Whether it is anything.
    pub(crate) fn is_set(self) -> bool
        ensures { result ≡ value_is_set (value_view self.entry) }
    {
        !matches!(self, SettingValue::Absent)
    }

    /// Whether TOML has the number, or the seconds: whether it is below 2^63.
    pub(crate) fn fits(self) -> bool
        ensures { result ≡ value_fits (value_view self.entry) }
    {
        match self {
            SettingValue::Number(n) => n < 1 << 63,
            SettingValue::Duration(time) => time.as_secs() < 1 << 63,
            _ => true,
        }
    }
}

/// Types of settings, as the value of a key gives them.
pub(crate) trait FromToml {
    ghost use Rattle.iox2_config_file.specs.declared.fault.Kind.{Kind};
    ghost use Rattle.iox2_config_file.specs.Values.{SettingValue};

    /// The value, as the definitions see it.
    ghost value_of: { Self → SettingValue };

    /// What is wanted of the key.
    ghost wanted: { Kind };

    /// The setting that a value means, or what is wrong with it.
    fn from_toml(value: &Value) -> Result<Self, Fault>
        ensures { result_map_both value_of (λ e. e) result ≡ value_in wanted (view value.now) };

    /// What the setting holds.
    fn to_value(&self) -> SettingValue<'_>
        ensures { value_view result ≡ value_of self.now };
}

impl FromToml for usize {
    ghost value_of = { values.number };

    ghost wanted = { kind.Number };

    fn from_toml(value: &Value) -> Result<usize, Fault> {
        match value {
            Value::Integer(n) => usize::try_from(*n).map_err(|_| Fault::OutOfRange),
            _ => Err(wrong_type(value, Kind::Number)),
        }
    }

    fn to_value(&self) -> SettingValue<'_> {
        SettingValue::Number(*self)
    }
}

impl FromToml for bool {
    ghost value_of = { flag };

    ghost wanted = { kind.Flag };

    fn from_toml(value: &Value) -> Result<bool, Fault> {
        match value {
            Value::Boolean(b) => Ok(*b),
            _ => Err(wrong_type(value, Kind::Flag)),
        }
    }

    fn to_value(&self) -> SettingValue<'_> {
        SettingValue::Flag(*self)
    }
}

impl FromToml for Path {
    ghost value_of = { values.text };

    ghost wanted = { kind.Path };

    fn from_toml(value: &Value) -> Result<Path, Fault> {
        match value {
            Value::String(text) => path(text.as_bytes()).map_err(Fault::NoPath),
            _ => Err(wrong_type(value, Kind::Path)),
        }
    }

    fn to_value(&self) -> SettingValue<'_> {
        SettingValue::Text(self.as_str())
    }
}

impl FromToml for FileName {
    ghost value_of = { values.text };

    ghost wanted = { kind.FileName };

    fn from_toml(value: &Value) -> Result<FileName, Fault> {
        match value {
            Value::String(text) => match file_name(text.as_bytes()) {
                Ok(name) => Ok(name),
                Err(_) => Err(Fault::NoFileName(name_fault(text.as_bytes()))),
            },
            _ => Err(wrong_type(value, Kind::FileName)),
        }
    }

    fn to_value(&self) -> SettingValue<'_> {
        SettingValue::Text(self.as_str())
    }
}

impl FromToml for BackpressureStrategy {
    ghost value_of = { values.backpressure };

    ghost wanted = { kind.Backpressure };

    fn from_toml(value: &Value) -> Result<BackpressureStrategy, Fault> {
        match value {
            Value::String(name) => match name.as_str() {
                "RetryUntilDelivered" => Ok(BackpressureStrategy::RetryUntilDelivered),
                "DiscardData" => Ok(BackpressureStrategy::DiscardData),
                _ => Err(Fault::UnknownVariant(Kind::Backpressure)),
            },
            _ => Err(wrong_type(value, Kind::Backpressure)),
        }
    }

    fn to_value(&self) -> SettingValue<'_> {
        SettingValue::Backpressure(*self)
    }
}

impl FromToml for AllocationStrategy {
    ghost value_of = { values.allocation };

    ghost wanted = { kind.Allocation };

    fn from_toml(value: &Value) -> Result<AllocationStrategy, Fault> {
        match value {
            Value::String(name) => match name.as_str() {
                "BestFit" => Ok(AllocationStrategy::BestFit),
                "PowerOfTwo" => Ok(AllocationStrategy::PowerOfTwo),
                "Static" => Ok(AllocationStrategy::Static),
                _ => Err(Fault::UnknownVariant(Kind::Allocation)),
            },
            _ => Err(wrong_type(value, Kind::Allocation)),
        }
    }

    fn to_value(&self) -> SettingValue<'_> {
        SettingValue::Allocation(*self)
    }
}

impl FromToml for Duration {
    ghost value_of = { λ d. values.duration (as_nanos d) };

    ghost wanted = { kind.Duration };

    fn from_toml(value: &Value) -> Result<Duration, Fault> {
        match value {
            Value::Table(parts) => duration(parts),
            _ => Err(wrong_type(value, Kind::Duration)),
        }
    }

    fn to_value(&self) -> SettingValue<'_> {
        SettingValue::Duration(*self)
    }
}

/// The duration of a table of `secs` and `nanos`.
fn duration(parts: &Table) -> Result<Duration, Fault>
    ensures { result_map_both (λ d. values.duration (as_nanos d)) (λ e. e) result
        ≡ duration_in (table_view parts.now) }
{
    if member_count(parts) != 2 {
        return Err(Fault::NoDuration);
    }
    let Some(secs) = part(parts, "secs") else {
        return Err(Fault::NoDuration);
    };
    let Some(nanos) = part(parts, "nanos") else {
        return Err(Fault::NoDuration);
    };
    let Ok(nanos) = u32::try_from(nanos) else {
        return Err(Fault::NanosTooLarge);
    };
    Ok(Duration::new(secs, nanos))
}

/// An integer that is not below 0.
fn number(value: &Value) -> Option<u64>
    ensures value { result ≡ part_in (Some (view value.now)) }
    ensures range { IfSome result (λ n. n < 2 ^ 63) }
{
    match value {
        Value::Integer(n) => u64::try_from(*n).ok(),
        _ => None,
    }
}

/// The number at a key.
fn part(parts: &Table, key: &str) -> Option<u64>
    ensures value { result ≡ part_in (get_member key.now (table_view parts.now)) }
    ensures range { IfSome result (λ n. n < 2 ^ 63) }
{
    number(get(parts, key)?)
}

/// A setting that may be absent.
impl<T: FromToml> FromToml for Option<T> {
    ghost value_of = { values.option_value T.value_of };

    ghost wanted = { T.wanted };

    fn from_toml(value: &Value) -> Result<Option<T>, Fault> {
        Ok(Some(T::from_toml(value)?))
    }

    fn to_value(&self) -> SettingValue<'_> {
        match self {
            Some(setting) => setting.to_value(),
            None => SettingValue::Absent,
        }
    }
}

/// The setting at a key, or else the default.
pub(crate) fn read<T: FromToml + Drop>(table: &Table, key: &str, default: T) -> T
    ensures { T.value_of result
        ≡ value_or T.wanted (T.value_of default) (get_member key.now (table_view table.now)) }
{
    match get(table, key) {
        Some(value) => match T::from_toml(value) {
            Ok(setting) => setting,
            Err(_) => default,
        },
        None => default,
    }
}

/// What is wrong with a value where one of this kind is wanted.
pub(crate) fn fault(wanted: Kind, value: &Value) -> Option<Fault>
    ensures { result ≡ result_err (value_in wanted (view value.now)) }
{
    match wanted {
        Kind::Table => match value {
            Value::Table(_) => None,
            _ => Some(wrong_type(value, Kind::Table)),
        },
        Kind::Number => usize::from_toml(value).err(),
        Kind::Flag => bool::from_toml(value).err(),
        Kind::Path => Path::from_toml(value).err(),
        Kind::FileName => FileName::from_toml(value).err(),
        Kind::Backpressure => BackpressureStrategy::from_toml(value).err(),
        Kind::Allocation => AllocationStrategy::from_toml(value).err(),
        Kind::Duration => Duration::from_toml(value).err(),
    }
}

/// The fault of a value of another type.
fn wrong_type(value: &Value, wanted: Kind) -> Fault
    ensures { result ≡ Fault.WrongType (type_in (view value.now)) wanted }
{
    Fault::WrongType {
        found: type_of(value),
        wanted,
    }
}

/// The type of a value.
fn type_of(value: &Value) -> TomlType
    ensures { result ≡ type_in (view value.now) }
{
    match value {
        Value::String(_) => TomlType::String,
        Value::Integer(_) => TomlType::Integer,
        Value::Float(_) => TomlType::Float,
        Value::Boolean(_) => TomlType::Boolean,
        Value::Datetime(_) => TomlType::Datetime,
        Value::Array(_) => TomlType::Array,
        Value::Table(_) => TomlType::Table,
    }
}

/// The path that a text is.
fn path(bytes: &[u8]) -> Result<Path, SemanticStringError>
    ensures { result_map_both text_value (λ e. e) result ≡ text_in is_path bytes.now }
{
    Path::new(bytes)
}

/// The name of a file that a text is.
fn file_name(bytes: &[u8]) -> Result<FileName, SemanticStringError>
    ensures { result_map_both text_value (λ e. e) result ≡ text_in is_file_name bytes.now }
{
    FileName::new(bytes)
}

/// Whether a byte is `/`.
fn has_slash(bytes: &[u8]) -> bool
    ensures { result ≡ list_any is_slash bytes.now }
{
    bytes.iter().any(|byte| *byte == b'/')
}

/// Why a text that is no name of a file is none.
fn name_fault(bytes: &[u8]) -> NameFault
    ensures { result ≡ name_fault bytes.now }
{
    if bytes.is_empty() {
        NameFault::Empty
    } else if bytes.len() > 255 {
        NameFault::TooLong
    } else if bytes == b".".as_slice() {
        NameFault::Dots
    } else if bytes == b"..".as_slice() {
        NameFault::Dots
    } else if has_slash(bytes) {
        NameFault::Slash
    } else {
        NameFault::ForeignByte
    }
}

/// What the field of this number holds, among some settings.
macro_rules! value_in {
    (($settings:expr), $index:ident, $(
        $number:literal => $field:ident: $key:literal, $kind:ident $($optional:ident)?,
            $about:literal;
    )*) => {
        match $index {
            $($number => Some($settings.$field.to_value()),)*
            _ => None,
        }
    };
}

/// What the setting of a row holds: of the row of this number among those of the table, from 0 on.
pub fn value_at(config: &Config, section: Section, index: usize) -> Option<SettingValue<'_>>
    ensures { option_map value_view result
        ≡ table_of.held_at (table_of.settings_in section config.now) index }
{
    match section {
        Section::Root | Section::Defaults => None,
        Section::Global => match index {
            0 => Some(config.global.root_path().to_value()),
            1 => Some(config.global.prefix.to_value()),
            2 => Some(config.global.creation_timeout.to_value()),
            _ => None,
        },
        Section::Service => service_settings!(value_in(config.global.service), index,),
        Section::Node => node_settings!(value_in(config.global.node), index,),
        Section::PublishSubscribe => {
            publish_subscribe_settings!(value_in(config.defaults.publish_subscribe), index,)
        }
        Section::Event => event_settings!(value_in(config.defaults.event), index,),
        Section::RequestResponse => {
            request_response_settings!(value_in(config.defaults.request_response), index,)
        }
        Section::Blackboard => blackboard_settings!(value_in(config.defaults.blackboard), index,),
    }
}
