//! The settings of a service, by their own names, and the lines that set them.
ghost use Rattle.std.specs.Prelude.{◌≡◌, ◌<◌, ◌↔◌, ℕ, List, IfErr, IfOk, IfSome, MatchOption};
ghost use Rattle.std.specs.Prelude.{IsTrue, MatchResult, Some, false, slice_get, slice_set};
ghost use Rattle.std.specs.Option.{option_map};
ghost use Rattle.service_drawing.specs.Descriptions.{IsReason};
ghost use Rattle.service_drawing.specs.Lines.{HasService, StopsAt};
ghost use Rattle.service_drawing.specs.Settings.{HasConfiguration, HasName, IsDashed, IsNamed};
ghost use Rattle.service_drawing.specs.Settings.{IsNotSet, IsSetting, MayBecome, Sets, listed};
ghost use Rattle.service_drawing.specs.Settings.{restored, setting_names, setting_values};
ghost use Rattle.service_drawing.specs.Settings.{value_text};
ghost use Rattle.service_drawing.specs.declared.settings.Value.{Value};

use crate::reading::cause::{Expected, Reason};
use crate::reading::words::{line_after, number};
use iox2_config::config::{AllocationStrategy, BackpressureStrategy, Config, Defaults};
use iox2_config::hash::PatternKind;
use iox2_config_file::{
    blackboard_settings, event_settings, publish_subscribe_settings, request_response_settings,
};
use line_streams::before_byte;
use std::fmt;
use std::time::Duration;

/// The value of a setting.
#[derive(Clone, Copy, PartialEq, Eq)]
pub(crate) enum Value {
    Number(usize),
    Switch(bool),
    /// A number, or none.
    Perhaps(Option<usize>),
    /// A time in nanoseconds, or none.
    Deadline(Option<Duration>),
    Backpressure(BackpressureStrategy),
    Allocation(AllocationStrategy),
}

impl fmt::Display for Value {
    ghost output = { λ value. Some (value_text value) };

    fn fmt<W: fmt::Write>(&self, f: &mut fmt::Formatter<W>) -> fmt::Result {
        match self {
            Value::Number(n) => write!(f, "{n}"),
            Value::Switch(on) => write!(f, "{on}"),
            Value::Perhaps(Some(n)) => write!(f, "{n}"),
            Value::Deadline(Some(time)) => write!(f, "{}", time.as_nanos()),
            Value::Perhaps(None) | Value::Deadline(None) => f.write_str("none"),
            Value::Backpressure(BackpressureStrategy::RetryUntilDelivered) => f.write_str(
                "RetryUntilDelivered",
            ),
            Value::Backpressure(BackpressureStrategy::DiscardData) => f.write_str("DiscardData"),
            Value::Allocation(AllocationStrategy::BestFit) => f.write_str("BestFit"),
            Value::Allocation(AllocationStrategy::PowerOfTwo) => f.write_str("PowerOfTwo"),
            Value::Allocation(AllocationStrategy::Static) => f.write_str("Static"),
        }
    }
}

impl Value {
    /// All values of the same kind, in words.
    fn all(self) -> &'static str {
        match self {
            Value::Number(_) => "a number",
            Value::Switch(_) => "true or false",
            Value::Perhaps(_) => "none or a number",
            Value::Deadline(_) => "none or a number of nanoseconds",
            Value::Backpressure(_) => "RetryUntilDelivered or DiscardData",
            Value::Allocation(_) => "BestFit, PowerOfTwo or Static",
        }
    }

    /// The value of the same kind that the text has.
    fn of_kind(self, text: &[u8]) -> Option<Value>
        ensures { MatchOption result
            ((value : Value) → MayBecome self value → ¬ (text.now ≡ value_text value))
            (λ value. MayBecome self value × (text.now ≡ value_text value)) }
    {
        match self {
            Value::Number(_) => number(text).map(Value::Number),
            Value::Switch(_) => match text {
                b"true" => Some(Value::Switch(true)),
                b"false" => Some(Value::Switch(false)),
                _ => None,
            },
            Value::Perhaps(_) => {
                if text == b"none".as_slice() {
                    return Some(Value::Perhaps(None));
                }
                number(text).map(|n| Value::Perhaps(Some(n)))
            }
            Value::Deadline(_) => {
                if text == b"none".as_slice() {
                    return Some(Value::Deadline(None));
                }
                number(text).map(|n| Value::Deadline(Some(Duration::from_nanos(n as u64))))
            }
            Value::Backpressure(_) => {
                if text == b"RetryUntilDelivered".as_slice() {
                    return Some(Value::Backpressure(BackpressureStrategy::RetryUntilDelivered));
                }
                (text == b"DiscardData".as_slice()).then_some(Value::Backpressure(
                    BackpressureStrategy::DiscardData,
                ))
            }
            Value::Allocation(_) => match text {
                b"BestFit" => Some(Value::Allocation(AllocationStrategy::BestFit)),
                b"PowerOfTwo" => Some(Value::Allocation(AllocationStrategy::PowerOfTwo)),
                b"Static" => Some(Value::Allocation(AllocationStrategy::Static)),
                _ => None,
            },
        }
    }
}

/// The names of all settings of a table. The name of a setting is that of its field.
macro_rules! names_of {
    (
        $number:literal => $first:ident: $key:literal, $kind:ident $($optional:ident)?,
            $about:literal;
        $(
            $numbers:literal => $field:ident: $keys:literal, $kinds:ident $($optionals:ident)?,
                $abouts:literal;
        )*
    ) => {
        concat!(stringify!($first), $(", ", stringify!($field)),*)
    };
}

/// The name and the value of the setting of a number.
macro_rules! row_of {
    ($settings:expr, $index:ident, $(
        $number:literal => $field:ident: $key:literal, $kind:ident $($optional:ident)?,
            $about:literal;
    )*) => {
        match $index {
            $($number => Some((
                stringify!($field),
                value_of!($kind $($optional)?, $settings.$field),
            )),)*
            _ => None,
        }
    };
}

/// Sets the setting of a number, and returns whether there is one that may have the value.
macro_rules! set_in {
    ($settings:expr, $index:ident, $value:ident, $(
        $number:literal => $field:ident: $key:literal, $kind:ident $($optional:ident)?,
            $about:literal;
    )*) => {{
        match ($index, $value) {
            $(($number, value_of!($kind $($optional)?, new)) => $settings.$field = new,)*
            _ => return false,
        }
        true
    }};
}

/// The value of a setting of this kind.
macro_rules! value_of {
    (Number, $($held:tt)*) => { Value::Number($($held)*) };
    (Flag, $($held:tt)*) => { Value::Switch($($held)*) };
    (Number optional, $($held:tt)*) => { Value::Perhaps($($held)*) };
    (Duration optional, $($held:tt)*) => { Value::Deadline($($held)*) };
    (Backpressure, $($held:tt)*) => { Value::Backpressure($($held)*) };
    (Allocation, $($held:tt)*) => { Value::Allocation($($held)*) };
}

/// The names of all settings of a pattern, one after the other.
fn all_names(kind: PatternKind) -> &'static str
    ensures { result.now ≡ listed (setting_names kind) }
{
    match kind {
        PatternKind::PublishSubscribe => publish_subscribe_settings!(names_of),
        PatternKind::Event => event_settings!(names_of),
        PatternKind::RequestResponse => request_response_settings!(names_of),
        PatternKind::Blackboard => blackboard_settings!(names_of),
    }
}

/// The name and the value of the setting of this number, if the pattern has one. There are at most
/// 32.
pub(crate) fn row(
    defaults: &Defaults,
    kind: PatternKind,
    index: usize,
) -> Option<(&'static str, Value)>
    ensures name { option_map (λ row. row.0.now) result ≡ slice_get (setting_names kind) index }
    ensures value { option_map (λ row. row.1) result
        ≡ slice_get (setting_values kind defaults.now) index }
    ensures few { IfSome result (λ row. index < 32) }
{
    match kind {
        PatternKind::PublishSubscribe => {
            publish_subscribe_settings!(row_of defaults.publish_subscribe, index,)
        }
        PatternKind::Event => event_settings!(row_of defaults.event, index,),
        PatternKind::RequestResponse => {
            request_response_settings!(row_of defaults.request_response, index,)
        }
        PatternKind::Blackboard => blackboard_settings!(row_of defaults.blackboard, index,),
    }
}

/// Sets the setting of this number. A number that no setting of the pattern has is refused, and a
/// value of another kind than the setting's.
fn set_value(defaults: &mut Defaults, kind: PatternKind, index: usize, value: Value) -> bool
    ensures set { IsTrue result → setting_values kind defaults.new
        ≡ slice_set (setting_values kind defaults.old) index value }
    ensures others { restored kind defaults.old defaults.new ≡ defaults.old }
    ensures kept { result ≡ false → defaults.new ≡ defaults.old }
    ensures refused { result ≡ false → (old : Value)
        → slice_get (setting_values kind defaults.old) index ≡ Some old → ¬ MayBecome old value }
{
    match kind {
        PatternKind::PublishSubscribe => {
            publish_subscribe_settings!(set_in defaults.publish_subscribe, index, value,)
        }
        PatternKind::Event => event_settings!(set_in defaults.event, index, value,),
        PatternKind::RequestResponse => {
            request_response_settings!(set_in defaults.request_response, index, value,)
        }
        PatternKind::Blackboard => blackboard_settings!(set_in defaults.blackboard, index, value,),
    }
}

/// Whether the word is this name with dashes instead of underscores.
fn is_dashed(word: &[u8], name: &str) -> bool
    ensures { IsTrue result ↔ IsDashed word.now name.now }
{
    let name = name.as_bytes();
    word.len() == name.len()
        && word.iter().zip(name).all(|(byte, own)| *byte == if *own == b'_' { b'-' } else { *own })
}

/// Whether the word is this name, as the code or as configuration files have it.
fn is_named(word: &[u8], name: &str) -> bool
    ensures { IsTrue result ↔ IsNamed word.now name.now }
{
    word == name.as_bytes() || is_dashed(word, name)
}

/// The number and the value of the setting of this name, if there is one.
fn find(defaults: &Defaults, kind: PatternKind, word: &[u8]) -> Option<(usize, Value)>
    ensures name { MatchOption result ((index : ℕ) → ¬ HasName (setting_names kind) index word.now)
        (λ found. IsSetting (setting_names kind) found.0 word.now) }
    ensures value { IfSome result (λ found. (found.0 < 32)
        × (slice_get (setting_values kind defaults.now) found.0 ≡ Some found.1)) }
{
    let mut index = 0;
    while let Some((name, value)) = row(defaults, kind, index) {
        if is_named(word, name) {
            return Some((index, value));
        }
        index += 1;
    }
    None
}

/// Sets the setting with the name and the value of the text, and marks it as set, or returns why it
/// does not.
#[tactic(auto, using(crate::proofs::SettingLines::restored_same, crate::proofs::SettingLines::as_word, crate::proofs::SettingLines::marked_at, crate::proofs::SettingLines::spaced, crate::proofs::SettingLines::no_value_follows))]
fn set(
    defaults: &mut Defaults,
    kind: PatternKind,
    given: &mut [bool; 32],
    text: &[u8],
) -> Result<(), Reason>
    ensures set { IfOk result (λ done. Sets kind defaults.old given.old text.now
        defaults.new given.new) }
    ensures others { restored kind defaults.old defaults.new ≡ defaults.old }
    ensures kept { IfErr result (λ reason. defaults.new ≡ defaults.old) }
    ensures refused { IfErr result (λ reason.
        IsNotSet kind defaults.old given.old text.now reason) }
{
    let Some((word, text)) = before_byte(text, b' ') else {
        return Err(Reason::OtherForm);
    };
    let Some((index, value)) = find(defaults, kind, word) else {
        return Err(Reason::UnknownSetting);
    };
    if given[index] {
        return Err(Reason::SetTwice);
    }
    match value.of_kind(text) {
        Some(value) if set_value(defaults, kind, index, value) => {
            given[index] = true;
            Ok(())
        }
        _ => Err(Reason::OtherForm),
    }
}

/// The values that the setting may have that the text names.
fn values_of(defaults: &Defaults, kind: PatternKind, text: &[u8]) -> &'static str {
    if let Some((word, _)) = before_byte(text, b' ')
        && let Some((_, value)) = find(defaults, kind, word)
    {
        return value.all();
    }
    "a value that the setting may have"
}

/// What was expected instead of a line that sets nothing.
fn expected<'a>(
    defaults: &Defaults,
    kind: PatternKind,
    text: &[u8],
    bytes: &'a [u8],
    reason: Reason,
) -> Expected<'a>
    ensures rest { result.rest.now ≡ bytes.now }
    ensures reason { result.reason ≡ reason }
{
    let (prefix, form) = match reason {
        Reason::UnknownSetting => ("set NAME VALUE with one of the names ", all_names(kind)),
        Reason::SetTwice => ("each setting once", ""),
        _ => ("set NAME VALUE with ", values_of(defaults, kind, text)),
    };
    Expected {
        rest: bytes,
        reason,
        prefix,
        form,
    }
}

/// The lines of the settings of a pattern, with which the configuration is changed.
pub(crate) fn settings_before<'a>(
    bytes: &'a [u8],
    kind: PatternKind,
    config: &mut Config,
) -> Result<&'a [u8], Expected<'a>>
    ensures { MatchResult result
        (λ rest. HasConfiguration config.old kind config.new rest.now bytes.now)
        (λ expected. StopsAt (HasConfiguration config.old kind) expected.rest.now bytes.now
        × ((name before : List ℕ) → HasService kind name bytes.now before
        → IsReason config.old expected.reason expected.rest.now before)) }
{
    let mut given = [false; 32];
    let mut rest = bytes;
    while let Some((text, tail)) = line_after(rest, "", "set ") {
        match set(&mut config.defaults, kind, &mut given, text) {
            Ok(()) => rest = tail,
            Err(reason) => return Err(expected(&config.defaults, kind, text, rest, reason)),
        }
    }
    Ok(rest)
}
