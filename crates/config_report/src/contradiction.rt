//! Settings that contradict each other, and what is said of them.
ghost use Rattle.std.specs.Prelude.{◌≡◌, Some, IfOk};
ghost use Rattle.config_report.specs.Contradictions.{beside_text, contradiction_note};
ghost use Rattle.config_report.specs.Contradictions.{contradiction_view, effect_text, is_later};
ghost use Rattle.config_report.specs.Contradictions.{other_view, side_note, side_view};
ghost use Rattle.config_report.specs.Notes.{finding_view};

use crate::finding::{Finding, Severity, finding_of, key_path, position_for};
use iox2_config_file::{Section, SettingValue};
use std::alloc::{AllocError, Global};
use std::fmt;
use toml_positions::{Position, Positions};

/// What settings that contradict each other lead to.
#[derive(Clone, Copy)]
pub(crate) enum Effect {
    /// An event that is above the greatest one.
    UnsentEvent,
    /// A root path that does not begin with `/`.
    ManyRoots,
    /// One suffix of two kinds of files.
    SameNames,
    /// Names of files that would have more than 255 bytes.
    LongNames,
    /// A path of a directory that would have more than 255 bytes.
    LongPath,
    /// A buffer that cannot hold the history.
    SmallBuffer,
    /// A limit of 0.
    UselessLimit,
    /// A path or a name that has a control character.
    ControlCharacter,
}

impl fmt::Display for Effect {
    ghost output = { λ effect. Some (effect_text effect) };

    fn fmt<W: fmt::Write>(&self, f: &mut fmt::Formatter<W>) -> fmt::Result {
        f.write_str(match self {
            Effect::UnsentEvent => "an event above the greatest one is never sent",
            Effect::ManyRoots => {
                "a path that does not begin with / is another one in each working directory"
            }
            Effect::SameNames => "files of both kinds cannot be distinguished by their names",
            Effect::LongNames => {
                "with a hash text of 27 bytes between them, names of files have more than 255 bytes"
            }
            Effect::LongPath => {
                "joined they have more than 255 bytes, and the middleware panics as it joins them"
            }
            Effect::SmallBuffer => { "without safe overflow a buffer must hold the whole history" }
            Effect::UselessLimit => "a limit of 0 allows none",
            Effect::ControlCharacter => "it has a control character",
        })
    }
}

/// A setting, and its value.
#[derive(Clone, Copy)]
pub(crate) struct Side<'a> {
    pub(crate) section: Section,
    pub(crate) key: &'static str,
    pub(crate) value: SettingValue<'a>,
}

/// A setting that contradicts itself or another one, and what that leads to.
#[derive(Clone, Copy)]
pub(crate) struct Contradiction<'a> {
    pub(crate) one: Side<'a>,
    pub(crate) other: Option<Side<'a>>,
    pub(crate) effect: Effect,
}

/// What is said of a setting, without its key.
impl fmt::Display for Contradiction<'_> {
    ghost output = { λ c. Some (beside_text (side_view c.one) (other_view c.other) c.effect) };

    fn fmt<W: fmt::Write>(&self, f: &mut fmt::Formatter<W>) -> fmt::Result {
        let value = self.one.value;
        let effect = self.effect;
        match self.other {
            None => write!(f, "is {value}: {effect}"),
            Some(other) => {
                let prefix = other.section.prefix();
                let key = other.key;
                let beside = other.value;
                write!(f, "is {value}, and {prefix}{key} is {beside}: {effect}")
            }
        }
    }
}

/// What is said of a setting at a position.
fn side_finding(
    alloc: Global,
    position: Option<Position>,
    said: &Contradiction<'_>,
) -> Result<Finding, AllocError>
    ensures { IfOk result (λ found. finding_view found ≡ side_note position
        (side_view said.now.one) (other_view said.now.other) said.now.effect) }
{
    let prefix = said.one.section.prefix();
    let key = format!(in alloc; "{prefix}{}", said.one.key)?;
    let message = format!(in alloc; "{said}")?;
    finding_of(alloc, position, Severity::Warning, key, message)
}

/// Whether the second position is in the file, and the first is not, or stands before it.
fn is_later(first: Option<Position>, second: Option<Position>) -> bool
    ensures { result ≡ is_later first second }
{
    match (first, second) {
        (_, None) => false,
        (None, Some(_)) => true,
        (Some(first), Some(second)) => {
            first.line < second.line || (first.line == second.line && first.column < second.column)
        }
    }
}

/// What is said of a contradiction in a file: of the one of its settings that stands later.
pub(crate) fn contradiction_finding(
    alloc: Global,
    positions: &mut Positions<'_>,
    found: &Contradiction<'_>,
) -> Result<Finding, AllocError>
    ensures text { positions.new ≡ positions.old }
    ensures said { IfOk result (λ finding. finding_view finding
        ≡ contradiction_note positions.old (contradiction_view found.now)) }
{
    let first = position_for(alloc, positions, key_path(found.one.section, found.one.key))?;
    let Some(other) = found.other else {
        return side_finding(alloc, first, found);
    };
    let second = position_for(alloc, positions, key_path(other.section, other.key))?;
    if is_later(first, second) {
        let turned = Contradiction {
            one: other,
            other: Some(found.one),
            effect: found.effect,
        };
        side_finding(alloc, second, &turned)
    } else {
        side_finding(alloc, first, found)
    }
}
