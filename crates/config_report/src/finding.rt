//! What is found in a file of settings, in texts that stand in one line, and where its keys stand.
ghost use Rattle.std.specs.Prelude.{◌≡◌, ◌++◌, ◌∷◌, [], IfOk, Some, map};
ghost use Rattle.std.specs.Prelude.{option_map, string_bytes};
ghost use Rattle.iox2_config_file.specs.Settings.{table_path};
ghost use Rattle.iox2_config_file.specs.Unknown.{proposal_view};
ghost use Rattle.config_report.specs.Findings.{sort_key_of};
ghost use Rattle.config_report.specs.Notes.{at_text, fault_topic, finding_view};
ghost use Rattle.config_report.specs.Notes.{in_line, meant_text, note, note_text, position_for};
ghost use Rattle.config_report.specs.Notes.{severity_text, topic_note};
ghost use Rattle.config_report.specs.Notes.{topic_path, topic_position, unknown_topic};
ghost use Rattle.toml_positions.specs.Written.{path_view};
ghost use Rattle.toml_writer.specs.Text.{key_text};

use crate::printable::printable;
use iox2_config::config::Config;
use iox2_config_file::{Likeness, Proposal, Section, SettingFault, UnknownKey};
use std::alloc::{AllocError, Global};
use std::fmt;
use toml_positions::{KeyPath, Position, Positions};
use toml_writer::write_key;

/// How much a finding weighs.
#[derive(Clone, Copy, Debug, PartialEq, Eq)]
pub enum Severity {
    /// The file gives no settings.
    Error,
    /// The file gives settings, which are probably not those that were meant.
    Warning,
}

impl Severity {
    /// The severity in a word.
    pub fn word(self) -> &'static str
        ensures { result.now ≡ severity_text self }
    {
        match self {
            Severity::Error => "error",
            Severity::Warning => "warning",
        }
    }
}

/// The position of something reported, in front of it, if it is known.
#[derive(Clone, Copy)]
struct At(Option<Position>);

impl fmt::Display for At {
    ghost output = { λ at. Some (at_text at.0) };

    fn fmt<W: fmt::Write>(&self, f: &mut fmt::Formatter<W>) -> fmt::Result {
        match self.0 {
            Some(Position { line, column }) => write!(f, "{line}:{column}: "),
            None => Ok(()),
        }
    }
}

/// Something that is found in a file of settings.
#[derive(Debug, Drop)]
pub struct Finding {
    /// Where it begins: the position of the key, if it stands in the file.
    pub position: Option<Position>,
    /// How much it weighs.
    pub severity: Severity,
    /// The key as TOML writes it, behind those of its tables.
    pub key: Option<String>,
    /// What is wrong, and what was probably meant.
    pub message: String,
}

/// The finding without the end of its line, as `3:1: error: global.prefix: is a boolean, ..`.
impl fmt::Display for Finding {
    ghost output = { λ finding. Some (note_text (finding_view finding)) };

    fn fmt<W: fmt::Write>(&self, f: &mut fmt::Formatter<W>) -> fmt::Result {
        let at = At(self.position);
        let severity = self.severity.word();
        let message = self.message.as_str();
        match &self.key {
            Some(key) => write!(f, "{at}{severity}: {}: {message}", key.as_str()),
            None => write!(f, "{at}{severity}: {message}"),
        }
    }
}

/// What is found in a file of settings.
#[derive(Debug, Drop)]
pub struct Findings {
    /// The settings, where the file has no errors: those that it does not have are the defaults.
    pub config: Option<Config>,
    /// All that is found, in the order of the file. What has no position comes last.
    pub list: Vec<Finding>,
}

/// Where a finding stands among others: by its line and its column, and without them behind all.
pub(crate) fn sort_key(finding: &Finding) -> (usize, usize)
    ensures { result ≡ sort_key_of finding.now.position }
{
    match finding.position {
        Some(Position { line, column }) => (line, column),
        None => (usize::MAX, usize::MAX),
    }
}

/// A text, with its control characters escaped.
pub fn in_line(alloc: Global, text: String) -> Result<String, AllocError>
    ensures { IfOk result (λ line. string_bytes line ≡ in_line (string_bytes text)) }
{
    printable(alloc, text.as_str())
}

/// What there is to say something of: a value that is not allowed, or a key that no setting has.
pub trait Subject {
    ghost use Rattle.config_report.specs.Notes.{Topic};

    /// What it is, as the definitions see it.
    ghost topic: { Self → Topic };

    /// The path of its key.
    fn path(&self) -> KeyPath<'_>
        ensures { path_view result ≡ topic_path (topic self.now) };

    /// What is said of it.
    fn finding(&self, alloc: Global, position: Option<Position>) -> Result<Finding, AllocError>
        ensures { IfOk result (λ found.
            finding_view found ≡ topic_note position (topic self.now)) };
}

impl Subject for SettingFault {
    ghost topic = { fault_topic };

    fn path(&self) -> KeyPath<'_> {
        key_path(self.section, self.key)
    }

    fn finding(&self, alloc: Global, position: Option<Position>) -> Result<Finding, AllocError> {
        let prefix = self.section.prefix();
        let key = format!(in alloc; "{prefix}{}", self.key)?;
        let message = format!(in alloc; "{}", self.fault)?;
        finding_of(alloc, position, Severity::Error, key, message)
    }
}

impl Subject for UnknownKey {
    ghost topic = { unknown_topic };

    fn path(&self) -> KeyPath<'_> {
        key_path(self.section, self.key.as_str())
    }

    fn finding(&self, alloc: Global, position: Option<Position>) -> Result<Finding, AllocError> {
        let prefix = self.section.prefix();
        let key = format!(in alloc; "{prefix}{}", TomlKey(self.key.as_str()))?;
        let message = format!(in alloc; "{}", Meant(self.meant))?;
        finding_of(alloc, position, Severity::Warning, key, message)
    }
}

/// What is said of a key at a position, in one line each.
pub(crate) fn finding_of(
    alloc: Global,
    position: Option<Position>,
    severity: Severity,
    key: String,
    message: String,
) -> Result<Finding, AllocError>
    ensures { IfOk result (λ finding. finding_view finding
        ≡ note position severity (Some (string_bytes key)) (string_bytes message)) }
{
    Ok(Finding {
        position,
        severity,
        key: Some(in_line(alloc, key)?),
        message: in_line(alloc, message)?,
    })
}

/// The size of the largest file, in bytes, in which positions are searched for.
const LARGEST_SEARCHED: usize = 131_072;

/// The keys that lead to a table.
fn table_path(section: Section) -> &'static [&'static str]
    ensures { map (λ k. k.now) result.now ≡ table_path section }
{
    match section {
        Section::Root => &[],
        Section::Global => &["global"],
        Section::Service => &["global", "service"],
        Section::Node => &["global", "node"],
        Section::Defaults => &["defaults"],
        Section::PublishSubscribe => &["defaults", "publish-subscribe"],
        Section::Event => &["defaults", "event"],
        Section::RequestResponse => &["defaults", "request-response"],
        Section::Blackboard => &["defaults", "blackboard"],
    }
}

/// The path of a key of a table.
pub fn key_path(section: Section, key: &str) -> KeyPath<'_>
    ensures { path_view result ≡ table_path section ++ key.now ∷ [] }
{
    KeyPath {
        table: table_path(section),
        key,
    }
}

/// The position of a path, or none where the file is too large.
pub(crate) fn position_for(
    alloc: Global,
    positions: &mut Positions<'_>,
    path: KeyPath<'_>,
) -> Result<Option<Position>, AllocError>
    ensures text { positions.new ≡ positions.old }
    ensures position { IfOk result (λ found.
        found ≡ position_for positions.old (path_view path.entry)) }
{
    if positions.text().len() <= LARGEST_SEARCHED {
        positions.at(alloc, &path)
    } else {
        Ok(None)
    }
}

/// The position of the key of a subject in a text. A text past 128 KiB is not searched.
pub fn key_position<T: Subject>(
    alloc: Global,
    positions: &mut Positions<'_>,
    subject: &T,
) -> Result<Option<Position>, AllocError>
    ensures text { positions.new ≡ positions.old }
    ensures position { IfOk result (λ found.
        found ≡ topic_position positions.old (T.topic subject.now)) }
{
    position_for(alloc, positions, subject.path())
}

/// A key, as TOML writes it.
#[derive(Clone, Copy)]
pub(crate) struct TomlKey<'a>(pub(crate) &'a str);

impl fmt::Display for TomlKey<'_> {
    ghost output = { λ key. Some (key_text key.0.now) };

    fn fmt<W: fmt::Write>(&self, f: &mut fmt::Formatter<W>) -> fmt::Result {
        write_key(f, self.0)
    }
}

/// That a table has no such key, and what was probably meant.
#[derive(Clone, Copy)]
pub(crate) struct Meant(pub(crate) Option<Proposal>);

impl fmt::Display for Meant {
    ghost output = { λ meant. Some (meant_text (option_map proposal_view meant.0)) };

    fn fmt<W: fmt::Write>(&self, f: &mut fmt::Formatter<W>) -> fmt::Result {
        let Some(proposal) = self.0 else {
            return f.write_str("this table has no such key");
        };
        let prefix = proposal.section.prefix();
        let key = proposal.key;
        match proposal.likeness {
            Likeness::Quoted => write!(
                f,
                "this table has no such key, {prefix}{key} without the quotes may be meant"
            ),
            _ => write!(f, "this table has no such key, {prefix}{key} may be meant"),
        }
    }
}
