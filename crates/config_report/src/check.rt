//! What is found in a file of settings, or why bytes are none, and what is reported of it.
ghost use Rattle.std.specs.Prelude.{◌≡◌, ◌++◌, ◌≤◌, ℕ, List, IfErr, IfOk, OnOk, Some, None};
ghost use Rattle.std.specs.Prelude.{length, map, string_bytes};
ghost use Rattle.iox2_config_file.specs.Answers.{ReadsAll};
ghost use Rattle.config_report.specs.Contradictions.{contradiction_note, contradiction_view};
ghost use Rattle.config_report.specs.Contradictions.{contradictions_in};
ghost use Rattle.config_report.specs.Findings.{Checks, Lists, topics_of};
ghost use Rattle.config_report.specs.Notes.{finding_view, note, note_in};
ghost use Rattle.config_report.specs.Findings.{IsNoFile, IsNoToml, IsText, IsUnread, lines_of, ReadsFile};
ghost use Rattle.config_report.specs.Findings.{HasDefaults};
ghost use Rattle.config_report.specs.Text.{IsReportText};
ghost use Rattle.config_report.specs.declared.check.Unread.TheVariants.{NoMemory};
ghost use Rattle.config_report.specs.declared.finding.Severity.TheVariants as severity;
ghost use Rattle.toml.specs.Parse.{parse_document};
ghost use Rattle.toml_positions.specs.Position.{position_after};

use crate::contradiction::{Contradiction, contradiction_finding};
use crate::contradictions::contradictions_in;
use crate::finding::{Finding, Findings, Severity, Subject, in_line, key_position, sort_key};
use crate::syntax::syntax_words;
use crate::text::write_text;
use iox2_config::config::Config;
use iox2_config_file::{ConfigFileError, FileContents, read_config, too_deep, write_config};
use std::alloc::{AllocError, Global};
use std::str;
use toml_positions::{Positions, position_after};

/// All that is found in a file of settings, in the order of the file: that it is no UTF-8, that its
/// tables and arrays are more than 32 deep in one another, or that it is no TOML; or else each
/// value that is not allowed, each key that no setting has, and, where it has no errors, each
/// contradiction of its settings. The settings are there exactly where it has no errors. Only
/// refused memory is an error.
pub fn check_file(alloc: Global, bytes: &[u8]) -> Result<Findings, AllocError>
    ensures { IfOk result (Checks bytes.now) }
{
    match parse_file(alloc, bytes) {
        Ok((text, contents)) => {
            let list = list_of(alloc, text, &contents)?;
            Ok(Findings {
                config: contents.config,
                list,
            })
        }
        Err(unread) => {
            let mut list = Vec::new(alloc);
            list.push(unread.finding()?)?;
            Ok(Findings { config: None, list })
        }
    }
}

/// What is said of all that a text says, in the order of the file.
fn list_of(alloc: Global, text: &str, contents: &FileContents) -> Result<Vec<Finding>, AllocError>
    ensures { IfOk result (λ list. Lists (map (note_in text.now) (topics_of contents.now)
        ++ map (contradiction_note text.now) (contradictions_in contents.now.config))
        list.items) }
{
    let mut positions = Positions::of(text);
    let mut list = Vec::new(alloc);
    add_findings(&mut list, alloc, &mut positions, contents.faults.as_slice())?;
    add_findings(
        &mut list,
        alloc,
        &mut positions,
        contents.unknown.as_slice(),
    )?;
    let contradictions = contradictions_in(alloc, contents.config.as_ref())?;
    add_contradictions(&mut list, alloc, &mut positions, contradictions.as_slice())?;
    list.sort_by_key(|finding| sort_key(finding))?;
    Ok(list)
}

/// Adds what is said of each of some subjects.
fn add_findings<T: Subject>(
    list: &mut Vec<Finding>,
    alloc: Global,
    positions: &mut Positions<'_>,
    subjects: &[T],
) -> Result<(), AllocError>
    ensures text { positions.new ≡ positions.old }
    ensures added { OnOk result (map finding_view list.new.items ≡ map finding_view list.old.items
        ++ map (note_in positions.old) (map T.topic subjects.now)) }
{
    for subject in subjects {
        let position = key_position(alloc, positions, subject)?;
        list.push(subject.finding(alloc, position)?)?;
    }
    Ok(())
}

/// Adds what is said of each of some contradictions.
fn add_contradictions(
    list: &mut Vec<Finding>,
    alloc: Global,
    positions: &mut Positions<'_>,
    contradictions: &[Contradiction<'_>],
) -> Result<(), AllocError>
    ensures { OnOk result (map finding_view list.new.items ≡ map finding_view list.old.items
        ++ map (contradiction_note positions.old) (map contradiction_view contradictions.now)) }
{
    for contradiction in contradictions {
        list.push(contradiction_finding(alloc, positions, contradiction)?)?;
    }
    Ok(())
}

/// Why bytes are no file of settings, with the one thing that is found in them: an error, and where
/// it is.
#[derive(Debug, Drop)]
pub enum Unread {
    /// They are no UTF-8.
    NotUtf8(Finding),
    /// Tables and arrays are more than 32 deep in one another.
    TooDeep(Finding),
    /// They are no TOML.
    NotToml(Finding),
    /// Memory was refused.
    NoMemory(AllocError),
}

impl From<AllocError> for Unread {
    ghost from_gives = { λ error unread. unread ≡ NoMemory error };

    fn from(error: AllocError) -> Unread {
        Unread::NoMemory(error)
    }
}

impl Unread {
    /// What is found in the bytes, unless memory was refused.
    pub(crate) fn finding(self) -> Result<Finding, AllocError>
        ensures { (bytes : List ℕ) → IsUnread bytes self
            → IfOk result (λ finding. IsNoFile bytes (finding_view finding)) }
    {
        match self {
            Unread::NotUtf8(finding) => Ok(finding),
            Unread::TooDeep(finding) => Ok(finding),
            Unread::NotToml(finding) => Ok(finding),
            Unread::NoMemory(error) => Err(error),
        }
    }
}

/// The text that bytes are and all that it says, or why they are no file of settings. How deep its
/// tables and arrays are in one another is looked at before anything is built of it.
pub fn parse_file(alloc: Global, bytes: &[u8]) -> Result<(&str, FileContents), Unread>
    ensures ok { IfOk result (λ file.
        (file.0.now ≡ bytes.now) × IsText bytes.now × ReadsAll bytes.now file.1) }
    ensures err { IfErr result (IsUnread bytes.now) }
{
    let text = match str::from_utf8(bytes) {
        Ok(text) => text,
        Err(error) => {
            let valid = &bytes[..error.valid_up_to()];
            let found = error_behind(alloc, valid, "the file is no UTF-8")?;
            return Err(Unread::NotUtf8(found));
        }
    };
    if let Some(before) = too_deep(text.as_bytes()) {
        let passed = &text.as_bytes()[..before];
        let words = "tables and arrays are more than 32 deep in one another";
        let found = error_behind(alloc, passed, words)?;
        return Err(Unread::TooDeep(found));
    }
    match read_config(alloc, text) {
        Ok(contents) => Ok((text, contents)),
        Err(ConfigFileError::Syntax(error)) => {
            let found = no_toml(alloc, text, &error)?;
            Err(Unread::NotToml(found))
        }
        Err(ConfigFileError::NoMemory(error)) => Err(Unread::NoMemory(error)),
    }
}

/// An error behind some first bytes, of no key.
fn error_behind(alloc: Global, before: &[u8], message: &str) -> Result<Finding, AllocError>
    ensures { IfOk result (λ finding. finding_view finding
        ≡ note (Some (position_after before.now)) severity.Error None message.now) }
{
    Ok(Finding {
        position: Some(position_after(before)),
        severity: Severity::Error,
        key: None,
        message: in_line(alloc, String::from_str(alloc, message)?)?,
    })
}

/// That a text is no TOML, and why.
fn no_toml(alloc: Global, text: &str, error: &toml::de::Error) -> Result<Finding, AllocError>
    requires { IsText text.now }
    ensures { parse_document text.now ≡ None
        → IfOk result (λ found. IsNoToml text.now (finding_view found)) }
{
    let bytes = text.as_bytes();
    let start = start_of(error, bytes);
    let words = syntax_words(alloc, error, text, text.get(start..).unwrap_or(""))?;
    error_behind(alloc, &bytes[..start], words.as_str())
}

/// How many bytes stand before the one at which a text is found to be no TOML.
fn start_of(error: &toml::de::Error, bytes: &[u8]) -> usize
    ensures { result ≤ length bytes.now }
{
    match error.span() {
        Some(span) => span.start.min(bytes.len()),
        None => 0,
    }
}

/// The settings of a file without faults.
#[derive(Debug, Drop)]
pub struct FileConfig {
    /// All settings, those that the file does not have being the defaults.
    pub config: Config,
    /// A line for each key that no setting has, and for each contradiction of the settings.
    pub warnings: String,
}

/// Why a file gives no settings.
#[derive(Debug, Drop)]
pub enum ReportError {
    /// It is no UTF-8, too deep or no TOML, or has values that are not allowed: what is wrong, in
    /// lines.
    Refused(String),
    /// Memory was refused.
    NoMemory,
}

/// The settings of a file, or what is wrong with it: a line for each finding, in the order of the
/// file.
pub fn read_file(alloc: Global, bytes: &[u8]) -> Result<FileConfig, ReportError>
    ensures { ReadsFile bytes.now result }
{
    let Ok(found) = check_file(alloc, bytes) else {
        return Err(ReportError::NoMemory);
    };
    let Findings { config, list } = found;
    let Ok(lines) = lines_of(alloc, list.as_slice()) else {
        return Err(ReportError::NoMemory);
    };
    match config {
        Some(config) => Ok(FileConfig {
            config,
            warnings: lines,
        }),
        None => Err(ReportError::Refused(lines)),
    }
}

/// A line for each of some findings.
#[tactic(auto, using(crate::proofs::Lines::one_more))]
fn lines_of(alloc: Global, list: &[Finding]) -> Result<String, AllocError>
    ensures { IfOk result (λ lines. string_bytes lines ≡ lines_of list.now) }
{
    let mut lines = String::new(alloc);
    for finding in list {
        write!(lines, "{finding}\n")?;
    }
    Ok(lines)
}

/// All settings, each marked where it differs from its default, and the directories, the files and
/// the chunks that follow.
pub fn settings_text(alloc: Global, config: &Config) -> Result<String, AllocError>
    ensures { IfOk result (λ text. IsReportText config.now (string_bytes text)) }
{
    let mut text = String::new(alloc);
    write_text(alloc, &mut text, config, &Config::default())?;
    Ok(text)
}

/// The file of the default settings, each below a comment.
pub fn default_file(alloc: Global) -> Result<String, AllocError>
    ensures { IfOk result (λ text. HasDefaults (string_bytes text)) }
{
    match write_config(alloc, &Config::default()) {
        Ok(text) => Ok(text),
        Err(_) => Err(AllocError),
    }
}
