//! Files, by their names, what is found in them, and which settings of two of them differ.
ghost use Rattle.std.specs.Prelude.{◌≡◌, ℕ, List, Result, IfOk, ⊤, ◌++◌, OnOk, Ok, Err};
ghost use Rattle.std.specs.Prelude.{Some, flat_map, map};
ghost use Rattle.config_report.specs.Findings.{IsToml};
ghost use Rattle.config_report.specs.Text.{value_pair};
ghost use Rattle.iox2_config_file.specs.Write.{value_view};
ghost use Rattle.settings_check.specs.Found.{given_bytes, cause_of, why_text, report_of};
ghost use Rattle.settings_check.specs.Found.{reports_of};
ghost use Rattle.settings_check.specs.Found.{found_view, AddsGiven, AddsFile, AreFound};
ghost use Rattle.settings_check.specs.Found.{AreCompared, IsCompared, compared_view};
ghost use Rattle.settings_check.specs.Found.{pair_view, valid_in, valid_view};
ghost use Rattle.settings_check.specs.Found.{AreParsed, setting_in, setting_view};
ghost use Rattle.settings_check.specs.Found.{difference, difference_severity};
ghost use Rattle.settings_check.specs.Found.{is_shared, setting_differences, sharing_text};
ghost use Rattle.settings_check.specs.Found.{elsewhere_text, said_beside, table_differences};
ghost use Rattle.settings_check.specs.declared.found.FileError.{FileError};
ghost use Rattle.settings_check.specs.Words.{texts_of};

use config_report::{
    Finding, Position, Positions, Severity, ValuePair, check_file, in_line, is_same, key_path,
    pair_at,
};
use iox2_config::config::Config;
use iox2_config_file::{Section, SettingValue, rows};
use line_streams::read_all;
use std::alloc::{AllocError, Global};
use std::fs::File;
use std::io::ErrorKind;
use std::{fmt, fs, str};

/// Why a file cannot be read.
#[derive(Clone, Copy, Debug, PartialEq, Eq)]
pub enum FileError {
    /// There is no file of that name.
    NotFound,
    /// It may not be read.
    PermissionDenied,
    /// It is a directory.
    IsADirectory,
    /// Any other reason.
    Other,
}

/// What files are read from. The file system is one.
pub trait Files {
    /// What reading a file of a name gives: its bytes, or why it cannot be read.
    ghost Gives: { Self → List ℕ → Result (List ℕ) FileError → Type 0 };

    /// All bytes of a file. `Err` where memory for them is refused.
    fn read_file(&self, alloc: Global, name: &str) -> Result<Result<Vec<u8>, FileError>, AllocError>
        ensures { IfOk result (λ given. Gives self.now name.now (given_bytes given)) };
}

impl<R: fs::Files> Files for R {
    ghost Gives = { λ _ _ _. ⊤ };

    fn read_file(
        &self,
        alloc: Global,
        name: &str,
    ) -> Result<Result<Vec<u8>, FileError>, AllocError> {
        let mut file = match File::open(self, name) {
            Ok(file) => file,
            Err(why) => return Ok(Err(cause_of(why.kind()))),
        };
        match read_all(alloc, &mut file) {
            Ok(Ok(bytes)) => Ok(Ok(bytes)),
            Ok(Err(refused)) => Err(refused),
            Err(why) => Ok(Err(cause_of(why.kind()))),
        }
    }
}

/// Why a file cannot be read, by the kind of an error of the system.
fn cause_of(kind: ErrorKind) -> FileError
    ensures { result ≡ cause_of kind }
{
    match kind {
        ErrorKind::NotFound => FileError::NotFound,
        ErrorKind::PermissionDenied => FileError::PermissionDenied,
        ErrorKind::IsADirectory => FileError::IsADirectory,
        _ => FileError::Other,
    }
}

/// Why a file cannot be read, in words.
pub(crate) fn why_text(why: FileError) -> &'static str
    ensures { result.now ≡ why_text why }
{
    match why {
        FileError::NotFound => "there is no such file",
        FileError::PermissionDenied => "it may not be read",
        FileError::IsADirectory => "it is a directory",
        FileError::Other => "it cannot be read",
    }
}

/// Something that was found in a file.
#[derive(Drop)]
pub(crate) struct Report<'a> {
    /// The name of the file.
    pub(crate) file: &'a str,
    /// What was found.
    pub(crate) finding: Finding,
}

/// A file that cannot be read.
#[derive(Clone, Copy)]
pub(crate) struct Unread<'a> {
    /// Its name.
    pub(crate) file: &'a str,
    /// Why not.
    pub(crate) why: FileError,
}

/// A file without errors.
#[derive(Drop)]
pub(crate) struct ValidFile<'a> {
    /// Its name.
    file: &'a str,
    /// Its text.
    text: Vec<u8>,
    /// Its settings.
    pub(crate) config: Config,
}

/// What was found in some files.
#[derive(Drop)]
pub(crate) struct Found<'a> {
    /// What was found in them, in the order of the files.
    pub(crate) reports: Vec<Report<'a>>,
    /// Those that cannot be read.
    pub(crate) unread: Vec<Unread<'a>>,
    /// Those without errors.
    pub(crate) valid: Vec<ValidFile<'a>>,
}

/// Adds what was found in one file to what was found before.
#[tactic(auto, using(crate::proofs::Lists::items_end, std::proofs::lemmas::List::nil_from_length, crate::proofs::Lists::items_more, crate::proofs::Lists::reported))]
fn add_findings<'a>(
    reports: &mut Vec<Report<'a>>,
    file: &'a str,
    findings: Vec<Finding>,
) -> Result<(), AllocError>
    ensures { OnOk result (reports_of reports.new.items
        ≡ reports_of reports.old.items ++ map (report_of file.now) findings.items) }
{
    for finding in findings {
        reports.push(Report { file, finding })?;
    }
    Ok(())
}

/// Adds a file, if it has settings.
fn add_valid<'a>(
    valid: &mut Vec<ValidFile<'a>>,
    file: &'a str,
    text: Vec<u8>,
    config: Option<Config>,
) -> Result<(), AllocError>
    ensures { OnOk result (map valid_view valid.new.items
        ≡ map valid_view valid.old.items ++ valid_in file.now text.items config) }
{
    if let Some(config) = config {
        valid.push(ValidFile { file, text, config })?;
    }
    Ok(())
}

/// Adds what is found in the text of a file.
fn add_checked<'a>(
    alloc: Global,
    found: &mut Found<'a>,
    file: &'a str,
    text: Vec<u8>,
) -> Result<(), AllocError>
    ensures { OnOk result
        (AddsGiven file.now (Ok text.items) (found_view found.old) (found_view found.new)) }
{
    let findings = check_file(alloc, &text)?;
    add_findings(&mut found.reports, file, findings.list)?;
    add_valid(&mut found.valid, file, text, findings.config)?;
    Ok(())
}

/// Adds that a file cannot be read.
fn add_unread<'a>(found: &mut Found<'a>, file: &'a str, why: FileError) -> Result<(), AllocError>
    ensures { OnOk result
        (AddsGiven file.now (Err why) (found_view found.old) (found_view found.new)) }
{
    found.unread.push(Unread { file, why })?;
    Ok(())
}

/// Reads a file, or takes the standard input for `-`, and adds what is found in it.
fn add_file<'a, F: Files>(
    alloc: Global,
    files: &F,
    input: &[u8],
    found: &mut Found<'a>,
    file: &'a str,
) -> Result<(), AllocError>
    ensures { OnOk result (AddsFile (F.Gives files.now) input.now file.now
        (found_view found.old) (found_view found.new)) }
{
    if file == "-" {
        let text = Vec::from_slice(alloc, input)?;
        return add_checked(alloc, found, file, text);
    }
    match files.read_file(alloc, file)? {
        Ok(text) => add_checked(alloc, found, file, text),
        Err(why) => add_unread(found, file, why),
    }
}

/// What is found in some files. `-` among their names is the standard input.
#[tactic(auto, using(crate::proofs::Lists::found_end))]
pub(crate) fn find_in<'a, F: Files>(
    alloc: Global,
    files: &F,
    input: &[u8],
    names: &'a [String],
) -> Result<Found<'a>, AllocError>
    ensures { IfOk result (λ found. AreFound (F.Gives files.now) input.now
        (texts_of names.now) (found_view found)) }
{
    let mut found = Found {
        reports: Vec::new(alloc),
        unread: Vec::new(alloc),
        valid: Vec::new(alloc),
    };
    for name in names {
        add_file(alloc, files, input, &mut found, name.as_str())?;
    }
    Ok(found)
}

/// Whether all processes of one system share the settings of a table.
fn is_shared(section: Section) -> bool
    ensures { result ≡ is_shared section }
{
    matches!(section, Section::Global | Section::Service | Section::Node)
}

/// How much a difference weighs.
fn severity_of(section: Section) -> Severity
    ensures { result ≡ difference_severity section }
{
    if is_shared(section) {
        Severity::Error
    } else {
        Severity::Warning
    }
}

/// What is said of a setting that all processes of one system share.
fn sharing_text(section: Section) -> &'static str
    ensures { result.now ≡ sharing_text section }
{
    if is_shared(section) {
        ", and must be the same in all processes of one system"
    } else {
        ""
    }
}

/// A setting as a file has it.
#[derive(Clone, Copy)]
struct FileSetting<'a, 'b> {
    /// The name of the file.
    file: &'a str,
    /// Where the file writes the key, if it does.
    position: Option<Position>,
    /// The value.
    value: SettingValue<'b>,
}

/// Where a file writes a key, or that it has the default.
#[derive(Clone, Copy)]
struct Elsewhere<'a>(Option<Position>, &'a str);

impl fmt::Display for Elsewhere<'_> {
    ghost output = { λ other. Some (elsewhere_text other.0 other.1.now) };

    fn fmt<W: fmt::Write>(&self, f: &mut fmt::Formatter<W>) -> fmt::Result {
        let file = self.1;
        match self.0 {
            Some(Position { line, column }) => write!(f, " at {file}:{line}:{column}"),
            None => write!(f, " by default in {file}"),
        }
    }
}

/// A file that is compared.
#[derive(Drop)]
struct Compared<'a, 'b> {
    /// The file.
    file: &'b ValidFile<'a>,
    /// Where its keys stand.
    positions: Positions<'b>,
}

/// A file that is to be compared.
fn comparing<'a, 'b>(file: &'b ValidFile<'a>) -> Compared<'a, 'b>
    requires { IsToml (valid_view file.now).text }
    ensures file { result.file ≡ file.entry }
    ensures text { IsCompared result }
{
    let text = str::from_utf8(&file.text).unwrap_or("");
    Compared {
        file,
        positions: Positions::of(text),
    }
}

/// A setting of this value as a file has it.
fn setting_in<'a, 'b>(
    alloc: Global,
    compared: &mut Compared<'a, '_>,
    section: Section,
    key: &str,
    value: SettingValue<'b>,
) -> Result<FileSetting<'a, 'b>, AllocError>
    requires { IsCompared compared.old }
    ensures same { compared.new ≡ compared.old }
    ensures setting { IfOk result (λ setting. setting_view setting
        ≡ setting_in (compared_view compared.old) section key.now (value_view value.entry)) }
{
    Ok(FileSetting {
        file: compared.file.file,
        position: compared.positions.at(alloc, &key_path(section, key))?,
        value,
    })
}

/// What is said of a setting of one file that differs from that of the other, in one line.
fn report_beside<'a>(
    alloc: Global,
    section: Section,
    key: &str,
    one: FileSetting<'a, '_>,
    other: FileSetting<'a, '_>,
) -> Result<Report<'a>, AllocError>
    ensures { IfOk result (λ report. report_of report.file.now report.finding
        ≡ said_beside section key.now (setting_view one.entry) (setting_view other.entry)) }
{
    let prefix = section.prefix();
    let sharing = sharing_text(section);
    let here = one.value;
    let there = other.value;
    let elsewhere = Elsewhere(other.position, other.file);
    let key = format!(in alloc; "{prefix}{key}")?;
    let message = format!(in alloc; "is {here} here and {there}{elsewhere}{sharing}")?;
    Ok(Report {
        file: one.file,
        finding: Finding {
            position: one.position,
            severity: severity_of(section),
            key: Some(in_line(alloc, key)?),
            message: in_line(alloc, message)?,
        },
    })
}

/// What is said of a setting that differs: of the first file, unless the second alone writes it.
fn difference<'a>(
    alloc: Global,
    section: Section,
    key: &str,
    first: FileSetting<'a, '_>,
    second: FileSetting<'a, '_>,
) -> Result<Report<'a>, AllocError>
    ensures { IfOk result (λ report. report_of report.file.now report.finding
        ≡ difference section key.now (setting_view first.entry) (setting_view second.entry)) }
{
    match (first.position, second.position) {
        (None, Some(_)) => report_beside(alloc, section, key, second, first),
        _ => report_beside(alloc, section, key, first, second),
    }
}

/// Two files that are compared.
#[derive(Drop)]
struct Pair<'a, 'b> {
    /// The first one.
    first: Compared<'a, 'b>,
    /// The second one.
    second: Compared<'a, 'b>,
}

/// Adds a setting if it differs.
#[tactic(auto, using(crate::proofs::Lists::reported), unfolding(crate::specs::Found::setting_differences))]
fn add_setting<'a>(
    alloc: Global,
    reports: &mut Vec<Report<'a>>,
    files: &mut Pair<'a, '_>,
    section: Section,
    pair: ValuePair<'_>,
) -> Result<(), AllocError>
    requires { AreCompared files.old }
    ensures same { files.new ≡ files.old }
    ensures added { OnOk result (reports_of reports.new.items ≡ reports_of reports.old.items
        ++ setting_differences (pair_view files.old) section (value_pair pair.entry)) }
{
    let ValuePair { key, value, other } = pair;
    if is_same(value, other) {
        return Ok(());
    }
    let first = setting_in(alloc, &mut files.first, section, key, value)?;
    let second = setting_in(alloc, &mut files.second, section, key, other)?;
    let report = difference(alloc, section, key, first, second)?;
    reports.push(report)?;
    Ok(())
}

/// Adds the settings of a table that differ.
#[tactic(auto, using(config_report::proofs::Pairs::walk_next, config_report::proofs::Pairs::walk_past, config_report::proofs::Pairs::walk_end), unfolding(crate::specs::Found::table_differences))]
fn add_table<'a>(
    alloc: Global,
    reports: &mut Vec<Report<'a>>,
    files: &mut Pair<'a, '_>,
    section: Section,
) -> Result<(), AllocError>
    requires { AreCompared files.old }
    ensures same { files.new ≡ files.old }
    ensures added { OnOk result (reports_of reports.new.items
        ≡ reports_of reports.old.items ++ table_differences (pair_view files.old) section) }
{
    let rows = rows(section);
    let one = &files.first.file.config;
    let other = &files.second.file.config;
    for index in 0..rows.len() {
        let Some(pair) = pair_at(one, other, section, rows, index) else {
            return Ok(());
        };
        add_setting(alloc, reports, files, section, pair)?;
    }
    Ok(())
}

/// Adds all settings of some tables that differ.
pub(crate) fn add_differences<'a>(
    alloc: Global,
    reports: &mut Vec<Report<'a>>,
    first: &ValidFile<'a>,
    second: &ValidFile<'a>,
    sections: &[Section],
) -> Result<(), AllocError>
    requires { AreParsed (valid_view first.now, valid_view second.now) }
    ensures { OnOk result (reports_of reports.new.items ≡ reports_of reports.old.items ++ flat_map
        (table_differences (valid_view first.now, valid_view second.now)) sections.now) }
{
    let mut files = Pair {
        first: comparing(first),
        second: comparing(second),
    };
    for section in sections {
        add_table(alloc, reports, &mut files, *section)?;
    }
    Ok(())
}
