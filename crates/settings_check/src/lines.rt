//! How findings are written, so that a terminal takes no text of theirs as a command.
ghost use Rattle.std.specs.Prelude.{◌≡◌, ◌++◌, IfOk, OnOk, Some, flat_map, string_bytes, option_map};
ghost use Rattle.serde_json.specs.View.{view};
ghost use Rattle.settings_check.specs.Found.{report_of, reports_of, unread_of};
ghost use Rattle.settings_check.specs.Lines.{style_of, colour_of, text_of, line_in, lines_in};
ghost use Rattle.settings_check.specs.Lines.{note_data, number_data, key_data, is_error, errors_in};
ghost use Rattle.settings_check.specs.Lines.{warnings_in, plural, end_text, unread_line};
ghost use Rattle.settings_check.specs.Lines.{note_if, omitted_text};

use crate::arguments::Format;
use crate::found::{Report, Unread, why_text};
use config_report::{Finding, Position, Severity, write_printable, write_printable_line};
use serde_json::{Value, json};
use std::alloc::{AllocError, Global};
use std::fmt;

/// How lines are written.
#[derive(Clone, Copy)]
pub(crate) enum Style {
    /// As text.
    Plain,
    /// As text on a terminal that has colours.
    Coloured,
    /// As JSON.
    Json,
}

/// How lines of a format are written, where text may be coloured or not.
pub(crate) fn style_of(format: Format, coloured: bool) -> Style
    ensures { result ≡ style_of format coloured }
{
    match format {
        Format::Json => Style::Json,
        Format::Text if coloured => Style::Coloured,
        Format::Text => Style::Plain,
    }
}

/// What switches the colour of a finding on.
fn colour_of(severity: Severity) -> &'static str
    ensures { result.now ≡ colour_of severity }
{
    match severity {
        Severity::Error => "\x1b[31m",
        Severity::Warning => "\x1b[33m",
    }
}

/// Appends what was found in a file as a line for a person, without its end.
fn write_text(
    alloc: Global,
    out: &mut String,
    file: &str,
    finding: &Finding,
) -> Result<(), AllocError>
    ensures { OnOk result (string_bytes out.new
        ≡ string_bytes out.old ++ text_of (report_of file.now finding.now)) }
{
    let line = match finding.position {
        Some(_) => format!(in alloc; "{file}:{finding}")?,
        None => format!(in alloc; "{file}: {finding}")?,
    };
    write_printable(out, line.as_str())
}

/// The line of a position, if there is one.
fn line_value(at: Option<Position>) -> Value
    ensures { view result ≡ number_data (option_map (λ p. p.line) at) }
{
    match at {
        Some(at) => Value::from(at.line),
        None => Value::Null,
    }
}

/// The column of a position, if there is one.
fn column_value(at: Option<Position>) -> Value
    ensures { view result ≡ number_data (option_map (λ p. p.column) at) }
{
    match at {
        Some(at) => Value::from(at.column),
        None => Value::Null,
    }
}

/// A key, if there is one.
fn key_value(alloc: Global, key: &Option<String>) -> Result<Value, AllocError>
    ensures { IfOk result (λ value.
        view value ≡ key_data (option_map (λ k. string_bytes k) key.now)) }
{
    match key {
        Some(key) => {
            let key = key.as_str();
            json!(in alloc; key)
        }
        None => Ok(Value::Null),
    }
}

/// What was found in a file, as an object of JSON.
fn object_of(alloc: Global, file: &str, finding: &Finding) -> Result<Value, AllocError>
    ensures { IfOk result (λ value. view value ≡ note_data (report_of file.now finding.now)) }
{
    let line = line_value(finding.position);
    let column = column_value(finding.position);
    let severity = finding.severity.word();
    let message = finding.message.as_str();
    let key = key_value(alloc, &finding.key)?;
    json!(in alloc; {
        "file": file,
        "line": line,
        "column": column,
        "severity": severity,
        "key": key,
        "message": message
    })
}

/// Appends what was found in a file as a line.
fn write_line(
    alloc: Global,
    out: &mut String,
    style: Style,
    report: &Report<'_>,
) -> Result<(), AllocError>
    ensures { OnOk result (string_bytes out.new ≡ string_bytes out.old
        ++ line_in style (report_of report.now.file.now report.now.finding)) }
{
    let Report { file, finding } = report;
    match style {
        Style::Plain => {
            write_text(alloc, out, file, finding)?;
            out.push_str("\n")
        }
        Style::Coloured => {
            out.push_str(colour_of(finding.severity))?;
            write_text(alloc, out, file, finding)?;
            out.push_str("\x1b[0m\n")
        }
        Style::Json => {
            let object = object_of(alloc, file, finding)?.to_string(alloc)?;
            out.push_str(object.as_str())?;
            out.push_str("\n")
        }
    }
}

/// Appends a line for each of some findings.
pub(crate) fn write_lines(
    alloc: Global,
    out: &mut String,
    style: Style,
    reports: &[Report<'_>],
) -> Result<(), AllocError>
    ensures { OnOk result (string_bytes out.new
        ≡ string_bytes out.old ++ lines_in style (reports_of reports.now)) }
{
    for report in reports {
        write_line(alloc, out, style, report)?;
    }
    Ok(())
}

/// Whether a finding is an error.
fn is_error(report: &Report<'_>) -> bool
    ensures { result ≡ is_error (report_of report.now.file.now report.now.finding) }
{
    report.finding.severity == Severity::Error
}

/// How many of some findings are errors.
pub(crate) fn errors_in(reports: &[Report<'_>]) -> usize
    ensures { result ≡ errors_in (reports_of reports.now) }
{
    reports.iter().filter(|report| is_error(report)).count()
}

/// How many of some findings are warnings.
pub(crate) fn warnings_in(reports: &[Report<'_>]) -> usize
    ensures { result ≡ warnings_in (reports_of reports.now) }
{
    reports.iter().filter(|report| !is_error(report)).count()
}

/// What stands behind a noun of a number.
fn plural(count: usize) -> &'static str
    ensures { result.now ≡ plural count }
{
    if count == 1 { "" } else { "s" }
}

/// What a report leaves out.
#[derive(Clone, Copy)]
pub(crate) struct Omitted {
    /// The contradictions of a file that has errors.
    pub(crate) contradictions: bool,
    /// The differences between files that are to be compared, and are not two without errors.
    pub(crate) differences: bool,
    /// A file that cannot be read.
    pub(crate) files: bool,
}

/// The same in words, behind the counts.
impl fmt::Display for Omitted {
    ghost output = { λ omitted. Some (omitted_text omitted) };

    fn fmt<W: fmt::Write>(&self, f: &mut fmt::Formatter<W>) -> fmt::Result {
        let contradictions = note_if(
            self.contradictions,
            "; contradictions are looked for in files without errors",
        );
        let differences = note_if(self.differences, "; the files are not compared");
        let files = note_if(self.files, "; a file cannot be read");
        write!(f, "{contradictions}{differences}{files}")
    }
}

/// A note, or nothing.
fn note_if(is_said: bool, note: &'static str) -> &'static str
    ensures { result.now ≡ note_if is_said note.now }
{
    if is_said { note } else { "" }
}

/// Appends how many errors and warnings there are, for a person, and what is left out.
pub(crate) fn write_end(
    out: &mut String,
    style: Style,
    omitted: Omitted,
    reports: &[Report<'_>],
) -> Result<(), AllocError>
    ensures { OnOk result (string_bytes out.new
        ≡ string_bytes out.old ++ end_text style omitted (reports_of reports.now)) }
{
    match style {
        Style::Json => Ok(()),
        Style::Plain | Style::Coloured => {
            let errors = errors_in(reports);
            let warnings = warnings_in(reports);
            let more_errors = plural(errors);
            let more_warnings = plural(warnings);
            write!(
                out,
                "{errors} error{more_errors}, {warnings} warning{more_warnings}{omitted}\n"
            )
        }
    }
}

/// Appends that a file cannot be read, and why.
fn write_unread_line(alloc: Global, out: &mut String, unread: Unread<'_>) -> Result<(), AllocError>
    ensures { OnOk result (string_bytes out.new
        ≡ string_bytes out.old ++ unread_line (unread.entry.file.now, unread.entry.why)) }
{
    let file = unread.file;
    let why = why_text(unread.why);
    let line = format!(in alloc; "{file}: {why}")?;
    write_printable_line(out, line.as_str())
}

/// Appends a line for each file that cannot be read.
pub(crate) fn write_unread(
    alloc: Global,
    out: &mut String,
    unread: &[Unread<'_>],
) -> Result<(), AllocError>
    ensures { OnOk result (string_bytes out.new
        ≡ string_bytes out.old ++ flat_map unread_line (unread_of unread.now)) }
{
    for file in unread {
        write_unread_line(alloc, out, *file)?;
    }
    Ok(())
}
