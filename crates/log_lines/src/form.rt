//! The forms of lines, for a text that is the text of none.
ghost use Rattle.std.specs.Prelude.{◌≡◌, IfNone, IfSome, IsTrue};
ghost use Rattle.log_lines.specs.Forms.{HasForm, HasFormAlone, HasFormBy, IsFormBegun, IsFormOf};
ghost use Rattle.log_lines.specs.Forms.{IsWord, first_word, numbered_form};
ghost use Rattle.log_lines.specs.Lines.{are_letters};
ghost use Rattle.log_lines.specs.declared.form.LogForm.{LogForm as Form};

use super::line::{is_caller, mark_of, number_front, split_name};
use line_streams::{after_word, before_byte};

/// The form of lines that begin as a text does.
#[derive(Clone, Copy, Debug, PartialEq, Eq)]
pub enum LogForm {
    /// The line of a service.
    Service,
    /// What is given of a service that was in use.
    State,
    /// The command `register`.
    Register,
    /// The command `deregister`.
    Deregister,
    /// The command `nodes`.
    Nodes,
    /// The command `add`.
    Add,
    /// The command `release`.
    Release,
    /// The command `list`.
    List,
    /// The command `count`.
    Count,
    /// The command `dead`.
    Dead,
    /// A weak listing of the nodes, `nodes?`.
    WeakNodes,
    /// A weak listing of ports, `list?`.
    WeakList,
    /// The begin of a call: `>` follows letters and digits that are no name, or what follows `>` is
    /// not a space and the first word of what a caller may begin.
    Begin,
    /// The end of a call: `<` follows the letters and digits.
    End,
    /// That a caller died: `!` follows the letters and digits.
    Crash,
    /// A line on the service with a number: `:` follows letters and digits that are none, or those
    /// behind a number, or the line of a service stands behind a number.
    Numbered,
    /// None: no line begins with this word.
    Unknown,
}

/// What stands before the first space of the text.
fn first_word(text: &[u8]) -> &[u8]
    ensures { result.now ≡ first_word text.now }
{
    match before_byte(text, b' ') {
        Some((word, _)) => word,
        None => text,
    }
}

/// The form of lines that begin with this word, if there are any.
fn form_with(word: &[u8]) -> Option<LogForm>
    ensures some { IfSome result (λ f. IsWord f word.now) }
    ensures none { IfNone result ((f : Form) → ¬ (IsWord f word.now)) }
{
    if word == b"service".as_slice() {
        return Some(LogForm::Service);
    }
    if word == b"state".as_slice() {
        return Some(LogForm::State);
    }
    if word == b"register".as_slice() {
        return Some(LogForm::Register);
    }
    if word == b"deregister".as_slice() {
        return Some(LogForm::Deregister);
    }
    if word == b"nodes".as_slice() {
        return Some(LogForm::Nodes);
    }
    if word == b"add".as_slice() {
        return Some(LogForm::Add);
    }
    if word == b"release".as_slice() {
        return Some(LogForm::Release);
    }
    if word == b"list".as_slice() {
        return Some(LogForm::List);
    }
    if word == b"count".as_slice() {
        return Some(LogForm::Count);
    }
    if word == b"dead".as_slice() {
        return Some(LogForm::Dead);
    }
    if word == b"nodes?".as_slice() {
        return Some(LogForm::WeakNodes);
    }
    if word == b"list?".as_slice() {
        return Some(LogForm::WeakList);
    }
    None
}

/// The form of lines that begin with the first word of the text.
fn form_of_words(text: &[u8]) -> LogForm
    ensures { IsFormOf (first_word text.now) result }
{
    match form_with(first_word(text)) {
        Some(form) => form,
        None => LogForm::Unknown,
    }
}

/// The form of the begin of a call whose text begins so: no caller begins the line of a service, a
/// state, or what no line begins with.
fn form_begun(text: &[u8]) -> LogForm
    ensures { IsFormBegun (first_word text.now) result }
{
    match form_of_words(text) {
        LogForm::Service | LogForm::State | LogForm::Unknown => LogForm::Begin,
        form => form,
    }
}

/// The form of the text of a line behind the number of its service. The text begins with the name,
/// and with what follows that.
fn form_by(text: &[u8], name: &[u8], rest: &[u8]) -> LogForm
    requires { IsTrue (are_letters name.now) }
    ensures { HasFormBy text.now name.now rest.now result }
{
    let mark = mark_of(rest);
    if mark == b'<' {
        return LogForm::End;
    }
    if mark == b'!' {
        return LogForm::Crash;
    }
    if mark == b':' {
        return LogForm::Numbered;
    }
    if mark != b'>' {
        return form_of_words(text);
    }
    if !is_caller(name) {
        return LogForm::Begin;
    }
    match after_word(rest, b"> ") {
        Some(begun) => form_begun(begun),
        None => LogForm::Begin,
    }
}

/// The form of a text that stands alone, with no number of a service before it.
fn form_alone(text: &[u8]) -> LogForm
    ensures { HasFormAlone text.now result }
{
    let (name, rest) = split_name(text);
    form_by(text, name, rest)
}

/// The form of a text behind the number of a service, where it has this form alone: the line of a
/// service has no number before it.
fn numbered_form(form: LogForm) -> LogForm
    ensures { result ≡ numbered_form form }
{
    match form {
        LogForm::Service => LogForm::Numbered,
        _ => form,
    }
}

/// The form of lines that begin as this text does. The first word of the text decides, behind the
/// number of a service and the name of a caller where it has them. Before that, a mark `<`, `!` or
/// `:` behind the letters and digits at the front does, and `>` where no call can begin there.
///
/// This is for a text that is the text of no line: `read_log_line` does not say why.
#[inline(never)]
pub fn form_of(line: &[u8]) -> LogForm
    ensures { HasForm line.now result }
{
    match number_front(line) {
        Some((_, text)) => numbered_form(form_alone(text)),
        None => form_alone(line),
    }
}
