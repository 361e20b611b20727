//! What holds of all lines.
ghost use Rattle.log_lines.specs.Laws.{LinesAreReadOneWay, LinesHaveForms, NotesAreNoLines};

/// No two lines have one text, but for the memory of the list in a command.
#[tactic(auto, using(crate::proofs::OneLine::same_line))]
pub fn lines_are_read_one_way()
    ensures { LinesAreReadOneWay }
{}

/// A note is no line that says something.
#[tactic(auto, using(crate::proofs::OneReading::notes_are_none))]
pub fn notes_are_no_lines()
    ensures { NotesAreNoLines }
{}

/// Each command and each weak listing begins with a word that a form has, and so do the lines of
/// services and of states: none is left out of the forms that are reported of a text.
#[tactic(auto, using(crate::proofs::Forms::have_forms))]
pub fn lines_have_forms()
    ensures { LinesHaveForms }
{}
