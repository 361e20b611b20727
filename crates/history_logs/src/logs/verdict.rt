//! What logs are judged to be.
use iox2_dynamic::dynamic_config::PortDetails;
use iox2_ids::identifiers::UniqueNodeId;
use log_lines::LogForm;
use service_conformance::conformance::PossibleReplies;

/// What a line of a log should have been.
#[derive(Clone, Copy, Debug, PartialEq, Eq)]
pub enum Expected {
    /// The line of a service: none is above.
    Service,
    /// A line on a service above: no service has the number before it, or none stands there and
    /// several are above.
    Call,
    /// Another number: a service above has that of the line.
    NewNumber,
    /// A call alone above the line of its reply.
    CallAlone,
    /// A line of this form: the text is that of no line, and begins as lines of the form do.
    Form(LogForm),
    /// The words of a reply: behind `= ` below a call alone, or of a call that ends.
    Reply,
    /// A caller without an open call.
    IdleCaller,
    /// A caller with an open call.
    OpenCall,
    /// A caller that has not died.
    LiveCaller,
    /// A caller that has begun a call.
    KnownCaller,
    /// A state that the service can have before its first call, or with which it can begin anew
    /// where no call on it is open.
    State,
    /// A newline at the end of the line.
    Newline,
    /// No carriage return before the newline.
    NoCarriageReturn,
}

/// What the calls before a refused reply can have led to.
#[derive(Debug, Drop)]
pub struct Configuration {
    /// The lines in which the open calls begin that were made.
    pub made: Vec<usize>,
    /// The replies that the refused call could have had then.
    pub possible: PossibleReplies,
    /// The nodes that are registered, by rising slot.
    pub nodes: Vec<UniqueNodeId>,
    /// The ports that are attached: those of the pattern's first kind by rising slot, and then the
    /// others.
    pub ports: Vec<PortDetails>,
}

/// A reply that no order of the calls explains.
#[derive(Debug, Drop)]
pub struct Refusal {
    /// The line down to which the log is not explained, by the replies that stand in these lines.
    /// Down to the line above it, it is, but for services that pass a bound there.
    pub line: usize,
    /// The line of the reply that is reported, which no order explains with the replies down to
    /// `line`. It is that line, or one above it.
    pub reply: usize,
    /// Its words.
    pub words: Vec<u8>,
    /// The line of the command of its call, which is the line in which the call begins, but of a
    /// call alone.
    pub call: usize,
    /// The text of that line.
    pub command: Vec<u8>,
    /// The line from which the window is open: that of the first event of the service since no call
    /// of it was open.
    pub window: usize,
    /// The lines, by rising number, in which the calls of the window begin that are needed: no
    /// order explains these alone, and the others change nothing. Not all that could be left out
    /// are, where the window is large.
    pub needed: Vec<usize>,
    /// What the calls before it can have led to. Two that differ only in slots, in tickets or in
    /// what open weak listings have seen are reported alike.
    pub configurations: Vec<Configuration>,
}

/// What a log is judged to be. Lines are numbered from 1.
#[derive(Debug, Drop)]
pub enum Verdict {
    /// Orders of the calls explain all replies: so many calls, on so many services.
    Conforms(usize, usize),
    /// No order explains what is seen down to a line, and orders explain what is seen down to the
    /// line above it, but for services that pass a bound there.
    Refused(Refusal),
    /// At this line more than `histories::MAX_CONFIGS` configurations were to be followed: not
    /// decided. No reply is refused of a service that passes no bound, nor of this one below it,
    /// where it began anew.
    ManyConfigs(usize),
    /// Behind this line one call more than `histories::MAX_OPEN` is open on a service: not decided.
    /// No reply is refused of a service that passes no bound, nor of this one below it, where it
    /// began anew.
    ManyOpen(usize),
    /// Orders explain what is above the line of this number, and it is not what it should be, or
    /// the log ends before it.
    BadLine(usize, Expected),
}

/// An order of the calls on a service that explains what was seen of it.
#[derive(Debug, Drop)]
pub struct Order {
    /// The number of the service.
    pub service: u64,
    /// The lines in which its calls begin: a call alone begins in the line of its reply. A call
    /// that was never answered may be left out.
    pub lines: Vec<usize>,
}
