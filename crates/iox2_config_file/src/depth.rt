//! How deep the tables and arrays of a file are in one another. A text of unknown origin is looked
//! at before anything is built of it: what is built is dropped again, and both take the more of the
//! stack the deeper it is.
ghost use Rattle.std.specs.Prelude.{◌≡◌, [], ◌∷◌, reverse, ◌<◌, IfSome, length};
ghost use Rattle.iox2_config_file.specs.Depth.{begun, on_line, on_lines, follow, is_outside};
ghost use Rattle.iox2_config_file.specs.Depth.{close_key, close_bracket, is_open, has_table};
ghost use Rattle.iox2_config_file.specs.Depth.{Pushes, is_blank, nested, ended, close, moved};
ghost use Rattle.iox2_config_file.specs.Depth.{Gives, begin, Steps, too_deep};

use arrayvec::ArrayVec;
use std::marker::Model;

/// What a byte stands in.
#[derive(Clone, Copy)]
pub(crate) enum Inside {
    /// Neither a text nor a comment.
    Nothing,
    /// A comment, which the line's end ends.
    Comment,
    /// Behind the first quote of a text.
    Quote(u8),
    /// Behind two quotes: of an empty text, or the first two of a text of many lines.
    TwoQuotes(u8),
    /// A text of one line.
    Line(u8),
    /// The same, behind a `\`.
    LineEscape(u8),
    /// A text of many lines.
    Lines(u8),
    /// The same, behind a `\`.
    LinesEscape(u8),
    /// The same, behind one quote.
    LinesQuote(u8),
    /// The same, behind two quotes.
    LinesTwoQuotes(u8),
    /// Behind the three quotes that end such a text; two more may be its own.
    LinesEnd(u8),
}

/// A comment or a text that begins with the byte.
fn begun(byte: u8) -> Inside
    ensures { result ≡ begun byte }
{
    if byte == b'#' {
        Inside::Comment
    } else if byte == b'"' || byte == b'\'' {
        Inside::Quote(byte)
    } else {
        Inside::Nothing
    }
}

/// A text of one line after a byte.
fn on_line(quote: u8, byte: u8) -> Inside
    ensures { result ≡ on_line quote byte }
{
    if byte == quote || byte == b'\n' {
        Inside::Nothing
    } else if byte == b'\\' && quote == b'"' {
        Inside::LineEscape(quote)
    } else {
        Inside::Line(quote)
    }
}

/// A text of many lines after a byte.
fn on_lines(quote: u8, byte: u8) -> Inside
    ensures { result ≡ on_lines quote byte }
{
    if byte == quote {
        Inside::LinesQuote(quote)
    } else if byte == b'\\' && quote == b'"' {
        Inside::LinesEscape(quote)
    } else {
        Inside::Lines(quote)
    }
}

impl Inside {
    /// What the next byte stands in.
    pub(crate) fn follow(self, byte: u8) -> Inside
        ensures { result ≡ follow self byte }
    {
        match self {
            Inside::Nothing => begun(byte),
            Inside::Comment if byte == b'\n' => Inside::Nothing,
            Inside::Comment => Inside::Comment,
            Inside::Quote(quote) if byte == quote => Inside::TwoQuotes(quote),
            Inside::TwoQuotes(quote) if byte == quote => Inside::Lines(quote),
            Inside::LinesQuote(quote) if byte == quote => Inside::LinesTwoQuotes(quote),
            Inside::LinesTwoQuotes(quote) if byte == quote => Inside::LinesEnd(quote),
            Inside::LinesEnd(quote) if byte == quote => Inside::LinesEnd(quote),
            Inside::Quote(quote) | Inside::Line(quote) => on_line(quote, byte),
            Inside::TwoQuotes(_) | Inside::LinesEnd(_) => begun(byte),
            Inside::LineEscape(quote) => Inside::Line(quote),
            Inside::LinesEscape(quote) => Inside::Lines(quote),
            Inside::Lines(quote) | Inside::LinesQuote(quote) | Inside::LinesTwoQuotes(quote) => {
                on_lines(quote, byte)
            }
        }
    }

    /// Whether the byte stands in no text and in no comment.
    pub(crate) fn is_outside(self, byte: u8) -> bool
        ensures { result ≡ is_outside self byte }
    {
        match self {
            Inside::Nothing => true,
            Inside::Comment => byte == b'\n',
            Inside::TwoQuotes(quote) | Inside::LinesEnd(quote) => byte != quote,
            _ => false,
        }
    }
}

/// What is one table or array more.
#[derive(Clone, Copy, Default, PartialEq, Eq)]
pub(crate) enum Mark {
    /// A part of the line's header.
    #[default]
    Header,
    /// A dot of a key.
    Dot,
    /// An array.
    Array,
    /// An inline table.
    Table,
}

/// What is open, at most 32 in one another. Contracts see the innermost first.
#[derive(Drop)]
pub(crate) struct Marks {
    marks: ArrayVec<Mark, 32>,
}

impl Model for Marks {
    ghost use Rattle.std.specs.Prelude.{List, reverse};
    ghost use Rattle.iox2_config_file.specs.declared.depth.Mark.{Mark};

    ghost Value = { List Mark };

    ghost view = { λ m. reverse m.marks.items };
}

/// Removes the dots at the end.
fn pop_dots(marks: &mut ArrayVec<Mark, 32>)
    ensures { reverse marks.new.items ≡ close_key (reverse marks.old.items) }
{
    while let Some(Mark::Dot) = marks.as_slice().last() {
        marks.pop();
    }
}

impl Marks {
    /// Nothing is open.
    pub(crate) fn new() -> Marks
        ensures { result ≡ [] }
    {
        Marks {
            marks: ArrayVec::new(),
        }
    }

    /// The first part of a header, and nothing else.
    pub(crate) fn begin_header(&mut self)
        ensures { self.new ≡ Mark.Header ∷ [] }
    {
        self.marks.clear();
        self.marks.push(Mark::Header);
    }

    /// Opens one more, and says whether it fits.
    pub(crate) fn push(&mut self, mark: Mark) -> bool
        ensures { Pushes mark self.old result self.new }
    {
        self.marks.try_push(mark).is_ok()
    }

    /// Closes the innermost key.
    pub(crate) fn close_key(&mut self)
        ensures { self.new ≡ close_key self.old }
    {
        pop_dots(&mut self.marks);
    }

    /// Closes the innermost array or inline table.
    pub(crate) fn close_bracket(&mut self)
        ensures { self.new ≡ close_bracket self.old }
    {
        if self.is_open() {
            self.marks.pop();
        }
    }

    /// Whether the innermost is an array or an inline table.
    pub(crate) fn is_open(&self) -> bool
        ensures { result ≡ is_open self.now }
    {
        matches!(
            self.marks.as_slice().last(),
            Some(Mark::Array | Mark::Table)
        )
    }

    /// Whether the innermost is an inline table.
    pub(crate) fn has_table(&self) -> bool
        ensures { result ≡ has_table self.now }
    {
        matches!(self.marks.as_slice().last(), Some(Mark::Table))
    }
}

/// Where on a line a byte stands that is in no text and in no comment.
#[derive(Clone, Copy)]
pub(crate) enum Position {
    /// Before its key or its header.
    Start,
    /// In its header.
    Header,
    /// In a key.
    Key,
    /// In a value.
    Value,
}

/// What is open, and where on a line.
#[derive(Drop)]
pub(crate) struct Nesting {
    position: Position,
    marks: Marks,
}

/// What the bytes so far have opened.
#[derive(Drop)]
pub(crate) struct Scan {
    inside: Inside,
    nesting: Nesting,
}

/// Whether a line's key or header may stand behind the byte: it is white space, the line's end, or
/// no byte of ASCII, as those of a byte order mark.
fn is_blank(byte: u8) -> bool
    ensures { result ≡ is_blank byte }
{
    byte == b' ' || byte == b'\t' || byte == b'\r' || byte == b'\n' || byte == b'#' || 128 <= byte
}

impl Nesting {
    /// Opens one more, and says whether it fits.
    fn nest(&mut self, position: Position, mark: Mark) -> bool
        ensures { Gives (nested position mark self.old.marks) result self.new }
    {
        self.position = position;
        self.marks.push(mark)
    }

    /// What is open behind a closed key and the byte that closed it.
    fn end(&mut self, byte: u8)
        ensures { self.new ≡ ended self.old.position self.old.marks byte }
    {
        if byte == b',' {
            self.position = if self.marks.has_table() {
                Position::Key
            } else {
                Position::Value
            };
        } else if byte == b'\n' {
            if !self.marks.is_open() {
                self.position = Position::Start;
            }
        } else {
            self.position = Position::Value;
            self.marks.close_bracket();
        }
    }

    /// A key or a value after a byte that opens nothing.
    fn close(&mut self, byte: u8)
        ensures { self.new ≡ close self.old.position self.old.marks byte }
    {
        if byte == b']' || byte == b'}' || byte == b',' || byte == b'\n' {
            self.marks.close_key();
            self.end(byte);
        }
    }

    /// What is open after a byte that is in no text and in no comment, where what it opens fits.
    fn step(&mut self, byte: u8) -> bool
        ensures { Gives (moved self.old.position self.old.marks byte) result self.new }
    {
        match self.position {
            Position::Start if is_blank(byte) => true,
            Position::Start if byte == b'[' => {
                self.position = Position::Header;
                self.marks.begin_header();
                true
            }
            Position::Start => {
                self.position = Position::Key;
                true
            }
            Position::Header if byte == b'.' => self.nest(Position::Header, Mark::Header),
            Position::Header if byte == b'\n' => {
                self.position = Position::Start;
                true
            }
            Position::Header => true,
            Position::Key if byte == b'.' => self.nest(Position::Key, Mark::Dot),
            Position::Key if byte == b'=' => {
                self.position = Position::Value;
                true
            }
            Position::Value if byte == b'[' => self.nest(Position::Value, Mark::Array),
            Position::Value if byte == b'{' => self.nest(Position::Key, Mark::Table),
            Position::Key | Position::Value => {
                self.close(byte);
                true
            }
        }
    }
}

impl Scan {
    /// Before the first byte.
    pub(crate) fn new() -> Scan
        ensures { result ≡ begin }
    {
        Scan {
            inside: Inside::Nothing,
            nesting: Nesting {
                position: Position::Start,
                marks: Marks::new(),
            },
        }
    }

    /// Passes a byte, and says whether what it opens fits.
    pub(crate) fn step(&mut self, byte: u8) -> bool
        ensures { Steps self.old byte result self.new }
    {
        let is_outside = self.inside.is_outside(byte);
        self.inside = self.inside.follow(byte);
        if is_outside {
            return self.nesting.step(byte);
        }
        true
    }
}

/// How many bytes stand before the first that opens a table or an array within 32 others. Each part
/// of a header, each dot of a key, each array and each inline table is one. It takes no memory.
#[tactic(auto, unfolding(crate::specs::Depth::too_deep))]
pub fn too_deep(text: &[u8]) -> Option<usize>
    ensures first { result ≡ too_deep text.now }
    ensures inside { IfSome result (λ before. before < length text.now) }
{
    let mut scan = Scan::new();
    let mut before = 0;
    let mut rest = text;
    while let Some((byte, more)) = rest.split_first() {
        if !scan.step(*byte) {
            return Some(before);
        }
        before += 1;
        rest = more;
    }
    None
}
