//! Lines of text in a picture.
ghost use Rattle.std.specs.Prelude.{◌≡◌, ◌++◌, ◌<◌, IfOk, OnOk, Some, string_bytes};
ghost use Rattle.service_drawing.specs.Svg.{below, escaped, line_text, written, written_end};

use std::alloc::AllocError;
use std::fmt;

/// How lines of letters that are all equally wide are set: one is at most 61 hundredths of its size
/// wide, so that a line with its greatest number of letters ends within the picture.
#[derive(Clone, Copy)]
pub(crate) struct Face {
    pub(crate) size: usize,
    /// Where lines begin.
    pub(crate) left: usize,
    /// How many letters a line has at most.
    pub(crate) columns: usize,
    /// How far below a line the next one stands.
    pub(crate) height: usize,
}

/// Names of services.
pub(crate) const NAME: Face = Face {
    size: 150,
    left: 200,
    columns: 78,
    height: 210,
};

/// What is said of a whole message.
pub(crate) const NOTE: Face = Face {
    size: 110,
    left: 200,
    columns: 106,
    height: 170,
};

/// What is said of the type of a part, beside the square with the part's color.
pub(crate) const TYPE: Face = Face {
    size: 110,
    left: 440,
    columns: 102,
    height: 170,
};

/// Bytes as a document has them: `&`, `<` and `>` by their names, and what is no printable ASCII,
/// which no description has, as `?`.
#[derive(Clone, Copy)]
pub(super) struct Escaped<'a>(pub(super) &'a [u8]);

impl fmt::Display for Escaped<'_> {
    ghost output = { λ e. Some (escaped e.0.now) };

    fn fmt<W: fmt::Write>(&self, f: &mut fmt::Formatter<W>) -> fmt::Result {
        for byte in self.0 {
            match *byte {
                b'&' => f.write_str("&amp;")?,
                b'<' => f.write_str("&lt;")?,
                b'>' => f.write_str("&gt;")?,
                b' '..=b'~' => f.write_char(*byte as char)?,
                _ => f.write_str("?")?,
            }
        }
        Ok(())
    }
}

/// So far below, as far as 64 bits have it.
#[tactic(auto, unfolding(crate::specs::Svg::below))]
pub(super) fn below(top: usize, height: usize) -> usize
    ensures { result ≡ below top height }
{
    top.saturating_add(height)
}

/// Draws a line.
#[tactic(auto, unfolding(crate::specs::Svg::line_text))]
fn write_line(out: &mut String, top: usize, face: Face, line: &[u8]) -> Result<(), AllocError>
    ensures { OnOk result (string_bytes out.new
        ≡ string_bytes out.old ++ line_text face top line.now) }
{
    let left = face.left;
    let size = face.size;
    let line = Escaped(line);
    writeln!(
        out,
        "<text x=\"{left}\" y=\"{top}\" dy=\"{size}\" font-size=\"{size}\" font-family=\"monospace\" xml:space=\"preserve\">{line}</text>"
    )
}

/// Draws a text in as many lines as it takes. Returns where the next line begins.
#[tactic(auto, using(crate::proofs::Pictures::no_more_lines, crate::proofs::Pictures::no_more_ends))]
pub(super) fn write_lines(
    out: &mut String,
    top: usize,
    face: Face,
    text: &str,
) -> Result<usize, AllocError>
    requires { 0 < face.columns }
    ensures drawn { OnOk result (string_bytes out.new
        ≡ string_bytes out.old ++ written face top text.now) }
    ensures end { IfOk result (λ end. end ≡ written_end face top text.now) }
{
    let mut top = top;
    let mut rest = text.as_bytes();
    let lines = rest.len().div_ceil(face.columns);
    for i in 0..lines {
        let (line, others) = rest.split_at(rest.len().min(face.columns));
        write_line(out, top, face, line)?;
        top = below(top, face.height);
        rest = others;
    }
    Ok(top)
}
