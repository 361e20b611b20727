//! Lines and numbers, each with one text.
ghost use Rattle.std.specs.Prelude.{◌≡◌, ◌++◌, ◌<◌, ◌^◌, ◌↔◌, ℕ, List, length};
ghost use Rattle.std.specs.Prelude.{IsTrue, IfSome, MatchOption, decimal};
ghost use Rattle.service_drawing.specs.Lines.{IsPlain, IsLine, HasNoLine};

use line_streams::{LineEnd, Number, Phrase, Then, after_word, before_byte};

/// Whether a line may hold the bytes: each is from 32 to 126.
fn is_plain(bytes: &[u8]) -> bool
    ensures { IsTrue result ↔ IsPlain bytes.now }
{
    bytes.iter().all(|b| matches!(*b, b' '..=b'~'))
}

/// The first line without its newline, and what follows
/// that. A line holds bytes from 32 to 126 alone.
pub(super) fn next_line(bytes: &[u8]) -> Option<(&[u8], &[u8])>
    ensures line { MatchOption result ((text rest : List ℕ) → ¬ IsLine text rest bytes.now)
        (λ found. IsLine found.0.now found.1.now bytes.now) }
    ensures shorter { IfSome result (λ found. length found.1.now < length bytes.now) }
{
    let (line, rest) = before_byte(bytes, b'\n')?;
    if !is_plain(line) {
        return None;
    }
    Some((line, rest))
}

/// The first line without the prefix, the word and its newline,
/// and what follows the newline, where that line begins so.
pub(crate) fn line_after<'a>(
    bytes: &'a [u8],
    prefix: &str,
    word: &str,
) -> Option<(&'a [u8], &'a [u8])>
    ensures line { MatchOption result (HasNoLine (prefix.now ++ word.now) bytes.now)
        (λ found. IsLine (prefix.now ++ word.now ++ found.0.now) found.1.now bytes.now) }
    ensures shorter { IfSome result (λ found. length found.1.now < length bytes.now) }
{
    let (line, rest) = next_line(bytes)?;
    let text = after_word(line, prefix.as_bytes())?;
    let text = after_word(text, word.as_bytes())?;
    Some((text, rest))
}

/// A number of 64 bits: no sign and no leading zero.
pub(super) const ANY: Number = Number(u64::MAX);

/// The number that the text is.
pub(crate) fn number(text: &[u8]) -> Option<usize>
    ensures { MatchOption result ((n : ℕ) → n < 2 ^ 64 → ¬ (text.now ≡ decimal n))
        (λ n. text.now ≡ decimal n) }
{
    let ((n, _), _) = Then(ANY, LineEnd::Bytes).read(text)?;
    Some(n as usize)
}
