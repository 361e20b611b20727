//! The ids in replies.
ghost use Rattle.std.specs.Prelude.{◌≡◌, ◌++◌, ℕ};
ghost use Rattle.line_streams.specs.Spelling.{HasNo};
ghost use Rattle.service_conformance.specs.Seen.{EndsWord, printed_id};
ghost use Rattle.service_conformance.specs.IdWords.{printed_one};

use iox2_ids::identifiers::Hexadecimal;
use line_streams::{Phrase, before_byte};

/// What comes before the first space, and the rest from that space on.
fn front_word(bytes: &[u8]) -> (&[u8], &[u8])
    ensures whole { bytes.now ≡ result.0.now ++ result.1.now }
    ensures word { HasNo 32 result.0.now }
    ensures rest { EndsWord result.1.now }
{
    match before_byte(bytes, b' ') {
        Some((word, _)) => (word, &bytes[word.len()..]),
        None => (bytes, &[]),
    }
}

/// An id, as it prints, up to a space or the end.
#[derive(Clone, Copy)]
pub(super) struct PrintedId;

impl<'a> Phrase<'a> for PrintedId {
    type Value = u128;

    ghost Seen = { ℕ };

    ghost view = { λ id. id };

    ghost spelling = { λ s. printed_id };

    fn read(&self, bytes: &'a [u8]) -> Option<(u128, &'a [u8])> {
        let (word, rest) = front_word(bytes);
        let Some(id) = Hexadecimal::parse(word) else {
            return None;
        };
        Some((id, rest))
    }

    ghost one_way = { λ s. printed_one };
}
