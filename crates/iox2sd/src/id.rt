//! What exports return of ids.
ghost use Rattle.std.specs.Prelude.{◌≡◌};
ghost use Rattle.iox2_ids.specs.Packing.{hexadecimal, owner_of};
ghost use Rattle.iox2sd_common.specs.Answers.{Written};
ghost use Rattle.iox2sd_common.specs.Ids.{number_of};
ghost use Rattle.iox2sd.specs.Queries.{is_node, is_before, ReportsId};

use crate::values::IdAnswer;
use iox2_ids::identifiers::Hexadecimal;
use iox2sd_common::answers::{TextAnswer, write};
use iox2sd_common::id::Id;

/// Whether the parts are those of a node: its process or its counter is not 0.
#[unsafe(no_mangle)]
pub extern "C" fn iox2sd_id_is_node(id: Id) -> bool
    ensures { result ≡ is_node id }
{
    id.of_node().is_some()
}

/// The process and the counter in one number, process * 2^32 + counter, which is 0 for an id of no
/// node alone.
#[unsafe(no_mangle)]
pub extern "C" fn iox2sd_id_owner_id(id: Id) -> u64
    ensures { result ≡ owner_of (number_of id) }
{
    match id.of_node() {
        Some(node) => node.owner_id(),
        None => 0,
    }
}

/// Whether the number of the first id is below that of the second.
#[unsafe(no_mangle)]
pub extern "C" fn iox2sd_id_is_before(id: Id, other: Id) -> bool
    ensures { result ≡ is_before id other }
{
    id.number() < other.number()
}

/// Writes the text of an id: the number that its parts make, in lower-case hexadecimal digits
/// without leading zeros, at most 32 bytes.
#[unsafe(no_mangle)]
pub extern "C" fn iox2sd_id_text_at(id: Id, out: &mut [u8]) -> TextAnswer
    ensures { Written (hexadecimal (number_of id)) out.old result out.new }
{
    write(Hexadecimal::new(id.number()).as_bytes(), out)
}

/// The id whose text `iox2sd_id_text_at` writes so. Each number of at most 32 digits is that of an
/// id.
///
/// Refused are, in this order, an empty text (`Empty`), more than 32 bytes (`TooLong`), and one
/// that is the text of no id (`IllegalByte`): a byte is no lower-case hexadecimal digit, or zeros
/// lead.
#[unsafe(no_mangle)]
pub extern "C" fn iox2sd_id_from_text_at(text: &[u8]) -> IdAnswer
    ensures { ReportsId text.now result }
{
    IdAnswer::of(Id::from_text(text))
}
