//! Ids as plain values.
ghost use Rattle.std.specs.Prelude.{◌≡◌, ◌+◌, ◌*◌, ◌/◌, ◌%◌, ◌^◌};
ghost use Rattle.iox2sd_common.specs.Ids.{number_of, id_of, ReadsNode, ReadsText};

use super::status::Status;
use iox2_ids::identifiers::{Hexadecimal, UniqueId, UniqueNodeId, UniqueServiceId};

/// The id of a node, of a port or of a service. It has no padding, so C may compare its bytes.
#[repr(C)]
#[derive(Clone, Copy, Default)]
pub struct Id {
    /// The process that made it.
    pub process: u32,
    /// When it was made: whole seconds.
    pub seconds: u32,
    /// When it was made: the nanoseconds beside the seconds.
    pub nanoseconds: u32,
    /// The number that distinguishes it from others.
    pub counter: u32,
}

/// A number whose two halves are exchanged.
#[inline(always)]
fn exchanged(value: u64) -> u64
    ensures { result ≡ value % 2 ^ 32 * 2 ^ 32 + value / 2 ^ 32 }
{
    value % (1 << 32) * (1 << 32) + value / (1 << 32)
}

impl Id {
    /// The id of these parts, of whatever kind.
    pub fn of_kind<K>(self) -> UniqueId<K>
        ensures { result ≡ number_of self }
    {
        UniqueId::new(self.process, self.seconds, self.nanoseconds, self.counter)
    }

    /// The number of these parts.
    pub fn number(&self) -> u128
        ensures { result ≡ number_of self.now }
    {
        let id: UniqueServiceId = self.of_kind();
        id.value()
    }

    /// The id of the node of these parts, if there is one.
    pub fn of_node(self) -> Option<UniqueNodeId>
        ensures { ReadsNode self result }
    {
        UniqueNodeId::new(self.process, self.seconds, self.nanoseconds, self.counter)
    }

    /// The parts of the number of an id.
    pub fn of_number(value: u128) -> Id
        ensures { result ≡ id_of value }
    {
        // The two parts of each half lie as in an id then, and are written at once.
        let front = exchanged((value >> 64) as u64);
        let back = exchanged((value % (1 << 64)) as u64);
        Id {
            process: (front % (1 << 32)) as u32,
            seconds: (front >> 32) as u32,
            nanoseconds: (back % (1 << 32)) as u32,
            counter: (back >> 32) as u32,
        }
    }

    /// The id whose number a text writes in lower-case hexadecimal digits without leading zeros.
    ///
    /// Refused are, in this order, an empty text (`Empty`), more than 32 bytes (`TooLong`), and a
    /// text that writes no number so (`IllegalByte`).
    pub fn from_text(text: &[u8]) -> Result<Id, Status>
        ensures { ReadsText text.now result }
    {
        if text.is_empty() {
            return Err(Status::Empty);
        }
        if text.len() > 32 {
            return Err(Status::TooLong);
        }
        match Hexadecimal::parse(text) {
            Some(value) => Ok(Id::of_number(value)),
            None => Err(Status::IllegalByte),
        }
    }
}
