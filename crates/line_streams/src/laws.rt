//! How phrases are copied.
ghost use Rattle.std.specs.Prelude.{◌≡◌, IsOkAnd};

use crate::phrase::{After, LineEnd, Number, Then};
use std::alloc::AllocError;

/// A phrase of each kind.
pub type Phrases<'w> = (Number, LineEnd, Then<Number, Number>, After<'w, Number>);

/// A clone of a phrase is the same phrase and takes no memory.
pub fn phrases_are_cloned<'w>(phrases: &Phrases<'w>) -> Result<Phrases<'w>, AllocError>
    ensures { IsOkAnd result (λ copy. copy ≡ phrases.now) }
{
    phrases.clone()
}
