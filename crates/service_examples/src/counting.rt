//! Callbacks that count by `+= 1`. The number of calls is bounded, since each entry is in a
//! registry.
ghost use Rattle.std.specs.Prelude.{◌≡◌, ◌+◌, ◌<◌, ◌^◌, false, length};
ghost use Rattle.iox2_container.specs.Steps.{entries_of};

use iox2_container::container::{Attached, Registry, ReleaseMode};
use iox2_ids::identifiers::UniqueNodeId;
use iox2_texts::bounded::CallbackProgression;

/// How many entries there are, counted one by one.
pub fn count_entries<T: Attached + Copy, R: Registry<T>>(registry: &R) -> usize
    ensures { result ≡ length (R.state registry.now).registry.entries }
{
    // For the proof: the number of entries fits a `usize`.
    let _bound = registry.len();
    let mut count = 0usize;
    let mut one_more = |_: &T| -> CallbackProgression
        requires { count + 1 < 2 ^ 64 }
        ensures counted { count.exit ≡ count.entry + 1 }
        ensures goes_on { result ≡ CallbackProgression.Continue }
    {
        count += 1;
        CallbackProgression::Continue
    };
    registry.for_each(&mut one_more);
    count
}

/// Recovers the node with a callback that removes nothing, and returns how often it was called.
pub fn count_called<T: Attached + Copy, R: Registry<T>>(
    registry: &mut R,
    node: &UniqueNodeId,
) -> usize
    ensures count { result ≡ entries_of T.node node.now (R.state registry.old).registry }
    ensures kept { (R.state registry.new).registry ≡ (R.state registry.old).registry }
{
    // For the proof: the number of candidates fits a `usize`.
    let _bound = registry.entries_of(node);
    let mut count = 0usize;
    let mut stays = |_: &T| -> bool
        requires { count + 1 < 2 ^ 64 }
        ensures counted { count.exit ≡ count.entry + 1 }
        ensures stays { result ≡ false }
    {
        count += 1;
        false
    };
    registry.recover(node, &mut stays, ReleaseMode::Default);
    count
}
