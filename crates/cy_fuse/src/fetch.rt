// The fetch rule.
ghost use Rattle.std.specs.Prelude.{◌≡◌, ◌<◌, ◌^◌};
ghost use Rattle.cy_fuse.specs.Fetch.{fetch};

use crate::Overflow;

/// The number of the item that a fetch at `index` finds in a buffer which keeps the last `queue`
/// items, of which the newest has the number `tail`. Items are numbered from 1; an index of 0 is
/// that of a reader which fetched nothing yet.
///
/// At an index of 0 it is the tail. Where the item isn't kept any more it is the tail or the oldest
/// one that is kept, as `overflow` says. None comes exactly where the buffer is empty or the index
/// is above the tail.
#[tactic(auto, unfolding(crate::specs::Fetch::fetch))]
pub fn fetch_at(index: u64, tail: u64, queue: u32, overflow: Overflow) -> Option<u64>
    ensures { result ≡ fetch index tail queue overflow }
{
    if tail == 0 || index > tail {
        return None;
    }
    if index == 0 {
        return Some(tail);
    }
    if tail - index < u64::from(queue) {
        return Some(index);
    }
    match overflow {
        Overflow::Newest => Some(tail),
        Overflow::Oldest => Some(tail - u64::from(queue.saturating_sub(1))),
    }
}
