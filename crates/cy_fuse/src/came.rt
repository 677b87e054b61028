// All that came to a visitor, which only contracts see.
ghost use Rattle.std.specs.Prelude.{◌≡◌, ◌++◌, ◌∷◌, [], List};
ghost use Rattle.std.specs.Borrow.{ftrue};
ghost use Rattle.cy_fuse.specs.Fusion.{Arrival};

use crate::Arrived;
use std::marker::Model;

// Arrivals, in order. They exist only in contracts and proofs, and take no memory: a visitor keeps
// the reader of each one and the messages of its last tuples.
#[derive(Drop)]
pub(crate) struct Came {
    pub ghost list: { List Arrival },
}

impl Model for Came {
    ghost also_owns = { λ _. ftrue };
}

impl Came {
    // No arrival.
    pub(crate) fn nothing() -> Came
        ensures { result.list ≡ [] }
    {
        Came {}
    }

    // These arrivals and one more.
    #[inline(always)]
    pub(crate) fn then(&self, _arrival: &Arrived) -> Came
        ensures { result.list ≡ self.now.list ++ _arrival.now ∷ [] }
    {
        Came {}
    }
}

// It owns nothing, so it may go to any thread, and any thread may share it.
unsafe impl Send for Came {}

unsafe impl Sync for Came {}
