// All calls of a component, which only contracts see.
ghost use Rattle.std.specs.Prelude.{◌≡◌, ◌++◌, ◌∷◌, [], List};
ghost use Rattle.std.specs.Borrow.{ftrue};
ghost use Rattle.cy_comp.specs.declared.call.Call.{Call};
ghost use Rattle.cy_comp.specs.private.Parts.{part_of};

use crate::Call;
use std::marker::Model;

// Calls, in order. They exist only in contracts and proofs, and take no memory: what is kept of
// each is in a row.
#[derive(Drop)]
pub(crate) struct Made {
    pub ghost list: { List Call },
}

// Which part of calls.
#[derive(Clone, Copy)]
pub(crate) enum Part {
    // The first so many.
    First(usize),
    // All but the first so many.
    Others(usize),
}

impl Model for Made {
    ghost also_owns = { λ _. ftrue };
}

impl Made {
    // No call.
    pub(crate) fn nothing() -> Made
        ensures { result.list ≡ [] }
    {
        Made {}
    }

    // These calls and one more.
    #[inline(always)]
    pub(crate) fn then(&self, _call: &Call) -> Made
        ensures { result.list ≡ self.now.list ++ _call.now ∷ [] }
    {
        Made {}
    }

    // Some of them.
    #[inline(always)]
    pub(crate) fn part(&self, _part: &Part) -> Made
        ensures { result.list ≡ part_of _part.now self.now.list }
    {
        Made {}
    }
}

// It owns nothing, so it may go to any thread, and any thread may share it.
unsafe impl Send for Made {}

unsafe impl Sync for Made {}
