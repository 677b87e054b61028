// The calls that were followed, which only contracts see.
ghost use Rattle.std.specs.Prelude.{◌≡◌, ◌++◌, ◌∷◌, [], List};
ghost use Rattle.std.specs.Borrow.{ftrue};
ghost use Rattle.cy_comp.specs.declared.call.Call.{Call};

use cy_comp::Call;
use std::marker::Model;

// Calls, in order. They exist only in contracts and proofs, and take no memory: the trace has them.
#[derive(Drop)]
pub(crate) struct Made {
    pub ghost list: { List Call },
}

impl Model for Made {
    ghost also_owns = { λ _. ftrue };
}

impl Made {
    // No call.
    pub(crate) fn nothing() -> Made
        ensures { result.list ≡ [] }
    {
        Made {}
    }

    // These calls and one more.
    #[inline(always)]
    pub(crate) fn then(&self, _call: &Call) -> Made
        ensures { result.list ≡ self.now.list ++ _call.now ∷ [] }
    {
        Made {}
    }
}
