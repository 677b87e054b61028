// What stays the same while a record is compared.
ghost use Rattle.std.specs.Prelude.{ℕ, List, [], None};
ghost use Rattle.cy_store.specs.Store.{StoreView};

use std::marker::Brand;

// What a record is compared with: the name of the file, what its store showed when that began, and
// the ghost name of the reference to it. A type stands for them, so that no call can change them.
pub(crate) trait Known {
    ghost name: { List ℕ };

    ghost start: { StoreView };

    ghost lender: { ℕ };
}

// The proof of a call that passes `Brand` picks them.
impl Known for Brand {
    ghost name = { [] };

    ghost start = { record { files = None; faults = 0; misses = 0 } };

    ghost lender = { 0 };
}
