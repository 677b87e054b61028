// What reading a part of a line may answer in place of a value.
ghost use Rattle.std.specs.Prelude.{◌≡◌};
ghost use Rattle.cy_trace_read.specs.declared.fault.Fault.TheVariants as fault;

use cy_msg::NamesError;
use std::alloc::{AllocError, AllocFailed};

/// What reading a part of a line may answer in place of a value.
#[derive(Clone, Copy)]
pub(crate) enum Fault {
    /// It is outside the form.
    Bad,
    /// There is no memory.
    Memory,
}

impl From<AllocError> for Fault {
    ghost from_gives = { λ _ e. e ≡ fault.Memory };

    fn from(_: AllocError) -> Self {
        Fault::Memory
    }
}

impl<T: Drop> From<AllocFailed<T>> for Fault {
    ghost from_gives = { λ _ e. e ≡ fault.Memory };

    fn from(_: AllocFailed<T>) -> Self {
        Fault::Memory
    }
}

impl From<NamesError> for Fault {
    ghost from_gives = { λ _ e. e ≡ fault.Memory };

    fn from(_: NamesError) -> Self {
        Fault::Memory
    }
}
