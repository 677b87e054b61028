// Faults by the place of their token, and what reading may answer in place of a value.
ghost use Rattle.std.specs.Prelude.{◌≡◌};
ghost use Rattle.cy_text.specs.declared.fault.Failure.TheVariants as failure;

use crate::BadKind;
use cy_msg::NamesError;
use std::alloc::{AllocError, AllocFailed};

/// What is wrong with a text, and the place of the token from the text's first byte.
#[derive(Clone, Copy)]
pub(crate) enum Fault {
    /// A token that is faulty or stands in a wrong place.
    Bad(BadKind, u32),
    /// A message that stands too deep.
    TooDeep(u32),
}

/// What reading a text may answer in place of a value.
#[derive(Clone, Copy)]
pub(crate) enum Failure {
    Fault(Fault),
    Memory,
}

impl From<AllocError> for Failure {
    ghost from_gives = { λ _ e. e ≡ failure.Memory };

    fn from(_: AllocError) -> Self {
        Failure::Memory
    }
}

impl<T: Drop> From<AllocFailed<T>> for Failure {
    ghost from_gives = { λ _ e. e ≡ failure.Memory };

    fn from(_: AllocFailed<T>) -> Self {
        Failure::Memory
    }
}

impl From<NamesError> for Failure {
    ghost from_gives = { λ _ e. e ≡ failure.Memory };

    fn from(_: NamesError) -> Self {
        Failure::Memory
    }
}
