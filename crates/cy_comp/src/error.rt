// What the calls of this crate may answer.
ghost use Rattle.std.specs.Prelude.{◌≡◌};
ghost use Rattle.cy_comp.specs.declared.error.CompError.TheVariants as comp_error;

use std::alloc::{AllocError, AllocFailed};
use thiserror::Error;

/// Want of memory.
#[derive(Clone, Copy, Debug, PartialEq, Eq, Error)]
pub enum CompError {
    /// There is no memory.
    #[error("out of memory")]
    Memory,
}

impl From<AllocError> for CompError {
    ghost from_gives = { λ _ e. e ≡ comp_error.Memory };

    fn from(_: AllocError) -> Self {
        CompError::Memory
    }
}

impl<T: Drop> From<AllocFailed<T>> for CompError {
    ghost from_gives = { λ _ e. e ≡ comp_error.Memory };

    fn from(_: AllocFailed<T>) -> Self {
        CompError::Memory
    }
}
