// Why a file is not compared.
ghost use Rattle.std.specs.Prelude.{◌≡◌};
ghost use Rattle.cy_recording.specs.declared.error.SameError.TheVariants as same_error;
ghost use Rattle.cy_recording.specs.private.Judging.{error_of};

use cy_store::StoreError;
use std::alloc::{AllocError, AllocFailed};
use thiserror::Error;

/// Why a file is not compared.
#[derive(Clone, Copy, Debug, PartialEq, Eq, Error)]
pub enum SameError {
    /// The store failed.
    #[error("the store failed")]
    Store,
    /// There is no memory.
    #[error("out of memory")]
    Memory,
}

impl From<AllocError> for SameError {
    ghost from_gives = { λ _ e. e ≡ same_error.Memory };

    fn from(_: AllocError) -> Self {
        SameError::Memory
    }
}

impl<T: Drop> From<AllocFailed<T>> for SameError {
    ghost from_gives = { λ _ e. e ≡ same_error.Memory };

    fn from(_: AllocFailed<T>) -> Self {
        SameError::Memory
    }
}

impl From<StoreError> for SameError {
    ghost from_gives = { λ s e. e ≡ error_of s };

    fn from(error: StoreError) -> Self {
        match error {
            StoreError::Failed => SameError::Store,
            StoreError::Memory => SameError::Memory,
        }
    }
}
