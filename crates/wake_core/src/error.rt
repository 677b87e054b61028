// What the calls of this crate may answer.
ghost use Rattle.std.specs.Prelude.{◌≡◌};
ghost use Rattle.wake_core.specs.declared.error.CoreError.TheVariants as core_error;

use cy_comp::CompError;
use cy_fuse::FuseError;
use std::alloc::{AllocError, AllocFailed};
use thiserror::Error;

/// Why a world is not made.
#[derive(Clone, Copy, Debug, PartialEq, Eq, Error)]
pub enum CoreError {
    /// More entries are planned than a world keeps.
    #[error("limit TooMany passed: {count}")]
    TooMany {
        /// How many are planned.
        count: u64,
    },
    /// There is no memory.
    #[error("out of memory")]
    Memory,
}

impl From<AllocError> for CoreError {
    ghost from_gives = { λ _ e. e ≡ core_error.Memory };

    fn from(_: AllocError) -> Self {
        CoreError::Memory
    }
}

impl<T: Drop> From<AllocFailed<T>> for CoreError {
    ghost from_gives = { λ _ e. e ≡ core_error.Memory };

    fn from(_: AllocFailed<T>) -> Self {
        CoreError::Memory
    }
}

impl From<CompError> for CoreError {
    ghost from_gives = { λ _ e. e ≡ core_error.Memory };

    fn from(_: CompError) -> Self {
        CoreError::Memory
    }
}

impl From<FuseError> for CoreError {
    ghost from_gives = { λ _ e. e ≡ core_error.Memory };

    fn from(_: FuseError) -> Self {
        CoreError::Memory
    }
}
