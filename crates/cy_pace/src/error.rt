// Why no run is made.
ghost use Rattle.cy_pace.specs.declared.error.RunError.TheVariants as run_error;
ghost use Rattle.std.specs.Prelude.{◌≡◌};

use std::alloc::{AllocError, AllocFailed};
use thiserror::Error;

/// Why a run, or what it needs, is not made.
#[derive(Clone, Copy, Debug, PartialEq, Eq, Error)]
pub enum RunError {
    /// There is no memory.
    #[error("out of memory")]
    Memory,
}

impl From<AllocError> for RunError {
    ghost from_gives = { λ _ e. e ≡ run_error.Memory };

    fn from(_: AllocError) -> Self {
        RunError::Memory
    }
}

impl<T: Drop> From<AllocFailed<T>> for RunError {
    ghost from_gives = { λ _ e. e ≡ run_error.Memory };

    fn from(_: AllocFailed<T>) -> Self {
        RunError::Memory
    }
}
