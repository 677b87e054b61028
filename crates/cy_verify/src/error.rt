// Why a trace is not judged.
ghost use Rattle.std.specs.Prelude.{◌≡◌};
ghost use Rattle.cy_verify.specs.declared.error.VerifyError.TheVariants as verify_error;

use std::alloc::{AllocError, AllocFailed};
use thiserror::Error;

/// Why a trace is not judged.
#[derive(Clone, Copy, Debug, PartialEq, Eq, Error)]
pub enum VerifyError {
    /// There is no memory.
    #[error("out of memory")]
    Memory,
}

impl From<AllocError> for VerifyError {
    ghost from_gives = { λ _ e. e ≡ verify_error.Memory };

    fn from(_: AllocError) -> Self {
        VerifyError::Memory
    }
}

impl<T: Drop> From<AllocFailed<T>> for VerifyError {
    ghost from_gives = { λ _ e. e ≡ verify_error.Memory };

    fn from(_: AllocFailed<T>) -> Self {
        VerifyError::Memory
    }
}
