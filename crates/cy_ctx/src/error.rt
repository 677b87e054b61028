// What making a context may answer in place of one.
ghost use Rattle.std.specs.Prelude.{◌≡◌};
ghost use Rattle.cy_ctx.specs.declared.error.CtxError.TheVariants as ctx_error;

use std::alloc::{AllocError, AllocFailed};
use thiserror::Error;

/// Why a context is not made.
#[derive(Clone, Copy, Debug, PartialEq, Eq, Error)]
pub enum CtxError {
    /// There is no memory.
    #[error("out of memory")]
    Memory,
}

impl From<AllocError> for CtxError {
    ghost from_gives = { λ _ e. e ≡ ctx_error.Memory };

    fn from(_: AllocError) -> Self {
        CtxError::Memory
    }
}

impl<T: Drop> From<AllocFailed<T>> for CtxError {
    ghost from_gives = { λ _ e. e ≡ ctx_error.Memory };

    fn from(_: AllocFailed<T>) -> Self {
        CtxError::Memory
    }
}
