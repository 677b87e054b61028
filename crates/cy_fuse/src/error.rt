// What the calls of this crate may answer.
ghost use Rattle.std.specs.Prelude.{◌≡◌};
ghost use Rattle.cy_fuse.specs.declared.error.FuseError.TheVariants as fuse_error;

use std::alloc::AllocError;
use thiserror::Error;

/// Want of memory.
#[derive(Clone, Copy, Debug, PartialEq, Eq, Error)]
pub enum FuseError {
    /// There is no memory.
    #[error("out of memory")]
    Memory,
}

impl From<AllocError> for FuseError {
    ghost from_gives = { λ _ e. e ≡ fuse_error.Memory };

    fn from(_: AllocError) -> Self {
        FuseError::Memory
    }
}
