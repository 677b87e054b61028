// Why the files are not made.
ghost use Rattle.std.specs.Prelude.{◌≡◌};
ghost use Rattle.cy_make.specs.declared.error.MakeError.TheVariants as make_error;

use crate::Config;
use std::alloc::{AllocError, AllocFailed};
use thiserror::Error;

/// Why the files are not all made.
#[derive(Clone, Copy, Debug, PartialEq, Eq, Error)]
pub enum MakeError {
    /// A call of the store failed at this configuration file.
    #[error("the store failed")]
    Config(Config),
    /// A call of the store failed at the record.
    #[error("the store failed")]
    Record,
    /// There is no memory.
    #[error("out of memory")]
    Memory,
}

impl From<AllocError> for MakeError {
    ghost from_gives = { λ _ e. e ≡ make_error.Memory };

    fn from(_: AllocError) -> Self {
        MakeError::Memory
    }
}

impl<T: Drop> From<AllocFailed<T>> for MakeError {
    ghost from_gives = { λ _ e. e ≡ make_error.Memory };

    fn from(_: AllocFailed<T>) -> Self {
        MakeError::Memory
    }
}
