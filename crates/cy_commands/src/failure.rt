// How a play may end other than done.
ghost use Rattle.std.specs.Prelude.{◌≡◌};
ghost use Rattle.cy_commands.specs.declared.failure.Failure.TheVariants as failure;

use std::alloc::{AllocError, AllocFailed};

/// A file that a play writes.
#[derive(Clone, Copy)]
pub enum File {
    /// The record.
    Output,
    /// The trace.
    Trace,
}

/// Why a play was not done.
#[derive(Clone, Copy)]
pub enum Failure {
    /// A call of the store failed at a file.
    Store(File),
    /// There is no memory.
    Memory,
}

impl From<AllocError> for Failure {
    ghost from_gives = { λ _ e. e ≡ failure.Memory };

    fn from(_: AllocError) -> Self {
        Failure::Memory
    }
}

impl<T: Drop> From<AllocFailed<T>> for Failure {
    ghost from_gives = { λ _ e. e ≡ failure.Memory };

    fn from(_: AllocFailed<T>) -> Self {
        Failure::Memory
    }
}
