// What the calls of this crate may answer.
ghost use Rattle.std.specs.Prelude.{◌≡◌};
ghost use Rattle.cy_trace.specs.declared.error.TraceError.TheVariants as trace_error;

use std::alloc::{AllocError, AllocFailed};
use thiserror::Error;

/// Why a text is no trace, or want of memory.
#[derive(Clone, Copy, Debug, PartialEq, Eq, Error)]
pub enum TraceError {
    /// The text is outside the form.
    #[error("line {line} is of no trace")]
    Bad {
        /// The first line, from 1, with which the lines so far are a prefix of no trace.
        line: u32,
    },
    /// There is no memory.
    #[error("out of memory")]
    Memory,
}

impl From<AllocError> for TraceError {
    ghost from_gives = { λ _ e. e ≡ trace_error.Memory };

    fn from(_: AllocError) -> Self {
        TraceError::Memory
    }
}

impl<T: Drop> From<AllocFailed<T>> for TraceError {
    ghost from_gives = { λ _ e. e ≡ trace_error.Memory };

    fn from(_: AllocFailed<T>) -> Self {
        TraceError::Memory
    }
}
