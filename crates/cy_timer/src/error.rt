// What the calls of this crate may answer in place of a value.
ghost use Rattle.std.specs.Prelude.{◌≡◌};
ghost use Rattle.cy_timer.specs.declared.error.TimerError.TheVariants as timer_error;

use std::alloc::{AllocError, AllocFailed};
use thiserror::Error;

/// What [`timers`](crate::timers) and [`merge`](crate::merge) may answer in place of a value.
#[derive(Clone, Copy, Debug, PartialEq, Eq, Error)]
pub enum TimerError {
    /// There are more messages and ticks than are played.
    #[error("too many messages and ticks")]
    TooManyPlayed {
        /// How many.
        count: u64,
    },
    /// There is no memory.
    #[error("out of memory")]
    Memory,
}

impl From<AllocError> for TimerError {
    ghost from_gives = { λ _ e. e ≡ timer_error.Memory };

    fn from(_: AllocError) -> Self {
        TimerError::Memory
    }
}

impl<T: Drop> From<AllocFailed<T>> for TimerError {
    ghost from_gives = { λ _ e. e ≡ timer_error.Memory };

    fn from(_: AllocFailed<T>) -> Self {
        TimerError::Memory
    }
}
