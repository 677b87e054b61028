// What keeping names and texts may answer in place of a value.
ghost use Rattle.std.specs.Prelude.{◌≡◌};
ghost use Rattle.cy_msg.specs.declared.error.NamesError.TheVariants as names_error;

use std::alloc::{AllocError, AllocFailed};
use thiserror::Error;

/// What [`Names`](crate::Names), [`Text`](crate::Text) and [`Bytes`](crate::Bytes) may answer in
/// place of a value.
#[derive(Clone, Copy, Debug, PartialEq, Eq, Error)]
pub enum NamesError {
    /// There is no room for another name.
    #[error("too many channel names")]
    Full,
    /// There is no memory.
    #[error("out of memory")]
    Memory,
}

impl From<AllocError> for NamesError {
    ghost from_gives = { λ _ e. e ≡ names_error.Memory };

    fn from(_: AllocError) -> Self {
        NamesError::Memory
    }
}

impl<T: Drop> From<AllocFailed<T>> for NamesError {
    ghost from_gives = { λ _ e. e ≡ names_error.Memory };

    fn from(_: AllocFailed<T>) -> Self {
        NamesError::Memory
    }
}
