// What a store and a sink may answer.
ghost use Rattle.std.specs.Prelude.{◌≡◌};
ghost use Rattle.cy_store.specs.declared.error.StoreError.TheVariants as store_error;
ghost use Rattle.cy_store.specs.declared.error.SinkError.TheVariants as sink_error;

use std::alloc::{AllocError, AllocFailed};
use thiserror::Error;

/// What a [`Store`](crate::Store) may answer in place of a value.
#[derive(Clone, Copy, Debug, PartialEq, Eq, Error)]
pub enum StoreError {
    /// The store failed, or the name is not there.
    #[error("the store failed")]
    Failed,
    /// There is no memory.
    #[error("out of memory")]
    Memory,
}

impl From<AllocError> for StoreError {
    ghost from_gives = { λ _ e. e ≡ store_error.Memory };

    fn from(_: AllocError) -> Self {
        StoreError::Memory
    }
}

impl<T: Drop> From<AllocFailed<T>> for StoreError {
    ghost from_gives = { λ _ e. e ≡ store_error.Memory };

    fn from(_: AllocFailed<T>) -> Self {
        StoreError::Memory
    }
}

/// What a [`Sink`](crate::Sink) may answer in place of a success.
#[derive(Clone, Copy, Debug, PartialEq, Eq, Error)]
pub enum SinkError {
    /// The sink failed.
    #[error("the output failed")]
    Failed,
    /// There is no memory.
    #[error("out of memory")]
    Memory,
}

impl From<AllocError> for SinkError {
    ghost from_gives = { λ _ e. e ≡ sink_error.Memory };

    fn from(_: AllocError) -> Self {
        SinkError::Memory
    }
}

impl<T: Drop> From<AllocFailed<T>> for SinkError {
    ghost from_gives = { λ _ e. e ≡ sink_error.Memory };

    fn from(_: AllocFailed<T>) -> Self {
        SinkError::Memory
    }
}
