// What a writer may answer.
ghost use Rattle.std.specs.Prelude.{◌≡◌};
ghost use Rattle.cy_writer.specs.Causes.{error_of};
ghost use Rattle.cy_writer.specs.declared.error.WriteError.TheVariants as write_error;

use cy_msg::NamesError;
use cy_section::SectionError;
use cy_store::StoreError;
use std::alloc::{AllocError, AllocFailed};
use thiserror::Error;

/// Why a record is not written further.
#[derive(Clone, Copy, Debug, PartialEq, Eq, Error)]
pub enum WriteError {
    /// The store failed in this call: its count rose. The writer is broken from now on.
    #[error("the store failed")]
    Failed,
    /// An earlier call of this writer answered `Failed`.
    #[error("an earlier write failed")]
    Broken,
    /// There is no memory.
    #[error("out of memory")]
    Memory,
}

impl From<AllocError> for WriteError {
    ghost from_gives = { λ _ e. e ≡ write_error.Memory };

    fn from(_: AllocError) -> Self {
        WriteError::Memory
    }
}

impl<T: Drop> From<AllocFailed<T>> for WriteError {
    ghost from_gives = { λ _ e. e ≡ write_error.Memory };

    fn from(_: AllocFailed<T>) -> Self {
        WriteError::Memory
    }
}

impl From<StoreError> for WriteError {
    ghost from_gives = { λ s e. e ≡ error_of s };

    fn from(error: StoreError) -> Self {
        match error {
            StoreError::Failed => WriteError::Failed,
            StoreError::Memory => WriteError::Memory,
        }
    }
}

/// The want of memory for which a text or bytes were not copied.
pub(crate) fn no_memory_for_text(error: NamesError) -> WriteError
    requires { error ≡ NamesError.Memory }
    ensures { result ≡ WriteError.Memory }
{
    let _memory = error;
    WriteError::Memory
}

/// The want of memory for which a section was not made.
pub(crate) fn no_memory_for_section(error: SectionError) -> WriteError
    requires { error ≡ SectionError.Memory }
    ensures { result ≡ WriteError.Memory }
{
    let _memory = error;
    WriteError::Memory
}
