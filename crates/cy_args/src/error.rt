// Why the words are not read.
ghost use Rattle.std.specs.Prelude.{◌≡◌};
ghost use Rattle.clap.specs.Values.{kind_of};
ghost use Rattle.clap.specs.declared.error.kind.ErrorKind.TheVariants as clap_kind;
ghost use Rattle.cy_args.specs.declared.error.WordsError.TheVariants as words_error;

use std::alloc::{AllocError, AllocFailed};
use thiserror::Error;

/// Why the words are not read.
#[derive(Clone, Copy, Debug, PartialEq, Eq, Error)]
pub enum WordsError {
    /// There is no memory.
    #[error("out of memory")]
    Memory,
}

impl From<AllocError> for WordsError {
    ghost from_gives = { λ _ e. e ≡ words_error.Memory };

    fn from(_: AllocError) -> Self {
        WordsError::Memory
    }
}

impl WordsError {
    // What `clap` answers to words that it takes can only be want of memory.
    pub(crate) fn of_taken(error: clap::Error) -> Self
        requires { kind_of error ≡ clap_kind.OutOfMemory }
    {
        let _out_of_memory = error;
        WordsError::Memory
    }
}
