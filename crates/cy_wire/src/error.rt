// What reading and writing the wire form may answer.
ghost use Rattle.std.specs.Prelude.{◌≡◌};
ghost use Rattle.cy_wire.specs.declared.error.WireError.TheVariants as wire_error;

use std::alloc::{AllocError, AllocFailed};
use thiserror::Error;

/// A fault of bytes in the wire form, with its place, or want of memory.
#[derive(Clone, Copy, Debug, PartialEq, Eq, Error)]
pub enum WireError {
    /// A varint, a fixed number or a byte string goes past the end.
    #[error("cut at {at}")]
    Cut {
        /// Its first byte; of a byte string, the byte after its length.
        at: u64,
    },
    /// A varint whose tenth byte has its high bit set.
    #[error("a varint of more than ten bytes at {at}")]
    LongVarint {
        /// Its first byte.
        at: u64,
    },
    /// A tag above 4294967295, of field 0, or of an unknown wire type.
    #[error("no tag at {at}")]
    BadTag {
        /// Its first byte.
        at: u64,
    },
    /// A tag of a group, which is not read.
    #[error("a group at {at}")]
    Group {
        /// Its first byte.
        at: u64,
    },
    /// There is no memory.
    #[error("out of memory")]
    Memory,
}

impl From<AllocError> for WireError {
    ghost from_gives = { λ _ e. e ≡ wire_error.Memory };

    fn from(_: AllocError) -> Self {
        WireError::Memory
    }
}

impl<T: Drop> From<AllocFailed<T>> for WireError {
    ghost from_gives = { λ _ e. e ≡ wire_error.Memory };

    fn from(_: AllocFailed<T>) -> Self {
        WireError::Memory
    }
}
