// What reading a record may answer.
ghost use Rattle.std.specs.Prelude.{◌≡◌, ◌++◌, OnOk};
ghost use Rattle.cy_reader.specs.FaultText.{is_load_limit, load_text};
ghost use Rattle.cy_reader.specs.declared.error.LoadError.TheVariants as load_error;
ghost use Rattle.cy_reader.specs.Record.{fault_of, store_fault};

use cy_msg::{push_limit, push_number};
use cy_section::SectionError;
use cy_store::StoreError;
use std::alloc::{AllocError, AllocFailed};

/// Why a file was not read as a record, or a record not played.
#[derive(Clone, Copy, Debug, PartialEq, Eq)]
pub enum LoadError {
    /// The file does not begin with the head of a header.
    NotRecord,
    /// A section is faulty.
    Section(SectionError),
    /// The chunks are compressed.
    Compressed {
        /// The kind of compression.
        kind: u32,
    },
    /// The file is longer than any that is read.
    FileTooLarge {
        /// Its bytes.
        count: u64,
    },
    /// A message's content is longer than any that is read.
    ContentTooLarge {
        /// Its bytes.
        count: u64,
    },
    /// A channel's name is longer than any that is read.
    NameTooLong {
        /// Its bytes.
        count: u64,
    },
    /// The names, types and descriptions of all channels together are longer than those that are
    /// kept.
    ChannelsTooLarge {
        /// Their bytes, those of the channel that passes the limit included.
        count: u64,
    },
    /// There are more channels than are kept.
    TooManyChannels,
    /// More messages would be played than can be.
    TooManyPlayed {
        /// Their number.
        count: u64,
    },
    /// The store failed.
    Store,
    /// There is no memory.
    Memory,
}

impl LoadError {
    /// Adds its text to others. The only error is want of memory.
    pub fn push_to(&self, to: &mut Vec<u8>) -> Result<(), AllocError>
        ensures { OnOk result (to.new.items ≡ to.old.items ++ load_text self.now) }
    {
        match self {
            LoadError::NotRecord => to.extend_from_slice(b"not a record"),
            LoadError::Section(error) => error.push_to(to),
            LoadError::Compressed { kind } => {
                push_number(to, "compressed chunks of kind ", u64::from(*kind))
            }
            LoadError::FileTooLarge { count } => push_limit(to, "FileTooLarge", *count),
            LoadError::ContentTooLarge { count } => push_limit(to, "ContentTooLarge", *count),
            LoadError::NameTooLong { count } => push_limit(to, "NameTooLong", *count),
            LoadError::ChannelsTooLarge { count } => push_limit(to, "ChannelsTooLarge", *count),
            LoadError::TooManyChannels => push_limit(to, "TooManyChannels", 1025),
            LoadError::TooManyPlayed { count } => push_limit(to, "TooManyPlayed", *count),
            LoadError::Store => to.extend_from_slice(b"the store failed"),
            LoadError::Memory => to.extend_from_slice(b"out of memory"),
        }
    }

    /// Whether it is a limit that was passed.
    pub fn is_limit(&self) -> bool
        ensures { result ≡ is_load_limit self.now }
    {
        match self {
            LoadError::Section(error) => error.is_limit(),
            error => matches!(
                error,
                LoadError::FileTooLarge { .. }
                    | LoadError::ContentTooLarge { .. }
                    | LoadError::NameTooLong { .. }
                    | LoadError::ChannelsTooLarge { .. }
                    | LoadError::TooManyChannels
                    | LoadError::TooManyPlayed { .. }
            ),
        }
    }
}

impl From<AllocError> for LoadError {
    ghost from_gives = { λ _ e. e ≡ load_error.Memory };

    fn from(_: AllocError) -> Self {
        LoadError::Memory
    }
}

impl<T: Drop> From<AllocFailed<T>> for LoadError {
    ghost from_gives = { λ _ e. e ≡ load_error.Memory };

    fn from(_: AllocFailed<T>) -> Self {
        LoadError::Memory
    }
}

impl From<SectionError> for LoadError {
    ghost from_gives = { λ fault e. e ≡ fault_of fault };

    fn from(fault: SectionError) -> Self {
        match fault {
            SectionError::Memory => LoadError::Memory,
            fault => LoadError::Section(fault),
        }
    }
}

impl From<StoreError> for LoadError {
    ghost from_gives = { λ fault e. e ≡ store_fault fault };

    fn from(fault: StoreError) -> Self {
        match fault {
            StoreError::Failed => LoadError::Store,
            StoreError::Memory => LoadError::Memory,
        }
    }
}
