// Reads a file whole.
ghost use Rattle.cy_store.specs.Whole.{ReadFileAnswer};

use crate::range::fill;
use crate::{Store, StoreError};
use std::alloc::Global;

/// What a file was read as.
#[derive(Debug, Drop)]
pub enum ReadFile {
    /// All its bytes.
    Whole(Vec<u8>),
    /// It is longer than asked for, and was not read.
    Longer {
        /// Its bytes.
        size: u64,
    },
}

/// Reads a file whole, in pieces of at most 1,048,576 bytes. One of more than `longest` bytes is
/// `Longer`, with its size, and is not read. A read of no byte before the told size ends the file
/// there. A name that is not there is `Failed`.
pub fn read_file<S: Store>(
    alloc: Global,
    store: &mut S,
    name: &str,
    longest: u64,
) -> Result<ReadFile, StoreError>
    ensures { ReadFileAnswer (S.shows store.old) (S.shows store.new) name.now longest result }
{
    let size = store.size(name)?;
    if size > longest {
        return Ok(ReadFile::Longer { size });
    }
    let mut bytes = vec![in alloc; 0u8; size as usize]?;
    let filled = fill(store, name, 0, &mut bytes)?;
    bytes.truncate(filled);
    Ok(ReadFile::Whole(bytes))
}
