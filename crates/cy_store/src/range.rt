// Reads a part of a file, a piece at a time.
ghost use Rattle.std.specs.Prelude.{◌≡◌, ◌≤◌, ◌<◌, ◌+◌, ◌^◌, length, take, drop, IfOk, IsErrOf};
ghost use Rattle.cy_store.specs.Files.{Holds};
ghost use Rattle.cy_store.specs.Store.{HasCauses, ReadAnswer};
ghost use Rattle.cy_store.specs.Range.{RangeAnswer};

use crate::{Store, StoreError};
use std::alloc::Global;

/// The most bytes that are read by one call.
const PIECE: usize = 1_048_576;

// Reads as `read_at` does, at most a piece.
fn read_piece<S: Store>(
    store: &mut S,
    name: &str,
    at: u64,
    rest: &mut [u8],
) -> Result<usize, StoreError>
    ensures { ReadAnswer (S.shows store.old) (S.shows store.new) name.now at rest.old rest.new
        result }
{
    let size = rest.len().min(PIECE);
    store.read_at(name, at, &mut rest[..size])
}

/// Reads a file from a place on until the buffer is full or the file ends, in pieces of at most
/// 1,048,576 bytes, and answers how many bytes it read. It reads at least once, so that a name that
/// is not there fails for an empty buffer too.
pub fn fill<S: Store>(
    store: &mut S,
    name: &str,
    at: u64,
    buffer: &mut [u8],
) -> Result<usize, StoreError>
    requires { at + length buffer.old < 2 ^ 64 }
    ensures within { IfOk result (λ n. n ≤ length buffer.old) }
    ensures read { IfOk result (λ n. Holds (S.shows store.old).files name.now (λ bytes.
        take n buffer.new ≡ take (length buffer.old) (drop at bytes))) }
    ensures same { (S.shows store.new).files ≡ (S.shows store.old).files }
    ensures causes { HasCauses (IsErrOf result StoreError.Failed) (S.shows store.old)
        (S.shows store.new) name.now }
{
    let mut filled = 0;
    loop {
        let read = read_piece(store, name, at + filled as u64, &mut buffer[filled..])?;
        filled += read;
        if read == 0 || filled == buffer.len() {
            return Ok(filled);
        }
    }
}

/// Reads so many bytes of a file from a place on, in pieces of at most 1,048,576 bytes. A read of
/// no byte before them ends the file there, and fewer are answered. A name that is not there is
/// `Failed`.
pub fn read_range<S: Store>(
    alloc: Global,
    store: &mut S,
    name: &str,
    at: u64,
    size: usize,
) -> Result<Vec<u8>, StoreError>
    requires { at + size < 2 ^ 64 }
    ensures { RangeAnswer (S.shows store.old) (S.shows store.new) name.now at size result }
{
    let mut bytes = vec![in alloc; 0u8; size]?;
    let filled = fill(store, name, at, &mut bytes)?;
    bytes.truncate(filled);
    Ok(bytes)
}
