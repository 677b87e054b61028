// A file compared with a text, piece by piece.
ghost use Rattle.std.specs.Prelude.{◌≡◌, ◌≤◌, ◌<◌, ◌+◌, ◌^◌, length};
ghost use Rattle.cy_recording.specs.private.Unlike.{unlike};
ghost use Rattle.cy_recording.specs.private.Pieces.{ComparesSome, ComparesAll};

use cy_store::{Store, StoreError};
use std::alloc::Global;

// The most bytes that are read by one call.
const PIECE: usize = 262_144;

// What was found of a text in a file.
#[derive(Clone, Copy)]
pub(crate) enum Part {
    // So many of its next bytes are the same.
    Same(usize),
    // They first differ at this place.
    Unlike(u64),
}

// The first place of a text, counted from `at`, at which the file's bytes are not its own. Both are
// mostly the same, which is found faster of them as wholes than byte by byte.
fn first_unlike(at: u64, file: &[u8], text: &[u8]) -> Option<u64>
    requires { at + length text.now < 2 ^ 64 }
    ensures { result ≡ unlike at file.now text.now }
{
    if file == text {
        return None;
    }
    find_unlike(at, file, text)
}

// The same, byte by byte.
fn find_unlike(at: u64, file: &[u8], text: &[u8]) -> Option<u64>
    requires { at + length text.now < 2 ^ 64 }
    ensures { result ≡ unlike at file.now text.now }
{
    for n in 0..text.len() {
        if n >= file.len() {
            return Some(at + n as u64);
        }
        if file[n] != text[n] {
            return Some(at + n as u64);
        }
    }
    None
}

// Compares the next bytes of a text with those of a file, as far as one read gets.
fn compare_some<S: Store>(
    store: &mut S,
    name: &str,
    at: u64,
    text: &[u8],
    buffer: &mut [u8],
) -> Result<Part, StoreError>
    requires fits { at + length text.now < 2 ^ 64 }
    requires some { 1 ≤ length text.now }
    requires room { 1 ≤ length buffer.old }
    ensures { ComparesSome at name.now text.now (length text.now) (S.shows store.old)
        (S.shows store.new) result }
{
    let size = text.len().min(buffer.len());
    let read = store.read_at(name, at, &mut buffer[..size])?;
    if read == 0 {
        return Ok(Part::Unlike(at));
    }
    match first_unlike(at, &buffer[..read], &text[..read]) {
        Some(place) => Ok(Part::Unlike(place)),
        None => Ok(Part::Same(read)),
    }
}

// Compares a text with the bytes that a file has from a place on, through a buffer.
fn compare_through<S: Store>(
    store: &mut S,
    name: &str,
    at: u64,
    text: &[u8],
    buffer: &mut [u8],
) -> Result<Option<u64>, StoreError>
    requires fits { at + length text.now < 2 ^ 64 }
    requires room { 1 ≤ length buffer.old }
    ensures { ComparesAll at name.now text.now (S.shows store.old) (S.shows store.new) result }
{
    let mut done = 0;
    while done < text.len() {
        match compare_some(store, name, at + done as u64, &text[done..], buffer)? {
            Part::Same(n) => done += n,
            Part::Unlike(place) => return Ok(Some(place)),
        }
    }
    Ok(None)
}

// Compares a text with the bytes that a file has from a place on: the first place at which the file
// hasn't the text's byte. It reads at most a piece at a time, and no further than to that place's
// piece.
pub(crate) fn compare<S: Store>(
    alloc: Global,
    store: &mut S,
    name: &str,
    at: u64,
    text: &[u8],
) -> Result<Option<u64>, StoreError>
    requires { at + length text.now < 2 ^ 64 }
    ensures { ComparesAll at name.now text.now (S.shows store.old) (S.shows store.new) result }
{
    let mut buffer = vec![in alloc; 0u8; text.len().clamp(1, PIECE)]?;
    compare_through(store, name, at, text, &mut buffer)
}
