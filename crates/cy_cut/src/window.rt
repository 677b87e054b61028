// The bytes of a file that were read ahead of the section that is looked at, so that many small
// sections come of one read.
ghost use Rattle.std.specs.Prelude.{ℕ, List, ◌≡◌, ◌≤◌, ◌<◌, ◌+◌, ◌^◌, length, take, drop, IfOk};
ghost use Rattle.std.specs.Prelude.{IsErrOf};
ghost use Rattle.cy_store.specs.Files.{Holds};
ghost use Rattle.cy_store.specs.Range.{RangeAnswer};
ghost use Rattle.cy_store.specs.Store.{HasCauses};
ghost use Rattle.cy_cut.specs.Sections.{longest_file};
ghost use Rattle.cy_cut.specs.private.Window.{rest, IsRead, IsFrontAt, ReachAnswer};

use cy_section::HEAD_SIZE;
use cy_store::{Store, StoreError, fill};
use std::alloc::Global;

// The most bytes that are read ahead, and how many are behind a large body: the header of a chunk,
// and the head of its body.
const MOST_AHEAD: usize = 65_536;

const BEHIND_LARGE: usize = 128;

// Bytes of a file from a place on, and how many are to be read next. That number begins with a
// section's head, since a large body is read by itself, and doubles while sections are small.
#[derive(Drop)]
pub(crate) struct Window {
    pub at: u64,
    pub bytes: Vec<u8>,
    pub ahead: usize,
}

// Reads as `fill` does, where the first bytes are known.
fn fill_behind<S: Store>(
    store: &mut S,
    name: &str,
    at: u64,
    front: &[u8],
    buffer: &mut [u8],
) -> Result<usize, StoreError>
    requires fits { (length front.now ≤ length buffer.old) × (at + length buffer.old < 2 ^ 64) }
    requires front { Holds (S.shows store.old).files name.now (IsFrontAt at front.now) }
    ensures within { IfOk result (λ n. n ≤ length buffer.old) }
    ensures read { IfOk result (λ n. Holds (S.shows store.old).files name.now (λ file.
        take n buffer.new ≡ take (length buffer.old) (drop at file))) }
    ensures same { (S.shows store.new).files ≡ (S.shows store.old).files }
    ensures causes { HasCauses (IsErrOf result StoreError.Failed) (S.shows store.old)
        (S.shows store.new) name.now }
{
    let known = front.len();
    buffer[..known].copy_from_slice(front);
    let read = fill(store, name, at + known as u64, &mut buffer[known..])?;
    Ok(known + read)
}

// Bytes of a file from a place on, of which the first are known: the others are read.
pub(crate) fn read_behind<S: Store>(
    alloc: Global,
    store: &mut S,
    name: &str,
    at: u64,
    front: &[u8],
    size: usize,
) -> Result<Vec<u8>, StoreError>
    requires inside { (length front.now ≤ size) × (at + size < 2 ^ 64) }
    requires front { Holds (S.shows store.old).files name.now (IsFrontAt at front.now) }
    ensures { RangeAnswer (S.shows store.old) (S.shows store.new) name.now at size result }
{
    let mut bytes = vec![in alloc; 0u8; size]?;
    let filled = fill_behind(store, name, at, front, &mut bytes)?;
    bytes.truncate(filled);
    Ok(bytes)
}

impl Window {
    // No bytes.
    pub(crate) fn new(alloc: Global) -> Self
        ensures { (file : List ℕ) → IsRead file result }
    {
        Window {
            at: 0,
            bytes: Vec::new(alloc),
            ahead: HEAD_SIZE,
        }
    }

    // Its bytes from a place on, none where it doesn't reach there.
    fn rest(&self, at: u64) -> &[u8]
        ensures { result.now ≡ rest self.now at }
    {
        if at < self.at {
            return &[];
        }
        let start = self.bytes.len().min((at - self.at) as usize);
        &self.bytes[start..]
    }

    // So many of them at most.
    pub(crate) fn front(&self, at: u64, most: usize) -> &[u8]
        ensures { result.now ≡ take most (rest self.now at) }
    {
        let rest = self.rest(at);
        &rest[..rest.len().min(most)]
    }

    // Reads ahead from a place on: so many bytes at least, and no more than the file has.
    fn read_ahead<S: Store>(
        &mut self,
        alloc: Global,
        store: &mut S,
        name: &str,
        at: u64,
        size: u64,
        need: usize,
    ) -> Result<(), StoreError>
        requires inside { (at + need ≤ size) × (size ≤ longest_file) }
        requires missing { length (rest self.old at) < need }
        requires read { Holds (S.shows store.old).files name.now (λ file. IsRead file self.old) }
        ensures { ReachAnswer (S.shows store.old) (S.shows store.new) name.now at need self.new
            result }
    {
        let ask = self.ahead.max(need).min((size - at) as usize);
        let bytes = read_behind(alloc, store, name, at, self.rest(at), ask)?;
        self.at = at;
        self.bytes = bytes;
        self.ahead = self.ahead.saturating_mul(2).min(MOST_AHEAD);
        Ok(())
    }

    // Makes sure that it has so many bytes from a place on, or as many as there are.
    pub(crate) fn reach<S: Store>(
        &mut self,
        alloc: Global,
        store: &mut S,
        name: &str,
        at: u64,
        size: u64,
        need: usize,
    ) -> Result<(), StoreError>
        requires inside { (at + need ≤ size) × (size ≤ longest_file) }
        requires read { Holds (S.shows store.old).files name.now (λ file. IsRead file self.old) }
        ensures { ReachAnswer (S.shows store.old) (S.shows store.new) name.now at need self.new
            result }
    {
        if self.rest(at).len() >= need {
            return Ok(());
        }
        self.read_ahead(alloc, store, name, at, size, need)
    }

    // Forgets its bytes, behind a body that was read by itself.
    pub(crate) fn forget(&mut self)
        ensures { (file : List ℕ) → IsRead file self.new }
    {
        self.bytes.clear();
        self.ahead = BEHIND_LARGE;
    }
}
