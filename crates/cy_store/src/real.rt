// Files of the machine.
ghost use Rattle.std.specs.Prelude.{◌≡◌, ◌≢◌, ◌≤◌, ◌<◌, ◌++◌, ◌⊎◌, ⊤, length, take, drop, IfOk};
ghost use Rattle.std.specs.Prelude.{OnOk, OnErr, IsErrOf};
ghost use Rattle.std.specs.Option.{option_map};
ghost use Rattle.std.specs.IoError.{error_kind};
ghost use Rattle.std.specs.Io.KnownBytes.{Appends, Consumes, IsAtEnd};
ghost use Rattle.cy_store.specs.Files.{Holds};
ghost use Rattle.cy_store.specs.Write.{Create, Put, after_write, LeavesIn};
ghost use Rattle.cy_store.specs.Store.{HasCause, HasFault};
ghost use Rattle.cy_store.specs.Real.{new_counts, count_fault, count_miss, untold_store};

use crate::alike::is_one_file;
use crate::{Store, StoreError};
use std::alloc::AllocGlobal;
use std::fs::{File, Files, OpenFile, OpenOptions};
use std::io;
use std::io::{ErrorKind, Read, Seek, SeekFrom, Write};
use std::marker::Model;

/// Files of the machine, by their paths. It tells no content.
///
/// A path that is not there counts as a miss, where it is to be read or written, and any other
/// failure as a fault. Its counts are of 64 bits, and stay at their last value.
#[derive(Drop)]
pub struct RealStore<'a, R: Files> {
    rt: &'a R,
    faults: u64,
    misses: u64,
}

impl<'a, R: Files> Model for RealStore<'a, R> {
    ghost use Rattle.cy_store.specs.Real.{Counts};

    ghost Value = { Counts };

    ghost view = { λ s. record { faults = s.faults; misses = s.misses } };
}

impl<'a, R: Files> RealStore<'a, R> {
    /// The files that this runtime reaches.
    pub fn new(rt: &'a R) -> Self
        ensures { result ≡ new_counts }
    {
        RealStore {
            rt,
            faults: 0,
            misses: 0,
        }
    }

    // Counts an error as a fault, unless it is want of memory, and says which.
    fn fault(&mut self, error: io::Error) -> StoreError
        ensures memory { error_kind error ≡ ErrorKind.OutOfMemory → (result ≡ StoreError.Memory)
            × (self.new ≡ self.old) }
        ensures failed { error_kind error ≢ ErrorKind.OutOfMemory → (result ≡ StoreError.Failed)
            × (self.new ≡ count_fault self.old) }
        ensures no_less { self.old.faults ≤ self.new.faults }
    {
        if error.kind() == ErrorKind::OutOfMemory {
            return StoreError::Memory;
        }
        self.faults = self.faults.saturating_add(1);
        StoreError::Failed
    }

    // The same, where a path that is not there counts as a miss.
    fn fault_or_miss(&mut self, error: io::Error) -> StoreError
        ensures missed { error_kind error ≡ ErrorKind.NotFound → (result ≡ StoreError.Failed)
            × (self.new ≡ count_miss self.old) }
        ensures memory { error_kind error ≡ ErrorKind.OutOfMemory → (result ≡ StoreError.Memory)
            × (self.new ≡ self.old) }
        ensures failed { error_kind error ≢ ErrorKind.NotFound → error_kind error
            ≢ ErrorKind.OutOfMemory → (result ≡ StoreError.Failed)
            × (self.new ≡ count_fault self.old) }
        ensures no_fewer_faults { self.old.faults ≤ self.new.faults }
        ensures no_fewer_misses { self.old.misses ≤ self.new.misses }
    {
        if error.kind() == ErrorKind::NotFound {
            self.misses = self.misses.saturating_add(1);
            return StoreError::Failed;
        }
        self.fault(error)
    }
}

// One read. One that was interrupted is made again.
fn read_some<F: Read>(reader: &mut F, buf: &mut [u8]) -> io::Result<usize>
    ensures within { IfOk result (λ n. n ≤ length buf.old) }
    ensures bytes { IfOk result (λ n. Consumes (F.remaining reader.old) (F.remaining reader.new)
        (take n buf.new)) }
    ensures end { IfOk result (λ n. n ≡ 0 → 0 < length buf.old → IsAtEnd (F.remaining reader.new)) }
{
    for _ in 0..u64::MAX {
        match reader.read(buf) {
            Err(e) if e.kind() == ErrorKind::Interrupted => {}
            answer => return answer,
        }
    }
    Err(io::Error::from(ErrorKind::Interrupted))
}

// Reads until the buffer is full or the reader ends, and answers how many bytes came.
fn fill<F: Read>(reader: &mut F, buf: &mut [u8]) -> io::Result<usize>
    ensures within { IfOk result (λ n. n ≤ length buf.old) }
    ensures bytes { IfOk result (λ n. Consumes (F.remaining reader.old) (F.remaining reader.new)
        (take n buf.new)) }
    ensures end { IfOk result (λ n. n < length buf.old → IsAtEnd (F.remaining reader.new)) }
{
    let mut filled = 0usize;
    while filled < buf.len() {
        let count = read_some(reader, &mut buf[filled..])?;
        if count == 0 {
            break;
        }
        filled += count;
    }
    Ok(filled)
}

// The length of the file of a path.
fn file_size<R: Files>(rt: &R, path: &str) -> io::Result<u64> {
    Ok(File::open(rt, path)?.metadata()?.len())
}

// Reads bytes of the file of a path, from a place on.
fn read_from<R: Files>(rt: &R, path: &str, at: u64, buf: &mut [u8]) -> io::Result<usize>
    ensures { IfOk result (λ n. n ≤ length buf.old) }
{
    let mut file = File::open(rt, path)?;
    file.seek(SeekFrom::Start(at))?;
    fill(&mut file, buf)
}

// Writes all bytes behind what a writer holds. A write that was interrupted is made again. A write
// of no byte is an error.
fn put_all<W: Write>(writer: &mut W, bytes: &[u8]) -> io::Result<()>
    ensures { OnOk result (Appends (W.contents writer.old) (W.contents writer.new) bytes.now) }
{
    writer.write_all(bytes)
}

// Writes all bytes into the file of a path, which is there, at a place.
fn write_to<R: Files>(rt: &R, path: &str, at: u64, bytes: &[u8]) -> io::Result<()> {
    let mut file = OpenOptions::new().write(true).open(rt, path)?;
    file.seek(SeekFrom::Start(at))?;
    put_all(&mut file, bytes)
}

impl<R: Files + AllocGlobal> Store for RealStore<'_, R> {
    ghost shows = { untold_store };

    fn size(&mut self, name: &str) -> Result<u64, StoreError> {
        match file_size(self.rt, name) {
            Ok(size) => Ok(size),
            Err(e) => Err(self.fault_or_miss(e)),
        }
    }

    fn read_at(&mut self, name: &str, at: u64, buf: &mut [u8]) -> Result<usize, StoreError> {
        match read_from(self.rt, name, at, buf) {
            Ok(count) => Ok(count),
            Err(e) => Err(self.fault_or_miss(e)),
        }
    }

    fn create(&mut self, name: &str) -> Result<(), StoreError> {
        match File::create(self.rt, name) {
            Ok(_) => Ok(()),
            Err(e) => Err(self.fault(e)),
        }
    }

    fn put_at(&mut self, name: &str, at: u64, bytes: &[u8]) -> Result<(), StoreError> {
        match write_to(self.rt, name, at, bytes) {
            Ok(()) => Ok(()),
            Err(e) => Err(self.fault_or_miss(e)),
        }
    }

    fn same(&mut self, name: &str, other: &str) -> bool {
        is_one_file(self.rt, name, other)
    }
}
