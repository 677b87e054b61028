// Files in memory.
ghost use Rattle.std.specs.Prelude.{◌≡◌, ◌≢◌, ◌≤◌, ◌-◌, ◌++◌, ◌⊎◌, ⊤, min, length, take, drop};
ghost use Rattle.std.specs.Prelude.{is_some, IfOk, OnOk, OnErr, IfErr, IfSome, IsErrOf, None, []};
ghost use Rattle.std.specs.Option.{option_copied, option_map};
ghost use Rattle.std.specs.FinMap.{get, insert};
ghost use Rattle.cy_store.specs.Files.{Holds};
ghost use Rattle.cy_store.specs.Write.{Create, Put, after_write, written_at, LeavesIn};
ghost use Rattle.cy_store.specs.Store.{SizeAnswer, ReadAnswer, CreateAnswer, PutAnswer};
ghost use Rattle.cy_store.specs.Store.{SameAnswer};
ghost use Rattle.cy_store.specs.Memory.{files_of, new_memory, shows_of, with_fault, with_miss};
ghost use Rattle.cy_store.specs.Memory.{with_call, with_put, plan_of_call, plan_of_put, put_over};
ghost use Rattle.cy_store.specs.Memory.{Works, turn_of_reading, turn_of_creation, turn_of_put};
ghost use Rattle.cy_store.specs.Memory.{after_reading, after_creation, after_put};

use crate::{Store, StoreError};
use std::alloc::{AllocError, Global};
use std::collections::BTreeMap;
use std::marker::Model;

/// Files in memory, any call of which can be made to fail.
///
/// Its counts are of 64 bits, and stay at their last value.
#[derive(Drop)]
pub struct MemStore {
    alloc: Global,
    files: BTreeMap<String, Vec<u8>>,
    faults: u64,
    misses: u64,
    calls: u64,
    puts: u64,
    failing_calls: BTreeMap<u64, usize>,
    failing_puts: BTreeMap<u64, usize>,
}

impl Model for MemStore {
    ghost use Rattle.std.specs.FinMap.{from_entries};
    ghost use Rattle.cy_store.specs.Memory.{Memory, memory_code, files_of};

    ghost Value = { Memory };

    ghost coded = { memory_code };

    ghost view = { λ s. record {
      files = files_of s.files.entries;
      faults = s.faults;
      misses = s.misses;
      calls = s.calls;
      puts = s.puts;
      failing_calls = from_entries s.failing_calls.entries;
      failing_puts = from_entries s.failing_puts.entries;
    } };
}

impl MemStore {
    /// A store with no file, no call of which is to fail.
    pub fn new(alloc: Global) -> Self
        ensures { result ≡ new_memory }
    {
        MemStore {
            alloc,
            files: BTreeMap::new(alloc),
            faults: 0,
            misses: 0,
            calls: 0,
            puts: 0,
            failing_calls: BTreeMap::new(alloc),
            failing_puts: BTreeMap::new(alloc),
        }
    }

    /// Makes the call of this number fail, counted from 1 over all methods of `Store`. If it is a
    /// `put_at`, it first writes `keep` bytes of its piece, at most all of them. It answers no
    /// other error than `Memory`.
    pub fn fail_at(&mut self, call: u64, keep: usize) -> Result<(), StoreError>
        ensures ok { OnOk result
            (self.new ≡ record self.old {
              failing_calls =
                  insert self.old.failing_calls call keep;
            }) }
        ensures err { OnErr result (self.new ≡ self.old) }
        ensures kind { IfErr result (λ e. e ≡ StoreError.Memory) }
    {
        self.failing_calls.insert(call, keep)?;
        Ok(())
    }

    /// Makes the `put_at` of this number fail, counted from 1 over `put_at` alone, after `keep`
    /// bytes of its piece, at most all of them. It answers no other error than `Memory`.
    pub fn fail_put(&mut self, put: u64, keep: usize) -> Result<(), StoreError>
        ensures ok { OnOk result
            (self.new ≡ record self.old { failing_puts = insert self.old.failing_puts put keep }) }
        ensures err { OnErr result (self.new ≡ self.old) }
        ensures kind { IfErr result (λ e. e ≡ StoreError.Memory) }
    {
        self.failing_puts.insert(put, keep)?;
        Ok(())
    }

    /// The bytes of a file, if the name is there. It is no call of `Store`, and is not counted.
    #[tactic(auto, using(crate::proofs::Found::get_files))]
    pub fn file(&self, name: &str) -> Option<&[u8]>
        ensures { option_copied result ≡ get self.now.files name.now }
    {
        match self.files.get(name) {
            Some(file) => Some(file.as_slice()),
            None => None,
        }
    }

    // Counts a call, and gives its plan if it is to fail.
    #[tactic(auto, using(crate::proofs::Found::get_plans))]
    fn begin_call(&mut self) -> Option<usize>
        ensures counted { self.new ≡ with_call self.old }
        ensures plan { result ≡ plan_of_call self.old }
    {
        self.calls = self.calls.saturating_add(1);
        self.failing_calls.get(&self.calls).copied()
    }

    // Counts a put, and gives its plan if it is to fail.
    #[tactic(auto, using(crate::proofs::Found::get_plans))]
    fn begin_put(&mut self) -> Option<usize>
        ensures counted { self.new ≡ with_put self.old }
        ensures plan { result ≡ plan_of_put self.old }
    {
        self.calls = self.calls.saturating_add(1);
        self.puts = self.puts.saturating_add(1);
        let by_call = self.failing_calls.get(&self.calls).copied();
        by_call.or(self.failing_puts.get(&self.puts).copied())
    }

    // Counts a fault.
    fn fault(&mut self) -> StoreError
        ensures counted { self.new ≡ with_fault self.old }
        ensures no_less { self.old.faults ≤ self.new.faults }
        ensures kind { result ≡ StoreError.Failed }
    {
        self.faults = self.faults.saturating_add(1);
        StoreError::Failed
    }

    // Counts a name that is not there.
    fn miss(&mut self) -> StoreError
        ensures counted { self.new ≡ with_miss self.old }
        ensures no_less { self.old.misses ≤ self.new.misses }
        ensures kind { result ≡ StoreError.Failed }
    {
        self.misses = self.misses.saturating_add(1);
        StoreError::Failed
    }
}

// Makes a file of no bytes, also in place of one of that name.
fn make(files: &mut BTreeMap<String, Vec<u8>>, alloc: Global, name: &str) -> Result<(), StoreError>
    ensures ok { OnOk result (files_of files.new.entries
        ≡ insert (files_of files.old.entries) name.now []) }
    ensures err { OnErr result (files_of files.new.entries ≡ files_of files.old.entries) }
    ensures kind { IfErr result (λ e. e ≡ StoreError.Memory) }
{
    let key = String::from_str(alloc, name)?;
    files.insert(key, Vec::new(alloc))?;
    Ok(())
}

// Puts bytes over those of a file at a place. Room for what goes past its end is made first.
fn overwrite(file: &mut Vec<u8>, at: usize, bytes: &[u8]) -> Result<(), AllocError>
    requires { at ≤ length file.old.items }
    ensures ok { OnOk result (file.new.items ≡ written_at file.old.items at bytes.now) }
    ensures err { OnErr result (file.new.items ≡ file.old.items) }
{
    let over = bytes.len().min(file.len() - at);
    file.extend_from_slice(&bytes[over..])?;
    file.as_mut_slice()[at..at + over].copy_from_slice(&bytes[..over]);
    Ok(())
}

// Puts bytes over a file that is there, and answers whether it is.
fn put(
    files: &mut BTreeMap<String, Vec<u8>>,
    name: &str,
    at: usize,
    bytes: &[u8],
) -> Result<bool, AllocError>
    requires { IfSome (get (files_of files.old.entries) name.now) (λ before. at ≤ length before) }
    ensures there { IfOk result (λ there. there
        ≡ is_some (get (files_of files.old.entries) name.now)) }
    ensures put { OnOk result (files_of files.new.entries ≡ put_over name.now at bytes.now
        (files_of files.old.entries)) }
    ensures err { OnErr result (files_of files.new.entries ≡ files_of files.old.entries) }
{
    match files.get_mut(name) {
        Some(file) => match overwrite(file, at, bytes) {
            Ok(()) => Ok(true),
            Err(e) => Err(e),
        },
        None => Ok(false),
    }
}

// Fills a buffer from its start with the bytes of a file from a place on, and answers how many
// these are: as many as both have.
fn copy_from(file: &[u8], at: u64, buf: &mut [u8]) -> usize
    ensures count { result ≡ min (length buf.old) (length file.now - at) }
    ensures copied { buf.new ≡ take result (drop at file.now) ++ drop result buf.old }
{
    let from = file.len().min(at as usize);
    let count = buf.len().min(file.len() - from);
    buf[..count].copy_from_slice(&file[from..from + count]);
    count
}

impl Store for MemStore {
    ghost shows = { shows_of };

    /// It misses a name that is not there, and fails where this call was to fail.
    fn size(&mut self, name: &str) -> Result<u64, StoreError>
        ensures answer { SizeAnswer (shows_of self.old) (shows_of self.new) name.now result }

        ensures after { self.new ≡ after_reading self.old name.now }
        ensures ok { OnOk result (turn_of_reading self.old name.now ≡ Works) }
        ensures err { IfErr result (λ e. (e ≡ StoreError.Failed)
            × (turn_of_reading self.old name.now ≢ Works)) }
    {
        if self.begin_call().is_some() {
            return Err(self.fault());
        }
        match self.file(name) {
            Some(file) => Ok(file.len() as u64),
            None => Err(self.miss()),
        }
    }

    /// It reads as many bytes as the file and the buffer have.
    fn read_at(&mut self, name: &str, at: u64, buf: &mut [u8]) -> Result<usize, StoreError>
        ensures answer { ReadAnswer (shows_of self.old) (shows_of self.new) name.now at buf.old
            buf.new result }

        ensures count { IfOk result (λ n. Holds (shows_of self.old).files name.now (λ bytes. n
            ≡ min (length buf.old) (length bytes - at))) }
        ensures after { self.new ≡ after_reading self.old name.now }
        ensures ok { OnOk result (turn_of_reading self.old name.now ≡ Works) }
        ensures err { IfErr result (λ e. (e ≡ StoreError.Failed)
            × (turn_of_reading self.old name.now ≢ Works)) }
    {
        if self.begin_call().is_some() {
            return Err(self.fault());
        }
        match self.file(name) {
            Some(file) => Ok(copy_from(file, at, buf)),
            None => Err(self.miss()),
        }
    }

    fn create(&mut self, name: &str) -> Result<(), StoreError>
        ensures answer { CreateAnswer (shows_of self.old) (shows_of self.new) name.now result }

        ensures ok { OnOk result ((turn_of_creation self.old ≡ Works)
            × (self.new ≡ after_creation self.old name.now)) }
        ensures failed { IsErrOf result StoreError.Failed → (turn_of_creation self.old ≢ Works)
            × (self.new ≡ after_creation self.old name.now) }
        ensures memory { IsErrOf result StoreError.Memory → self.new ≡ with_call self.old }
    {
        if self.begin_call().is_some() {
            return Err(self.fault());
        }
        make(&mut self.files, self.alloc, name)
    }

    fn put_at(&mut self, name: &str, at: u64, bytes: &[u8]) -> Result<(), StoreError>
        requires { IfSome (get self.old.files name.now) (λ before. at ≤ length before) }
        ensures answer { PutAnswer (shows_of self.old) (shows_of self.new) name.now at bytes.now
            result }

        ensures ok { OnOk result ((turn_of_put self.old name.now ≡ Works)
            × (self.new ≡ after_put self.old name.now at bytes.now)) }
        ensures memory { IsErrOf result StoreError.Memory → self.new ≡ with_put self.old }
        ensures failed { IsErrOf result StoreError.Failed → (turn_of_put self.old name.now ≢ Works)
            × (self.new ≡ after_put self.old name.now at bytes.now) }
    {
        if let Some(keep) = self.begin_put() {
            let kept = keep.min(bytes.len());
            put(&mut self.files, name, at as usize, &bytes[..kept])?;
            return Err(self.fault());
        }
        if put(&mut self.files, name, at as usize, bytes)? {
            Ok(())
        } else {
            Err(self.miss())
        }
    }

    fn same(&mut self, name: &str, other: &str) -> bool
        ensures answer { SameAnswer (shows_of self.old) (shows_of self.new) name.now other.now
            result }

        ensures after { self.new ≡ self.old }
    {
        name == other
    }
}
