// A store into which a record is written to be compared.
ghost use Rattle.std.specs.Prelude.{◌≡◌};
ghost use Rattle.cy_recording.specs.private.Keeping.{IsKept, IsSeen};

use crate::known::Known;
use crate::pieces::compare;
use crate::shown::{Note, Shown};
use cy_store::{Store, StoreError};
use std::alloc::Global;
use std::marker::PhantomData;

/// The length of the section of a record's header, which is put first, and once more at the end.
pub(crate) const HEADER: usize = 2064;

// What is put into it is compared with a file of another store, and dropped; it shows the files of
// a store that keeps all. Of them it keeps the header alone, since that is put twice.
#[derive(Drop)]
pub(crate) struct Compared<'a, S: Store, K: Known> {
    pub store: &'a mut S,
    pub name: &'a str,
    pub alloc: Global,
    // The header that was put last.
    pub header: Vec<u8>,
    // How many bytes the file would have.
    pub size: u64,
    // Where the file first differs from what was put behind the header.
    pub place: Option<u64>,
    // Whether the store has failed.
    pub failed: bool,
    pub shown: Shown,
    pub known: PhantomData<K>,
    ghost lender: { store.ghost_name ≡ K.lender },
    ghost named: { name.now ≡ K.name },
    ghost kept: { IsKept K.name K.start (S.shows store.now) failed },
    ghost seen: { IsSeen K.name K.start.files shown.files header.items size place },
}

impl<S: Store, K: Known> Compared<'_, S, K> {
    ghost use Rattle.std.specs.Prelude.{◌≡◌, ◌≤◌, ◌<◌, ◌+◌, ◌^◌, length, OnOk, IfOk};
    ghost use Rattle.cy_store.specs.Write.{Put};
    ghost use Rattle.cy_recording.specs.private.Unlike.{unlike, Told};
    ghost use Rattle.cy_recording.specs.private.Keeping.{Takes, Looks, Answers};

    // Compares bytes with the file from a place on, and notes it where the store fails.
    fn look_at(&mut self, at: u64, bytes: &[u8]) -> Result<Option<u64>, StoreError>
        requires { at + length bytes.now < 2 ^ 64 }
        ensures answers { Answers K.name K.start.files at bytes.now result }
        ensures shown { self.new.shown.files ≡ self.old.shown.files }
        ensures place { self.new.place ≡ self.old.place }
        ensures failed { OnOk result (self.new.failed ≡ self.old.failed) }
    {
        match compare(self.alloc, self.store, self.name, at, bytes) {
            Ok(place) => Ok(place),
            Err(StoreError::Memory) => Err(StoreError::Memory),
            Err(StoreError::Failed) => {
                self.failed = true;
                Err(StoreError::Memory)
            }
        }
    }

    // Where the file first differs from what was put behind the header and these bytes behind that.
    fn look(&mut self, bytes: &[u8]) -> Result<Option<u64>, StoreError>
        requires behind { 2064 ≤ self.old.size }
        requires fits { self.old.size + length bytes.now < 2 ^ 64 }
        ensures { Looks K.name K.start.files bytes.now self.old.shown.files self.new.shown.files
            result }
    {
        match self.place {
            Some(place) => Ok(Some(place)),
            None => self.look_at(self.size, bytes),
        }
    }

    // Takes the header, in place of the one that was put before.
    fn put_header(&mut self, bytes: &[u8]) -> Result<(), StoreError>
        requires { length bytes.now ≡ 2064 }
        ensures { Takes (Put K.name 0 bytes.now) self.old.shown.files self.new.shown.files result }
    {
        let header = bytes.to_vec(self.alloc)?;
        self.header = header;
        self.size = self.size.max(HEADER as u64);
        self.shown = self.shown.then(&Note::Put(self.name, 0, bytes));
        Ok(())
    }

    // Takes bytes behind all that were put.
    fn append(&mut self, bytes: &[u8]) -> Result<(), StoreError>
        requires { 2064 ≤ self.old.size }
        ensures { Takes (Put K.name self.old.size bytes.now) self.old.shown.files
            self.new.shown.files result }
    {
        let at = self.size;
        let Some(end) = at.checked_add(bytes.len() as u64) else {
            return Err(StoreError::Memory);
        };
        let place = self.look(bytes)?;
        self.place = place;
        self.size = end;
        self.shown = self.shown.then(&Note::Put(self.name, at, bytes));
        Ok(())
    }
}

// It is written by one writer, into one file: each section behind the others, and the header once
// more. What is put elsewhere would have to be compared anew, and is refused as if memory were
// wanting, and so is reading.
impl<S: Store, K: Known> Store for Compared<'_, S, K> {
    ghost use Rattle.cy_recording.specs.private.Keeping.{view_of};

    ghost shows = { λ c. view_of c.shown.files };

    fn size(&mut self, _name: &str) -> Result<u64, StoreError> {
        Err(StoreError::Memory)
    }

    fn read_at(&mut self, _name: &str, _at: u64, _buf: &mut [u8]) -> Result<usize, StoreError> {
        Err(StoreError::Memory)
    }

    fn create(&mut self, name: &str) -> Result<(), StoreError> {
        if name != self.name {
            return Err(StoreError::Memory);
        }
        self.header.clear();
        self.size = 0;
        self.place = None;
        self.shown = self.shown.then(&Note::Create(self.name));
        Ok(())
    }

    fn put_at(&mut self, name: &str, at: u64, bytes: &[u8]) -> Result<(), StoreError> {
        if name != self.name {
            return Err(StoreError::Memory);
        }
        if at == 0 && bytes.len() == HEADER {
            return self.put_header(bytes);
        }
        if at == self.size && at >= HEADER as u64 {
            return self.append(bytes);
        }
        Err(StoreError::Memory)
    }

    fn same(&mut self, name: &str, other: &str) -> bool {
        name == other
    }
}
