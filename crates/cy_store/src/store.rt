// Files by name.
ghost use Rattle.std.specs.Prelude.{◌≤◌, length, IfSome};
ghost use Rattle.std.specs.FinMap.{get};
ghost use Rattle.cy_store.specs.Store.{StoreView, SizeAnswer, ReadAnswer, CreateAnswer, PutAnswer};
ghost use Rattle.cy_store.specs.Store.{SameAnswer};

use crate::StoreError;

/// Files by name, each a run of bytes.
///
/// No call changes another name than the one that it is given.
pub trait Store {
    /// The files, where the store tells them, and its counts of faults and of names that were not
    /// there.
    ghost shows: { Self → StoreView };

    /// How many bytes a file has. A name that is not there is `Failed`.
    fn size(&mut self, name: &str) -> Result<u64, StoreError>
        ensures { SizeAnswer (shows self.old) (shows self.new) name.now result };

    /// Fills `buf` from its start with the bytes that a file has from the place `at` on, as far as
    /// it gets, and answers how many these are. It is 0 only where `buf` has no room or the file no
    /// byte there. Nothing is known of `buf` after an error.
    fn read_at(&mut self, name: &str, at: u64, buf: &mut [u8]) -> Result<usize, StoreError>
        ensures { ReadAnswer (shows self.old) (shows self.new) name.now at buf.old buf.new result };

    /// Makes a file, or empties it.
    fn create(&mut self, name: &str) -> Result<(), StoreError>
        ensures { CreateAnswer (shows self.old) (shows self.new) name.now result };

    /// Writes all of `bytes` over what a file has at the place `at`, which is at most its length. A
    /// name that is not there is `Failed`. After `Failed` nothing is known of the bytes that were
    /// to be written, nor how many of them stand behind the file's old end; want of memory changes
    /// nothing.
    fn put_at(&mut self, name: &str, at: u64, bytes: &[u8]) -> Result<(), StoreError>
        requires { IfSome (shows self.old).files (λ m. IfSome (get m name.now) (λ before. at
            ≤ length before)) }
        ensures { PutAnswer (shows self.old) (shows self.new) name.now at bytes.now result };

    /// Whether two names are known to be those of one file, as a link and its target are. A store
    /// that tells its files says so exactly of equal names. Nothing is read, changed or counted.
    fn same(&mut self, name: &str, other: &str) -> bool
        ensures { SameAnswer (shows self.old) (shows self.new) name.now other.now result };
}
