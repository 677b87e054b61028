// A file that is written in one piece.
ghost use Rattle.cy_writer.specs.File.{WritesFile};

use crate::WriteError;
use crate::put::put;
use cy_store::Store;

/// Makes a file, or empties it, and puts its bytes into it in one piece: after `Ok` the file of
/// that name has these bytes, and each other file those that it had. The only errors are `Failed`
/// and `Memory`; after one the writes before the one that failed, or that wanted memory, are done.
pub fn write_file<S: Store>(store: &mut S, name: &str, bytes: &[u8]) -> Result<(), WriteError>
    ensures { WritesFile name.now bytes.now (S.shows store.old) (S.shows store.new) result }
{
    store.create(name)?;
    put(store, name, 0, bytes)
}
