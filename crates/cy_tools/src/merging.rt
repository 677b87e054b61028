// One record of several.
ghost use Rattle.cy_tools.specs.Merging.{MergeAnswer};

use crate::kept::Kept;
use crate::writing::write_kept;
use cy_salvage::Merged;
use cy_store::Store;
use cy_writer::WriteError;
use std::alloc::Global;

/// Writes the record of all messages of records that are joined, as they stand, on the channels
/// that have one, and answers how many messages it has. It takes its own memory before it makes the
/// file.
pub fn write_merged<S: Store>(
    alloc: Global,
    store: &mut S,
    to: &str,
    merged: &Merged,
) -> Result<u32, WriteError>
    ensures { MergeAnswer to.now merged.now (S.shows store.old) (S.shows store.new) result }
{
    let loaded = merged.loaded();
    let kept = Kept { loaded, lets: None };
    write_kept(alloc, store, to, &kept)
}
