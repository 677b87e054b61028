// What was found while a record was compared.
ghost use Rattle.std.specs.Prelude.{◌<◌, ◌^◌, length};
ghost use Rattle.cy_recording.specs.private.Judging.{IsFirst, Judges};

use crate::SameError;
use crate::pieces::compare;
use cy_store::Store;
use cy_writer::WriteError;
use std::alloc::Global;

/// What was found of a file, once the record is written with which it is compared.
#[derive(Clone, Copy)]
pub(crate) struct Found<'a> {
    /// The file's name.
    pub name: &'a str,
    /// The record's header.
    pub header: &'a [u8],
    /// Where they first differ behind the header.
    pub behind: Option<u64>,
    /// How many bytes the record has.
    pub end: u64,
    /// How many the file has.
    pub size: u64,
    /// Whether the store has failed.
    pub failed: bool,
}

// The first place, of that in the header, that behind it, and the end of the shorter text.
fn first_place(header: Option<u64>, behind: Option<u64>, end: u64, size: u64) -> Option<u64>
    ensures { IsFirst header behind end size result }
{
    match header.or(behind) {
        Some(place) => Some(place),
        None => {
            if size > end {
                return Some(end);
            }
            None
        }
    }
}

/// Where the file first differs from the record, if that was written: the header is compared now.
/// Want of memory is all for which it wasn't, where the store has not failed.
pub(crate) fn judge<S: Store>(
    alloc: Global,
    store: &mut S,
    found: &Found<'_>,
    written: Result<(), WriteError>,
) -> Result<Option<u64>, SameError>
    requires { length found.now.header.now < 2 ^ 64 }
    ensures { Judges found.now written (S.shows store.old) (S.shows store.new) result }
{
    if found.failed {
        return Err(SameError::Store);
    }
    if written.is_err() {
        return Err(SameError::Memory);
    }
    let header = compare(alloc, store, found.name, 0, found.header)?;
    Ok(first_place(header, found.behind, found.end, found.size))
}
