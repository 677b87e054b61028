// Reads the front of a record's file: how many bytes it has, and its header.
ghost use Rattle.std.specs.Prelude.{◌≡◌, ◌≢◌, ◌≤◌, length, IfOk, IfErr};
ghost use Rattle.cy_msg.specs.Answer.{Answers};
ghost use Rattle.cy_cut.specs.Heads.{header_head};
ghost use Rattle.cy_reader.specs.Record.{file_header};
ghost use Rattle.cy_cut.specs.Sections.{header_end};
ghost use Rattle.cy_reader.specs.private.Front.{FrontAnswer};

use crate::LoadError;
use crate::header::{LONGEST_FILE, file_header};
use cy_cut::{PlacedHead, header_head};
use cy_section::{HEADER_SIZE, Header};
use cy_store::{Store, read_range};
use std::alloc::Global;

// The length of a file in bytes, its header, and the head of that.
#[derive(Clone, Copy)]
pub(crate) struct Front {
    pub size: u64,
    pub header: Header,
    pub head: PlacedHead,
}

// The front of a file of this size, whose first bytes are these.
fn front_in(bytes: &[u8], size: u64) -> Result<Front, LoadError>
    ensures header { Answers (λ f. f.header) result (file_header bytes.now) }
    ensures front { IfOk result (λ f. (f.size ≡ size) × (f.head ≡ header_head bytes.now)
        × (header_end ≤ length bytes.now)) }
    ensures not_store { IfErr result (λ e. e ≢ LoadError.Store) }
{
    let header = file_header(bytes)?;
    let head = header_head(bytes);
    Ok(Front { size, header, head })
}

// The front of the file of a name.
pub(crate) fn front_of<S: Store>(
    alloc: Global,
    store: &mut S,
    name: &str,
) -> Result<Front, LoadError>
    ensures { FrontAnswer (S.shows store.old) (S.shows store.new) name.now result }
{
    let size = store.size(name)?;
    if size > LONGEST_FILE {
        return Err(LoadError::FileTooLarge { count: size });
    }
    let long = size.min(HEADER_SIZE as u64);
    let bytes = read_range(alloc, store, name, 0, long as usize)?;
    front_in(bytes.as_slice(), size)
}
