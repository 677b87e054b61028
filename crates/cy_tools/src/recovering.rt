// A record of what stands before the first fault of a file.
ghost use Rattle.cy_reader.specs.Said.{StandOnChannels};
ghost use Rattle.cy_salvage.specs.Salvage.{salvage_of};
ghost use Rattle.cy_tools.specs.Answer.{ToolAnswer};
ghost use Rattle.cy_tools.specs.Tools.{recovering};
ghost use Rattle.cy_tools.specs.private.Giving.{DoesWork};

use crate::ToolError;
use crate::kept::Kept;
use crate::writing::write_kept;
use cy_salvage::{Salvaged, salvage_record};
use cy_store::Store;
use cy_writer::WriteError;
use std::alloc::Global;
use std::thread::Threads;

/// What was recovered.
#[derive(Clone, Copy, Debug, PartialEq, Eq)]
pub struct Recovered {
    /// The messages that are written.
    pub messages: u32,
    /// The bytes of the file that are dropped: those from the section with the fault on.
    pub dropped: u64,
}

// Writes the record of what was salvaged.
fn write_salvaged<S: Store>(
    alloc: Global,
    store: &mut S,
    to: &str,
    salvaged: &Salvaged,
) -> Result<Recovered, WriteError>
    requires { StandOnChannels salvaged.now.met.channels salvaged.now.met.messages }
    ensures { DoesWork recovering to.now salvaged.now (S.shows store.old) (S.shows store.new)
        result }
{
    let loaded = salvaged.loaded();
    let kept = Kept { loaded, lets: None };
    let messages = write_kept(alloc, store, to, &kept)?;
    Ok(Recovered {
        messages,
        dropped: salvaged.dropped(),
    })
}

/// Makes a whole record of what stands in a file before its first fault: all messages of the
/// sections before it, in file order, on the channels that have one. The file is refused as
/// [`salvage_record`] refuses it. All reading is done before the other file is made.
///
/// After `ToolError::Load`, and where the store failed at the input, no file is changed. Where it
/// failed at the output, or memory ran out, the writes before that are done.
///
/// [`salvage_record`]: cy_salvage::salvage_record
pub fn recover<S: Store, R: Threads + Sync>(
    rt: &R,
    alloc: Global,
    store: &mut S,
    from: &str,
    to: &str,
) -> Result<Recovered, ToolError>
    ensures { ToolAnswer salvage_of recovering from.now to.now (S.shows store.old)
        (S.shows store.new) result }
{
    let salvaged = salvage_record(rt, alloc, store, from)?;
    let recovered = write_salvaged(alloc, store, to, &salvaged);
    drop(salvaged);
    Ok(recovered?)
}
