// A record cut down to channels and times.
ghost use Rattle.cy_reader.specs.Record.{record_of};
ghost use Rattle.cy_reader.specs.Said.{StandOnChannels};
ghost use Rattle.cy_tools.specs.Answer.{ToolAnswer};
ghost use Rattle.cy_tools.specs.Tools.{splitting};
ghost use Rattle.cy_tools.specs.private.Giving.{DoesWork};

use crate::ToolError;
use crate::kept::{Kept, Lets};
use crate::writing::write_kept;
use cy_msg::Filter;
use cy_reader::{Record, load};
use cy_store::Store;
use cy_writer::WriteError;
use std::alloc::Global;
use std::thread::Threads;

/// What was split off.
#[derive(Clone, Copy, Debug, PartialEq, Eq)]
pub struct Parted {
    /// The messages that are written.
    pub messages: u32,
    /// All messages of the record that was read.
    pub of: u32,
}

// Writes the record of the messages that a filter lets through.
fn write_passing<S: Store>(
    alloc: Global,
    store: &mut S,
    to: &str,
    whole: &Record,
    filter: &Filter,
) -> Result<Parted, WriteError>
    requires { StandOnChannels whole.now.channels whole.now.messages }
    ensures { DoesWork (splitting filter.now) to.now whole.now (S.shows store.old)
        (S.shows store.new) result }
{
    let loaded = whole.loaded();
    let lets = Lets::of(alloc, &loaded, filter)?;
    let kept = Kept {
        loaded,
        lets: Some(lets),
    };
    let messages = write_kept(alloc, store, to, &kept)?;
    Ok(Parted {
        messages,
        of: whole.messages(),
    })
}

/// Makes a record of the messages of another one that a filter lets through, in file order, on the
/// channels that have one. The file is refused as [`load`] refuses it. All reading is done before
/// the other file is made.
///
/// After `ToolError::Load`, and where the store failed at the input, no file is changed. Where it
/// failed at the output, or memory ran out, the writes before that are done.
///
/// [`load`]: cy_reader::load
pub fn split<S: Store, R: Threads + Sync>(
    rt: &R,
    alloc: Global,
    store: &mut S,
    from: &str,
    to: &str,
    filter: &Filter,
) -> Result<Parted, ToolError>
    ensures { ToolAnswer (record_of from.now) (splitting filter.now) from.now to.now
        (S.shows store.old) (S.shows store.new) result }
{
    let whole = load(rt, alloc, store, from)?;
    let parted = write_passing(alloc, store, to, &whole, filter);
    drop(whole);
    Ok(parted?)
}
