// Writes the record of the messages that are kept.
ghost use Rattle.std.specs.Prelude.{◌≡◌, ◌<◌, ℕ, Some, length, map, slice_get, IfOk, IsErrOf};
ghost use Rattle.std.specs.Prelude.{IsOkUnless};
ghost use Rattle.cy_store.specs.Store.{HasWriteCauses};
ghost use Rattle.cy_writer.specs.Record.{channel_shown, channels_shown};
ghost use Rattle.cy_writer.specs.Writes.{Makes};
ghost use Rattle.cy_tools.specs.Kept.{channel_at, kept_writes};
ghost use Rattle.cy_tools.specs.private.Keeping.{IsReady, all_kept};
ghost use Rattle.cy_tools.specs.private.Giving.{IsNumbering, WritesKept};

use crate::kept::Kept;
use crate::messages::KeptMessages;
use crate::numbering::Numbering;
use cy_reader::Loaded;
use cy_store::Store;
use cy_writer::{ChannelRef, WriteError, write_record};
use std::alloc::Global;

// A channel of a record, as it is written.
fn written_channel<'a>(loaded: &Loaded<'a>, number: u32) -> ChannelRef<'a>
    requires { number < length loaded.now.channels }
    ensures { channel_shown result ≡ channel_at loaded.now.channels number }
{
    let channel = loaded.channel(number);
    ChannelRef {
        name: channel.name.as_str(),
        message_type: channel.message_type.as_str(),
        proto_desc: channel.proto_desc.as_slice(),
    }
}

// Channels of a record, as they are written.
fn written_channels<'a>(
    alloc: Global,
    loaded: &Loaded<'a>,
    numbers: &[u32],
) -> Result<Vec<ChannelRef<'a>>, WriteError>
    requires { (n c : ℕ) → slice_get numbers.now n ≡ Some c → c < length loaded.now.channels }
    ensures channels { IfOk result (λ v. channels_shown v.items
        ≡ map (channel_at loaded.now.channels) numbers.now) }
    ensures only_memory { IsOkUnless result WriteError.Memory }
{
    let mut written = Vec::with_capacity(alloc, numbers.len())?;
    for number in numbers {
        written.push(written_channel(loaded, *number))?;
    }
    Ok(written)
}

// Writes messages whose channels have this order.
fn write_numbered<S: Store>(
    alloc: Global,
    store: &mut S,
    name: &str,
    kept: &Kept<'_>,
    numbering: &Numbering,
) -> Result<(), WriteError>
    requires ready { IsReady kept.now }
    requires numbering { IsNumbering kept.now numbering.now }
    ensures makes { Makes (kept_writes name.now kept.now.loaded (all_kept kept.now))
        (S.shows store.old) (S.shows store.new) result }
    ensures unbroken { IsErrOf result WriteError.Broken → ⊥ }
    ensures causes { HasWriteCauses (IsErrOf result WriteError.Failed) (S.shows store.old)
        (S.shows store.new) }
{
    let written = written_channels(alloc, &kept.loaded, numbering.order.numbers())?;
    let messages = KeptMessages::new(kept, &numbering.order);
    write_record(alloc, store, name, &written, messages)
}

// Writes the record of the messages that are kept into the file of a name, and answers how many
// they are. It takes its own memory before it makes the file.
pub(crate) fn write_kept<S: Store>(
    alloc: Global,
    store: &mut S,
    name: &str,
    kept: &Kept<'_>,
) -> Result<u32, WriteError>
    requires { IsReady kept.now }
    ensures { WritesKept name.now kept.now (S.shows store.old) (S.shows store.new) result }
{
    let numbering = Numbering::of(alloc, kept)?;
    write_numbered(alloc, store, name, kept, &numbering)?;
    Ok(numbering.count)
}
