// The record.
ghost use Rattle.std.specs.Prelude.{◌≡◌, ◌≤◌};
ghost use Rattle.cy_writer.specs.Record.{WritesRecord, channel_shown, channels_shown};
ghost use Rattle.cy_make.specs.Messages.{channels_of, untyped};
ghost use Rattle.cy_make.specs.private.Steps.{given_after};

use crate::messages::MadeMessages;
use cy_store::Store;
use cy_writer::{ChannelRef, WriteError, write_record};
use std::alloc::Global;

// A channel without a type.
fn untyped(name: &str) -> ChannelRef<'_>
    ensures { channel_shown result ≡ untyped name.now }
{
    ChannelRef {
        name,
        message_type: "",
        proto_desc: &[],
    }
}

// Writes so many messages on their channels into the file of a name.
fn write_on<S: Store>(
    alloc: Global,
    store: &mut S,
    name: &str,
    count: u32,
    channels: &[ChannelRef<'_>],
) -> Result<(), WriteError>
    requires few { count ≤ 1048576 }
    requires channels { channels_shown channels.now ≡ channels_of count }
    ensures { WritesRecord name.now (channels_of count) (given_after 0 count) (S.shows store.old)
        (S.shows store.new) result }
{
    let messages = MadeMessages::to(alloc, count);
    write_record(alloc, store, name, channels, messages)
}

/// Writes the record of so many messages into the file of a name.
pub(crate) fn write_made_record<S: Store>(
    alloc: Global,
    store: &mut S,
    name: &str,
    count: u32,
) -> Result<(), WriteError>
    requires { count ≤ 1048576 }
    ensures { WritesRecord name.now (channels_of count) (given_after 0 count) (S.shows store.old)
        (S.shows store.new) result }
{
    if count < 3 {
        write_on(alloc, store, name, count, &[untyped("/a")])
    } else {
        write_on(alloc, store, name, count, &[untyped("/a"), untyped("/b")])
    }
}
