// A whole record.
ghost use Rattle.cy_writer.specs.Stands.{HaveOwnNames};
ghost use Rattle.cy_writer.specs.private.Steps.{StartsRecord};
ghost use Rattle.cy_writer.specs.Record.{channels_shown, HaveChannels, WritesRecord};

use crate::{Messages, RecordWriter, WriteError};
use cy_store::Store;
use std::alloc::Global;

/// A channel whose name, type and description lie elsewhere.
#[derive(Clone, Copy)]
pub struct ChannelRef<'a> {
    /// Its name.
    pub name: &'a str,
    /// The type of its messages.
    pub message_type: &'a str,
    /// The description of that type.
    pub proto_desc: &'a [u8],
}

// Makes a file with the header of a record that is still being written and these channels.
fn start_record<S: Store>(
    alloc: Global,
    store: &mut S,
    name: &str,
    channels: &[ChannelRef<'_>],
) -> Result<RecordWriter, WriteError>
    requires { HaveOwnNames (channels_shown channels.now) }
    ensures { StartsRecord name.now (channels_shown channels.now)
        (S.shows store.old) (S.shows store.new) result }
{
    let mut writer = RecordWriter::start(alloc, store, name)?;
    for channel in channels {
        writer.channel(
            alloc,
            store,
            channel.name,
            channel.message_type,
            channel.proto_desc,
        )?;
    }
    Ok(writer)
}

/// Writes a record into the file of a name: these channels, each with a name of its own, and then
/// the messages that are given, each on the channel of its number. It copies no content but into
/// the chunk that it keeps.
///
/// After an error the writes before the one that failed, or before which memory ran out, are done.
pub fn write_record<S: Store, M: Messages>(
    alloc: Global,
    store: &mut S,
    name: &str,
    channels: &[ChannelRef<'_>],
    mut messages: M,
) -> Result<(), WriteError>
    requires own_names { HaveOwnNames (channels_shown channels.now) }
    requires can_next { M.can_next messages }
    requires on_channels { HaveChannels (channels_shown channels.now) (M.shows messages).rest }
    ensures { WritesRecord name.now (channels_shown channels.now) (M.shows messages).rest
        (S.shows store.old) (S.shows store.new) result }
{
    let mut writer = start_record(alloc, store, name, channels)?;
    while let Some(stamp) = messages.next()? {
        let content = messages.content();
        writer.message(alloc, store, stamp.channel, stamp.time, content)?;
    }
    writer.close(alloc, store)
}
