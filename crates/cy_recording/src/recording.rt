// The record of a replay.
ghost use Rattle.std.specs.Prelude.{◌≡◌, ◌<◌, ◌==◌, ℕ, List, [], ◌∷◌, true, None, Some, map};
ghost use Rattle.std.specs.Prelude.{slice_get, length, IfOk, OnOk, IfSome, IsErrOf, IsOkUnless};
ghost use Rattle.std.specs.Prelude.{option_map, is_some, ◌&&◌};
ghost use Rattle.std.specs.List.{find, list_any};
ghost use Rattle.cy_msg.specs.Names.{channel_name};
ghost use Rattle.cy_msg.specs.declared.token.Token.{Token};
ghost use Rattle.cy_store.specs.Store.{HasWriteCauses};
ghost use Rattle.cy_section.specs.declared.types.Channel.{Channel};
ghost use Rattle.cy_writer.specs.Writes.{Makes};
ghost use Rattle.cy_writer.specs.Record.{channel_shown, channels_shown};
ghost use Rattle.cy_writer.specs.RecordWrites.{file_writes, record_puts};
ghost use Rattle.cy_reader.specs.Named.{channel_made};
ghost use Rattle.cy_recording.specs.Recording.{IsWritable, source_of, channel_of, has_ticks};
ghost use Rattle.cy_recording.specs.Recording.{channels_of_tape, chunks_of_tape, numbers_on};

mod laws;
mod tape_messages;

use crate::Played;
use crate::recording::tape_messages::TapeMessages;
use cy_comp::Plan;
use cy_msg::Token;
use cy_reader::Record;
use cy_section::Channel;
use cy_store::Store;
use cy_writer::{ChannelOrder, ChannelRef, WriteError};
pub use laws::{played_places_are_there, tape_record_is_its_text};
use std::alloc::Global;

// The channels that have a message on a tape, of so many.
fn order_of(alloc: Global, channels: u32, tape: &[Token]) -> Result<ChannelOrder, WriteError>
    requires { (n : ℕ) (t : Token) → slice_get tape.now n ≡ Some t → t.channel < channels }
    ensures numbers { IfOk result (λ o. o.numbers ≡ numbers_on tape.now) }
    ensures only_memory { IsOkUnless result WriteError.Memory }
{
    let mut order = ChannelOrder::none(alloc, channels)?;
    for token in tape {
        // Where each channel stands there, the rest of the tape adds none.
        if order.is_full() {
            return Ok(order);
        }
        order.note(token.channel)?;
    }
    Ok(order)
}

// The component that writes a channel.
fn writer_of(plans: &[Plan], channel: u32) -> Option<&Plan>
    ensures { option_map (λ p. p.now) result ≡ find (λ plan. plan.out == channel) plans.now }
{
    plans.iter().find(|plan| plan.out == channel)
}

// Whether ticks stand on a channel.
fn has_ticks(plans: &[Plan], channel: u32) -> bool
    ensures { result ≡ has_ticks plans.now channel }
{
    plans.iter().any(|plan| is_ticked_on(plan, channel))
}

// Whether a channel is among those of readers.
fn is_read_by(readers: &[u32], channel: u32) -> bool
    ensures { result ≡ list_any (λ reader. reader == channel) readers.now }
{
    readers.iter().any(|reader| *reader == channel)
}

// Whether the ticks of a component stand on a channel.
fn is_ticked_on(plan: &Plan, channel: u32) -> bool
    ensures { result ≡ (is_some plan.now.interval
        && list_any (λ reader. reader == channel) plan.now.readers) }
{
    plan.interval.is_some() && is_read_by(plan.readers.as_slice(), channel)
}

// The type and description of a channel.
fn form_of<'a>(played: &Played<'a>, channel: u32) -> (&'a str, &'a [u8])
    requires { channel < length (source_of played.now).names }
    ensures { channel_of (source_of played.now) channel ≡ channel_made
        (channel_name (source_of played.now).names channel) result.0.now result.1.now }
{
    let plans = played.wiring.plans.as_slice();
    if let Some(plan) = writer_of(plans, channel) {
        let options = &plan.options;
        return (options.out_type.as_str(), options.description.as_slice());
    }
    if has_ticks(plans, channel) {
        return ("", &[]);
    }
    match played
        .whole
        .channel_named(played.wiring.names.name(channel))
    {
        Some(known) => (known.message_type.as_str(), known.proto_desc.as_slice()),
        None => ("", &[]),
    }
}

// A channel, as it is written.
fn written_channel<'a>(played: &Played<'a>, channel: u32) -> ChannelRef<'a>
    requires { channel < length (source_of played.now).names }
    ensures { channel_shown result ≡ channel_of (source_of played.now) channel }
{
    let (message_type, proto_desc) = form_of(played, channel);
    ChannelRef {
        name: played.wiring.names.name(channel),
        message_type,
        proto_desc,
    }
}

// Channels, as they are written.
fn written_channels<'a>(
    alloc: Global,
    played: &Played<'a>,
    channels: &[u32],
) -> Result<Vec<ChannelRef<'a>>, WriteError>
    requires { (n c : ℕ) → slice_get channels.now n ≡ Some c
        → c < length (source_of played.now).names }
    ensures channels { IfOk result (λ v. channels_shown v.items
        ≡ map (channel_of (source_of played.now)) channels.now) }
    ensures only_memory { IsOkUnless result WriteError.Memory }
{
    let mut written = Vec::with_capacity(alloc, channels.len())?;
    for channel in channels {
        written.push(written_channel(played, *channel))?;
    }
    Ok(written)
}

/// Writes the record of a tape into the file of a name: the channels that have a message on it, in
/// the order of their first messages, and then each message, with its time and content. A content
/// is that of the played message which it comes from, where it lies in the record that was read, or
/// that of the answer which it comes from, where the component's class has it, or the written form
/// of the message's value. A channel that a component writes has that component's type and
/// description, one of ticks has none, and any other the type and description that it has in the
/// record that was read.
///
/// After an error the writes before the one that failed, or that wanted memory, are done. It takes
/// the room for its tables of channels before it makes the file.
pub fn write_record<S: Store>(
    alloc: Global,
    store: &mut S,
    name: &str,
    played: &Played<'_>,
    tape: &[Token],
) -> Result<(), WriteError>
    requires { IsWritable (source_of played.now) tape.now }
    ensures makes { Makes (file_writes name.now
        (record_puts (channels_of_tape (source_of played.now) tape.now)
        (chunks_of_tape name.now (source_of played.now) tape.now)))
        (S.shows store.old) (S.shows store.new) result }
    ensures unbroken { IsErrOf result WriteError.Broken → ⊥ }
    ensures causes { HasWriteCauses (IsErrOf result WriteError.Failed) (S.shows store.old)
        (S.shows store.new) }
{
    let order = order_of(alloc, played.wiring.names.count(), tape)?;
    let written = written_channels(alloc, played, order.numbers())?;
    let messages = TapeMessages::new(alloc, played, &order, tape);
    cy_writer::write_record(alloc, store, name, &written, messages)
}
