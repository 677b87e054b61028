// Joins the channels and messages of a later record to those that are kept.
ghost use Rattle.std.specs.Prelude.{◌≡◌, ◌≢◌, ◌≤◌, ◌<◌, ◌+◌, ◌^◌, ◌++◌, ℕ, List, Some, All};
ghost use Rattle.std.specs.Prelude.{length, map, true, IfErr, IfOk, OnOk, IsOkUnless};
ghost use Rattle.cy_reader.specs.United.{channel_joined, channels_joined, first_of, met_joined};
ghost use Rattle.cy_reader.specs.United.{united};
ghost use Rattle.cy_reader.specs.Record.{number_of, size_of, largest_channels};
ghost use Rattle.cy_reader.specs.private.Alone.{AreNumbers};
ghost use Rattle.cy_reader.specs.private.Loading.{AreSmall, IsTied, Grows, IsSound, Leads, met_of};
ghost use Rattle.cy_reader.specs.private.Loading.{Mentions};
ghost use Rattle.cy_reader.specs.private.Uniting.{shifted};

use crate::LoadError;
use crate::channels::{Channels, add, number_of, replace};
use crate::known::Known;
use crate::loading::{Loading, Message};
use cy_msg::{Bytes, Text};
use cy_section::Channel;
use std::alloc::Global;

// The first of two texts that is not empty.
fn first_text<'a>(kept: &'a str, later: &'a str) -> &'a str
    ensures { result.now ≡ first_of kept.now later.now }
{
    if kept.is_empty() { later } else { kept }
}

// The same of bytes.
fn first_bytes<'a>(kept: &'a [u8], later: &'a [u8]) -> &'a [u8]
    ensures { result.now ≡ first_of kept.now later.now }
{
    if kept.is_empty() { later } else { kept }
}

// A channel of this name, type and description.
fn made(
    alloc: Global,
    name: &str,
    message_type: &str,
    proto_desc: &[u8],
    has_section: bool,
) -> Result<Known, LoadError>
    ensures known { IfOk result (λ k. k ≡ record {
      channel = record {
        name = name.now;
        message_type = message_type.now;
        proto_desc = proto_desc.now;
      };
      has_section = has_section;
    }) }
    ensures only_memory { IsOkUnless result LoadError.Memory }
{
    let channel = Channel {
        name: Text::from_string(String::from_str(alloc, name)?),
        message_type: Text::from_string(String::from_str(alloc, message_type)?),
        proto_desc: Bytes::from_vec(Vec::from_slice(alloc, proto_desc)?),
    };
    Ok(Known {
        channel,
        has_section,
    })
}

// A channel, with what it lacks from a later record.
fn united(alloc: Global, known: &Known, later: &Known) -> Result<Known, LoadError>
    ensures known { IfOk result (λ k. k ≡ united known.now later.now) }
    ensures only_memory { IsOkUnless result LoadError.Memory }
{
    let (kept, other) = (&known.channel, &later.channel);
    made(
        alloc,
        kept.name.as_str(),
        first_text(kept.message_type.as_str(), other.message_type.as_str()),
        first_bytes(kept.proto_desc.as_slice(), other.proto_desc.as_slice()),
        known.has_section,
    )
}

// The same channel, for the list that is kept.
fn copied(alloc: Global, later: &Known) -> Result<Known, LoadError>
    ensures known { IfOk result (λ k. k ≡ later.now) }
    ensures only_memory { IsOkUnless result LoadError.Memory }
{
    let channel = &later.channel;
    made(
        alloc,
        channel.name.as_str(),
        channel.message_type.as_str(),
        channel.proto_desc.as_slice(),
        later.has_section,
    )
}

// Whether a channel has all that a later record says of it.
fn has_all(known: &Known, later: &Known) -> bool
    ensures { result ≡ true → united known.now later.now ≡ known.now }
{
    let (kept, other) = (&known.channel, &later.channel);
    (!kept.message_type.as_str().is_empty() || other.message_type.as_str().is_empty())
        && (!kept.proto_desc.as_slice().is_empty() || other.proto_desc.as_slice().is_empty())
}

// Unites the channel of a number with one of its name.
#[tactic(auto, unfolding(crate::specs::United::channel_joined))]
fn unite(
    alloc: Global,
    channels: &mut Channels,
    number: u32,
    later: &Known,
) -> Result<(), LoadError>
    requires small { AreSmall channels.old.list.items }
    requires tied { IsTied channels.old }
    requires size { size_of later.now ≤ largest_channels }
    requires there { number_of later.now.channel.name channels.old.list.items ≡ Some number }
    ensures list { Leads result channels.new.list.items
        (channel_joined later.now channels.old.list.items) }
    ensures kept { OnOk result (Grows channels.old channels.new) }
    ensures not_store { IfErr result (λ e. e ≢ LoadError.Store) }
{
    let known = &channels.list[number as usize];
    if has_all(known, later) {
        return Ok(());
    }
    let known = united(alloc, known, later)?;
    replace(channels, number, known)
}

// Joins a channel of a later record, and answers the number that it has then.
#[tactic(auto, unfolding(crate::specs::United::channel_joined))]
fn join_channel(alloc: Global, channels: &mut Channels, later: &Known) -> Result<u32, LoadError>
    requires small { AreSmall channels.old.list.items }
    requires tied { IsTied channels.old }
    requires size { size_of later.now ≤ largest_channels }
    ensures list { Leads result channels.new.list.items
        (channel_joined later.now channels.old.list.items) }
    ensures kept { IfOk result (λ n. Mentions later.now.channel.name channels.old channels.new n) }
    ensures not_store { IfErr result (λ e. e ≢ LoadError.Store) }
{
    if let Some(number) = number_of(channels, later.channel.name.as_str()) {
        unite(alloc, channels, number, later)?;
        return Ok(number);
    }
    let number = channels.list.len() as u32;
    add(alloc, channels, copied(alloc, later)?)?;
    Ok(number)
}

// Joins the channels of a later record, and answers the numbers that they have then.
fn join_channels(
    alloc: Global,
    channels: &mut Channels,
    later: &[Known],
) -> Result<Vec<u32>, LoadError>
    requires small { AreSmall channels.old.list.items }
    requires tied { IsTied channels.old }
    requires later { AreSmall later.now }
    ensures list { Leads result channels.new.list.items
        (channels_joined later.now channels.old.list.items) }
    ensures numbers { IfOk result (λ v. AreNumbers later.now channels.new.list.items v.items) }
    ensures kept { OnOk result (Grows channels.old channels.new) }
    ensures not_store { IfErr result (λ e. e ≢ LoadError.Store) }
{
    let mut numbers = Vec::with_capacity(alloc, later.len())?;
    for known in later {
        let number = join_channel(alloc, channels, known)?;
        numbers.push(number)?;
    }
    Ok(numbers)
}

// Puts messages on the channels of these numbers, and their bodies behind so many others.
fn shift_messages(later: &mut Vec<Message>, bodies: u32, numbers: &[u32])
    requires numbered { All (λ m. m.channel < length numbers.now) later.old.items }
    requires placed { All (λ m. bodies + m.body < 2 ^ 32) later.old.items }
    ensures { later.new.items ≡ map (shifted bodies numbers.now) later.old.items }
{
    for message in later.iter_mut() {
        message.channel = numbers[message.channel as usize];
        message.body = bodies + message.body;
    }
}

// Keeps messages behind those that are kept. The first ones keep their memory.
fn keep_messages(messages: &mut Vec<Message>, mut later: Vec<Message>) -> Result<(), LoadError>
    ensures kept { OnOk result (messages.new.items ≡ messages.old.items ++ later.items) }
    ensures only_memory { IsOkUnless result LoadError.Memory }
{
    if messages.is_empty() {
        *messages = later;
        return Ok(());
    }
    messages.append(&mut later)?;
    Ok(())
}

/// Keeps what a later record has, whose bodies are to be kept behind so many others.
pub(crate) fn join_loading(
    alloc: Global,
    bodies: u32,
    loading: &mut Loading,
    more: u32,
    later: Loading,
) -> Result<(), LoadError>
    requires sound { IsSound bodies loading.old × IsSound more later }
    requires room { bodies + more < 2 ^ 32 }
    requires few { length loading.old.messages.items + length later.messages.items < 2 ^ 32 }
    ensures met { (before behind : List (List ℕ)) → length before ≡ bodies → length behind ≡ more
        → Leads result (met_of (before ++ behind) loading.new)
        (met_joined (met_of behind later) (met_of before loading.old)) }
    ensures still_sound { OnOk result (IsSound (bodies + more) loading.new) }
    ensures not_store { IfErr result (λ e. e ≢ LoadError.Store) }
{
    let Loading {
        channels,
        mut messages,
    } = later;
    let numbers = join_channels(alloc, &mut loading.channels, channels.list.as_slice())?;
    shift_messages(&mut messages, bodies, numbers.as_slice());
    keep_messages(&mut loading.messages, messages)
}
