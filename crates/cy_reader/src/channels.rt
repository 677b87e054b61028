// The channels that are met, within the limits.
ghost use Rattle.std.specs.Prelude.{◌≡◌, ◌≢◌, ◌≤◌, ◌<◌, ◌⊎◌, ◌++◌, ◌∷◌, [], ◌^◌, length, set};
ghost use Rattle.std.specs.Prelude.{sum_by, IfOk, IfErr, OnOk, IsOkUnless, Some, None, Err, true};
ghost use Rattle.cy_reader.specs.Record.{size_of, number_of, within_limits, named_only};
ghost use Rattle.cy_reader.specs.Record.{channel_given, name_mentioned};
ghost use Rattle.cy_reader.specs.private.Loading.{AreSmall, IsTied, KeepsNumber, Grows, Mentions};
ghost use Rattle.cy_reader.specs.private.Loading.{Leads};

use crate::LoadError;
use crate::known::Known;
use cy_msg::{Bytes, Text};
use cy_section::Channel;
use std::alloc::Global;
use std::collections::HashMap;

/// The greatest number of channels, and of bytes in their names, types and descriptions together.
const MOST_CHANNELS: usize = 1_024;

const LARGEST_CHANNELS: u64 = 268_435_456;

/// The longest name of a channel, in bytes.
const LONGEST_NAME: u64 = 4_096;

// As many channels as are looked at one by one.
const FEW_CHANNELS: usize = 8;

// The channels that were met so far, and the number of each name.
#[derive(Drop)]
pub(crate) struct Channels {
    pub list: Vec<Known>,
    pub numbers: HashMap<String, u32>,
}

impl Channels {
    // No channels.
    pub(crate) fn new(alloc: Global) -> Self
        ensures none { result.list.items ≡ [] }
        ensures tied { IsTied result }
    {
        Channels {
            list: Vec::new(alloc),
            numbers: HashMap::new(alloc),
        }
    }
}

// The bytes of the names, types and descriptions of all channels.
fn total_of(channels: &[Known]) -> u64
    requires { sum_by size_of channels.now < 2 ^ 62 }
    ensures { result ≡ sum_by size_of channels.now }
{
    let mut total = 0;
    for known in channels {
        total += size_of(known);
    }
    total
}

// The bytes of a channel's name, type and description.
fn size_of(known: &Known) -> u64
    requires { size_of known.now < 2 ^ 62 }
    ensures { result ≡ size_of known.now }
{
    let channel = &known.channel;
    let name = channel.name.as_str().len() as u64;
    let message_type = channel.message_type.as_str().len() as u64;
    let proto_desc = channel.proto_desc.as_slice().len() as u64;
    name + message_type + proto_desc
}

/// The number of a channel's name among others, by a look at each channel.
pub fn place_of(channels: &[Known], name: &str) -> Option<usize>
    ensures { result ≡ number_of name.now channels.now }
{
    channels
        .iter()
        .position(|known| known.channel.name.as_str() == name)
}

// The number of a channel's name. Where there are few, a look at each takes less time than the hash
// of the name.
#[inline(always)]
pub(crate) fn number_of(channels: &Channels, name: &str) -> Option<u32>
    requires { IsTied channels.now }
    ensures { result ≡ number_of name.now channels.now.list.items }
{
    if channels.list.len() <= FEW_CHANNELS {
        return place_of(channels.list.as_slice(), name).map(|place| place as u32);
    }
    channels.numbers.get(name).copied()
}

// The limit that a channel passes with others, if it does.
#[tactic(auto, using(crate::proofs::Sums::sums))]
fn look_at_limits(channels: &[Known], known: &Known) -> Result<(), LoadError>
    requires small { AreSmall channels.now }
    requires size { size_of known.now < 2 ^ 62 }
    ensures fits { OnOk result (AreSmall (channels.now ++ known.now ∷ [])) }
    ensures limit { IfErr result (λ e. within_limits (channels.now ++ known.now ∷ []) ≡ Err e) }
    ensures not_store { IfErr result (λ e. e ≢ LoadError.Store) }
{
    if channels.len() == MOST_CHANNELS {
        return Err(LoadError::TooManyChannels);
    }
    let count = total_of(channels) + size_of(known);
    if count > LARGEST_CHANNELS {
        return Err(LoadError::ChannelsTooLarge { count });
    }
    Ok(())
}

// Keeps the number of a name.
fn keep_number(
    alloc: Global,
    numbers: &mut HashMap<String, u32>,
    name: &str,
    number: u32,
) -> Result<(), LoadError>
    ensures kept { OnOk result (KeepsNumber name.now number numbers.old numbers.new) }
    ensures only_memory { IsOkUnless result LoadError.Memory }
{
    let name = String::from_str(alloc, name)?;
    numbers.insert(name, number)?;
    Ok(())
}

// Makes sure that a channel of a new name may be added, and keeps its number.
fn make_room(alloc: Global, channels: &mut Channels, known: &Known) -> Result<(), LoadError>
    requires small { AreSmall channels.old.list.items }
    requires size { size_of known.now < 2 ^ 62 }
    ensures list { channels.new.list ≡ channels.old.list }
    ensures limit { IfErr result (λ e. (e ≡ LoadError.Memory)
        ⊎ (within_limits (channels.old.list.items ++ known.now ∷ []) ≡ Err e)) }
    ensures fits { OnOk result (AreSmall (channels.old.list.items ++ known.now ∷ [])) }
    ensures kept { OnOk result (KeepsNumber known.now.channel.name
        (length channels.old.list.items) channels.old.numbers channels.new.numbers) }
    ensures not_store { IfErr result (λ e. e ≢ LoadError.Store) }
{
    look_at_limits(channels.list.as_slice(), known)?;
    let number = channels.list.len() as u32;
    keep_number(
        alloc,
        &mut channels.numbers,
        known.channel.name.as_str(),
        number,
    )
}

// Adds a channel of a new name, within the limits.
pub(crate) fn add(alloc: Global, channels: &mut Channels, known: Known) -> Result<(), LoadError>
    requires small { AreSmall channels.old.list.items }
    requires tied { IsTied channels.old }
    requires size { size_of known < 2 ^ 62 }
    requires fresh { number_of known.channel.name channels.old.list.items ≡ None }
    ensures list { Leads result channels.new.list.items
        (within_limits (channels.old.list.items ++ known ∷ [])) }
    ensures kept { OnOk result (Grows channels.old channels.new) }
    ensures not_store { IfErr result (λ e. e ≢ LoadError.Store) }
{
    match make_room(alloc, channels, &known) {
        Ok(()) => {
            channels.list.push(known)?;
            Ok(())
        }
        Err(error) => {
            drop(known);
            Err(error)
        }
    }
}

// Puts a channel in the place of one of its name that only messages named.
#[tactic(auto, using(crate::proofs::Sums::sums, crate::proofs::Sums::places))]
pub(crate) fn replace(channels: &mut Channels, number: u32, known: Known) -> Result<(), LoadError>
    requires small { AreSmall channels.old.list.items }
    requires tied { IsTied channels.old }
    requires size { size_of known < 2 ^ 62 }
    requires there { number_of known.channel.name channels.old.list.items ≡ Some number }
    ensures list { Leads result channels.new.list.items
        (within_limits (set channels.old.list.items number known)) }
    ensures kept { OnOk result (Grows channels.old channels.new) }
    ensures not_store { IfErr result (λ e. e ≢ LoadError.Store) }
{
    let place = number as usize;
    let rest = total_of(channels.list.as_slice()) - size_of(&channels.list[place]);
    let count = rest + size_of(&known);
    if count > LARGEST_CHANNELS {
        drop(known);
        return Err(LoadError::ChannelsTooLarge { count });
    }
    channels.list[place] = known;
    Ok(())
}

// Keeps the channel of a section, where one of its name is kept: of two sections with one name the
// first counts.
fn give_again(channels: &mut Channels, number: u32, channel: Channel) -> Result<(), LoadError>
    requires small { AreSmall channels.old.list.items }
    requires tied { IsTied channels.old }
    requires size { size_of record { channel = channel; has_section = true } < 2 ^ 62 }
    requires short { length channel.name ≤ 4096 }
    requires there { number_of channel.name channels.old.list.items ≡ Some number }
    ensures list { Leads result channels.new.list.items
        (channel_given channel channels.old.list.items) }
    ensures kept { OnOk result (Grows channels.old channels.new) }
    ensures not_store { IfErr result (λ e. e ≢ LoadError.Store) }
{
    if channels.list[number as usize].has_section {
        drop(channel);
        return Ok(());
    }
    let known = Known {
        channel,
        has_section: true,
    };
    replace(channels, number, known)
}

// Keeps the channel of a section.
#[tactic(auto, unfolding(crate::specs::Record::channel_given))]
pub(crate) fn give(
    alloc: Global,
    channels: &mut Channels,
    channel: Channel,
) -> Result<(), LoadError>
    requires small { AreSmall channels.old.list.items }
    requires tied { IsTied channels.old }
    requires size { size_of record { channel = channel; has_section = true } < 2 ^ 62 }
    ensures list { Leads result channels.new.list.items
        (channel_given channel channels.old.list.items) }
    ensures kept { OnOk result (Grows channels.old channels.new) }
    ensures not_store { IfErr result (λ e. e ≢ LoadError.Store) }
{
    let count = channel.name.as_str().len() as u64;
    if count > LONGEST_NAME {
        drop(channel);
        return Err(LoadError::NameTooLong { count });
    }
    match number_of(channels, channel.name.as_str()) {
        Some(number) => give_again(channels, number, channel),
        None => {
            let known = Known {
                channel,
                has_section: true,
            };
            add(alloc, channels, known)
        }
    }
}

// A channel that only a message named so far.
fn named_only(alloc: Global, name: &str) -> Result<Known, LoadError>
    ensures known { IfOk result (λ k. k ≡ named_only name.now) }
    ensures only_memory { IsOkUnless result LoadError.Memory }
{
    let channel = Channel {
        name: Text::from_string(String::from_str(alloc, name)?),
        message_type: Text::from_string(String::new(alloc)),
        proto_desc: Bytes::from_vec(Vec::new(alloc)),
    };
    Ok(Known {
        channel,
        has_section: false,
    })
}

// The number of the channel that a message names, which is kept from now on.
#[tactic(auto, unfolding(crate::specs::Record::name_mentioned), using(crate::proofs::Sums::places))]
pub(crate) fn mention(alloc: Global, channels: &mut Channels, name: &str) -> Result<u32, LoadError>
    requires small { AreSmall channels.old.list.items }
    requires tied { IsTied channels.old }
    ensures list { Leads result channels.new.list.items
        (name_mentioned name.now channels.old.list.items) }
    ensures kept { IfOk result (λ n. Mentions name.now channels.old channels.new n) }
    ensures not_store { IfErr result (λ e. e ≢ LoadError.Store) }
{
    let count = name.len() as u64;
    if count > LONGEST_NAME {
        return Err(LoadError::NameTooLong { count });
    }
    if let Some(number) = number_of(channels, name) {
        return Ok(number);
    }
    let number = channels.list.len() as u32;
    add(alloc, channels, named_only(alloc, name)?)?;
    Ok(number)
}
