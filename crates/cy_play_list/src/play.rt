// The messages of a record that are played, in order.
ghost use Rattle.std.specs.Prelude.{◌≡◌, ◌≤◌, ◌<◌, ◌+◌, ◌^◌, ℕ, [], All, length};
ghost use Rattle.std.specs.Prelude.{IfOk, OnOk, IsOkUnless};
ghost use Rattle.std.specs.List.{Contains};
ghost use Rattle.std.specs.List.Sorted.{IsPermutation};
ghost use Rattle.cy_msg.specs.Once.{IsOnce};
ghost use Rattle.cy_play_list.specs.Play.{AreNamed, PlayAnswer, all_places, time_at, number_in};
ghost use Rattle.cy_play_list.specs.Play.{tokens_behind};
ghost use Rattle.cy_reader.specs.Named.{message_at};
ghost use Rattle.cy_play_list.specs.private.Uses.{AreUses, use_of, use_at, number_by, value_from};
ghost use Rattle.cy_play_list.specs.private.Uses.{ArePassed, LooksAt, AreInOrder};

use crate::ChannelSet;
use cy_msg::{Filter, Items, MOST_PLAYED, Names, PlayList, Token};
use cy_reader::{LoadError, Record};
use cy_value::{ChannelValue, form_at, place_of, value_by};
use std::alloc::Global;

// What becomes of the messages of one channel.
#[derive(Clone, Copy)]
pub(crate) struct ChannelUse {
    // Its number by the names.
    pub number: u32,
    // Whether the filter lets it through.
    pub is_let: bool,
    // Whether a component writes it.
    pub is_written: bool,
    // The place of the form of its values.
    pub form: Option<usize>,
}

// The messages that pass the filter: the places of those that are played, in file order, and how
// many of the others there are.
#[derive(Drop)]
struct Passed {
    places: Vec<u32>,
    shadowed: u32,
}

// The number of a name that is kept.
fn number_of(names: &Names, name: &str) -> u32
    requires once { IsOnce names.now }
    requires kept { Contains names.now name.now }
    ensures { result ≡ number_in names.now name.now }
{
    match names.number_of(name) {
        Some(number) => number,
        None => 0,
    }
}

// The use of a channel.
fn use_of(
    names: &Names,
    filter: &Filter,
    written: &ChannelSet,
    values: &[ChannelValue],
    name: &str,
) -> ChannelUse
    requires once { IsOnce names.now }
    requires kept { Contains names.now name.now }
    ensures { result ≡ use_of (record {
      names = names.now;
      filter = filter.now;
      written = written.now;
      values = values.now;
    }) name.now }
{
    let number = number_of(names, name);
    ChannelUse {
        number,
        is_let: filter.lets_channel(name),
        is_written: written.has(number),
        form: place_of(values, name),
    }
}

// The uses of all channels of a record.
fn uses_of(
    alloc: Global,
    whole: &Record,
    names: &Names,
    filter: &Filter,
    written: &ChannelSet,
    values: &[ChannelValue],
) -> Result<Vec<ChannelUse>, LoadError>
    requires once { IsOnce names.now }
    requires named { AreNamed whole.now names.now }
    ensures uses { IfOk result (λ u. AreUses whole.now (record {
      names = names.now;
      filter = filter.now;
      written = written.now;
      values = values.now;
    }) u.items) }
    ensures only_memory { IsOkUnless result LoadError.Memory }
{
    let mut uses = Vec::with_capacity(alloc, whole.channels() as usize)?;
    for channel in 0..whole.channels() {
        let name = whole.channel(channel).name.as_str();
        uses.push(use_of(names, filter, written, values, name))?;
    }
    Ok(uses)
}

// A message's time, 0 where there is none at the place.
fn time_at(whole: &Record, place: u32) -> u64
    ensures { result ≡ time_at whole.now place }
{
    if place < whole.messages() {
        whole.message(place).1
    } else {
        0
    }
}

// The channel of a message.
fn channel_at(whole: &Record, place: u32) -> u32
    requires { place < length whole.now.messages }
    ensures channel { result ≡ (message_at whole.now place).channel }
    ensures below { result < length whole.now.channels }
{
    whole.message(place).0
}

// The use of the message at a place.
fn use_at(whole: &Record, uses: &[ChannelUse], place: u32) -> ChannelUse
    requires there { place < length whole.now.messages }
    requires all { length uses.now ≡ length whole.now.channels }
    ensures found { result ≡ use_at uses.now whole.now place }
    ensures below { (message_at whole.now place).channel < length whole.now.channels }
{
    uses[channel_at(whole, place) as usize]
}

impl Passed {
    // Takes the message at a place, if it passes.
    #[tactic(auto, using(crate::proofs::Playing::takes))]
    #[inline(always)]
    fn take(
        &mut self,
        whole: &Record,
        uses: &[ChannelUse],
        filter: &Filter,
        place: u32,
    ) -> Result<(), LoadError>
        requires there { place < length whole.now.messages }
        requires all { length uses.now ≡ length whole.now.channels }
        requires few { self.old.shadowed ≤ place }
        requires countable { place + 1 < 2 ^ 32 }
        ensures looked { OnOk result (LooksAt uses.now filter.now whole.now place
            self.old.places.items self.new.places.items self.old.shadowed self.new.shadowed) }
        ensures below { (message_at whole.now place).channel < length whole.now.channels }
        ensures only_memory { IsOkUnless result LoadError.Memory }
    {
        let found = use_at(whole, uses, place);
        let is_let = found.is_let && filter.lets_time(time_at(whole, place));
        match (is_let, found.is_written) {
            (true, true) => {
                self.shadowed += 1;
                Ok(())
            }
            (true, false) => {
                self.places.push(place)?;
                Ok(())
            }
            (false, _) => Ok(()),
        }
    }
}

// The messages that pass.
fn passing(
    alloc: Global,
    whole: &Record,
    uses: &[ChannelUse],
    filter: &Filter,
) -> Result<Passed, LoadError>
    requires { length uses.now ≡ length whole.now.channels }
    ensures passed { IfOk result (λ p. ArePassed uses.now filter.now whole.now
        (all_places whole.now) p.places.items p.shadowed) }
    ensures below { OnOk result ((n : ℕ) → n < length whole.now.messages
        → (message_at whole.now n).channel < length whole.now.channels) }
    ensures only_memory { IsOkUnless result LoadError.Memory }
{
    let mut passed = Passed {
        places: Vec::new(alloc),
        shadowed: 0,
    };
    for place in 0..whole.messages() {
        passed.take(whole, uses, filter, place)?;
    }
    Ok(passed)
}

// Puts places in the order of their times: equal times stay in file order.
fn sort(whole: &Record, places: &mut Vec<u32>) -> Result<(), LoadError>
    ensures same { IsPermutation places.old.items places.new.items }
    ensures order { OnOk result (AreInOrder whole.now places.old.items places.new.items) }
    ensures only_memory { IsOkUnless result LoadError.Memory }
{
    places.sort_by_key(|place| time_at(whole, *place))?;
    Ok(())
}

// The messages at these places, numbered on each channel, with their values. There are so many
// names.
fn tokens_of(
    alloc: Global,
    whole: &Record,
    uses: &[ChannelUse],
    values: &[ChannelValue],
    names: u32,
    places: &[u32],
) -> Result<Vec<Token>, LoadError>
    requires all { length uses.now ≡ length whole.now.channels }
    requires numbers { All (λ u. u.number < names) uses.now }
    requires there { All (λ place. place < length whole.now.messages) places.now }
    requires few { length places.now + 1 < 2 ^ 32 }
    ensures tokens { IfOk result (λ t. t.items ≡ tokens_behind (number_by uses.now whole.now)
        (value_from uses.now values.now whole.now) whole.now [] places.now) }
    ensures only_memory { IsOkUnless result LoadError.Memory }
{
    let mut tokens = Vec::with_capacity(alloc, places.len())?;
    let mut counts = vec![in alloc; 0u32; names as usize]?;
    for place in places {
        let found = use_at(whole, uses, *place);
        let count = &mut counts[found.number as usize];
        *count += 1;
        tokens.push(Token {
            channel: found.number,
            seq: *count,
            time: time_at(whole, *place),
            whole: value_by(form_at(values, found.form), whole.content(*place)),
            origin: Some(tokens.len() as u32),
        })?;
    }
    Ok(tokens)
}

/// The messages of a record that a filter lets through, in the order of their times, and equal
/// times in file order. The messages of each channel are numbered from 1. `written` has the
/// channels that components write and the tick channels: a message on one of them that passes the
/// filter is not played, and counted as shadowed. More than 4,194,304 to be played are
/// `TooManyPlayed`; there is no other error but `Memory`. Every channel of the record stands in
/// `names`. `values` says where the values of messages are: those of a channel that it does not
/// name are read as the message Whole.
pub fn play_list(
    alloc: Global,
    whole: &Record,
    names: &Names,
    filter: &Filter,
    written: &ChannelSet,
    values: &[ChannelValue],
) -> Result<PlayList, LoadError>
    requires { AreNamed whole.now names.now }
    ensures { PlayAnswer whole.now (record {
      names = names.now;
      filter = filter.now;
      written = written.now;
      values = values.now;
    }) result }
{
    let count = names.count();
    let uses = uses_of(alloc, whole, names, filter, written, values)?;
    let Passed {
        mut places,
        shadowed,
    } = passing(alloc, whole, &uses, filter)?;
    if places.len() > MOST_PLAYED {
        return Err(LoadError::TooManyPlayed {
            count: places.len() as u64,
        });
    }
    sort(whole, &mut places)?;
    let tokens = tokens_of(alloc, whole, &uses, values, count, &places)?;
    Ok(PlayList {
        tokens: Items::new(tokens),
        places: Items::new(places),
        shadowed,
    })
}
