// The record of a replay, and all that is played.
ghost use Rattle.std.specs.Prelude.{◌≡◌, ◌≤◌, ◌++◌, length, map, IfOk, OnOk, IsOkUnless};
ghost use Rattle.cy_msg.specs.Tokens.{most_played};
ghost use Rattle.cy_play_list.specs.Play.{AreNamed, IsPlayList};
ghost use Rattle.cy_timer.specs.Merged.{IsMerged, merged};
ghost use Rattle.cy_timer.specs.Timers.{AreApart, AreTimers, timers_of};
ghost use Rattle.cy_setup.specs.Comes.{ComesTo, IsJudged};
ghost use Rattle.cy_setup.specs.Listing.{IsListed, record_in, channels_of, choice_of, few_in};
ghost use Rattle.cy_setup.specs.Listing.{messages_in, played_in, written_in};
ghost use Rattle.cy_setup.specs.Wiring.{wired_by};

use crate::error::{record_fault, refused};
use crate::values::values_in;
use crate::{Fault, SetupError};
use cy_comp::Wiring;
use cy_msg::{Filter, NamesError, PlayList, Text};
use cy_play_list::{ChannelSet, play_list};
use cy_reader::{LoadError, Record, load};
use cy_store::Store;
use cy_timer::{Timer, TimerError, merge, timers};
use std::alloc::{AllocError, Global};
use std::thread::Threads;

/// Reads a record, or tells why the file is none. No file is changed.
pub fn read_record<S: Store, R: Threads + Sync>(
    rt: &R,
    alloc: Global,
    store: &mut S,
    name: &str,
) -> Result<Record, SetupError>
    ensures { ComesTo (λ r. r) (record_in name.now) (λ file. file ≡ name.now) (S.shows store.old)
        (S.shows store.new) result }
{
    match load(rt, alloc, store, name) {
        Ok(recorded) => Ok(recorded),
        Err(fault) => Err(record_fault(alloc, name, fault)),
    }
}

/// The names of a record's channels.
pub(crate) fn channel_names(alloc: Global, recorded: &Record) -> Result<Vec<Text>, NamesError>
    ensures { IfOk result (λ names. names.items ≡ channels_of recorded.now) }
{
    let mut names = Vec::with_capacity(alloc, recorded.channels() as usize)?;
    for number in 0..recorded.channels() {
        names.push(Text::new(alloc, recorded.channel(number).name.as_str())?)?;
    }
    Ok(names)
}

// The timers of a wiring's components.
fn timers_of(alloc: Global, wiring: &Wiring) -> Result<Vec<Timer>, SetupError>
    ensures timers { IfOk result (λ ts. ts.items ≡ timers_of wiring.now.plans) }
    ensures lawful { IfOk result (λ ts. AreTimers ts.items) }
    ensures only_memory { IsOkUnless result SetupError.Memory }
{
    match timers(alloc, wiring) {
        Ok(timers) => Ok(timers),
        Err(_) => Err(SetupError::Memory),
    }
}

// The channels that components write, and those of ticks.
fn written_by(alloc: Global, wiring: &Wiring, timers: &[Timer]) -> Result<ChannelSet, AllocError>
    requires { timers.now ≡ timers_of wiring.now.plans }
    ensures { IfOk result (λ set. set ≡ written_in wiring.now.plans) }
{
    let plans = wiring.plans.as_slice();
    let mut numbers = Vec::with_capacity(alloc, plans.len())?;
    for plan in plans {
        numbers.push(plan.out)?;
    }
    push_channels(&mut numbers, timers)?;
    Ok(ChannelSet::new(numbers))
}

// Adds the channels of timers.
fn push_channels(numbers: &mut Vec<u32>, timers: &[Timer]) -> Result<(), AllocError>
    ensures { OnOk result (numbers.new.items
        ≡ numbers.old.items ++ map (λ t. t.channel) timers.now) }
{
    for timer in timers {
        numbers.push(timer.channel)?;
    }
    Ok(())
}

// The messages of a record that a filter lets through and that stand neither on a channel that a
// component writes nor on one of ticks, in the order of play; or a fault of the record.
fn list_messages(
    alloc: Global,
    name: &str,
    filter: &Filter,
    recorded: &Record,
    wiring: &Wiring,
    timers: &[Timer],
) -> Result<PlayList, SetupError>
    requires named { AreNamed recorded.now wiring.now.names }
    requires timers { timers.now ≡ timers_of wiring.now.plans }
    ensures judged { IsJudged (λ list. length list.places)
        (messages_in name.now recorded.now (choice_of filter.now (wired_by wiring.now))) result }
    ensures listed { IfOk result
        (IsPlayList recorded.now (choice_of filter.now (wired_by wiring.now))) }
{
    let written = written_by(alloc, wiring, timers)?;
    let values = values_in(alloc, wiring.plans.as_slice())?;
    match play_list(alloc, recorded, &wiring.names, filter, &written, &values) {
        Ok(list) => Ok(list),
        Err(fault) => Err(record_fault(alloc, name, fault)),
    }
}

// Messages with the ticks of timers among them, or a fault of their record.
fn with_ticks(
    alloc: Global,
    name: &str,
    messages: PlayList,
    timers: &[Timer],
) -> Result<PlayList, SetupError>
    requires timers { AreTimers timers.now }
    requires apart { AreApart messages.tokens timers.now }
    requires few { length messages.tokens ≤ most_played }
    ensures merged { IfOk result (IsMerged messages timers.now) }
    ensures judged { IsJudged (λ list. length list.tokens)
        (few_in name.now (length (merged messages.tokens timers.now))) result }
    ensures few { IfOk result (λ list. length list.tokens ≤ most_played) }
{
    if timers.is_empty() {
        return Ok(messages);
    }
    let merged = merge(alloc, &messages, timers);
    drop(messages);
    match merged {
        Ok(list) => Ok(list),
        Err(TimerError::TooManyPlayed { count }) => {
            let fault = Fault::Record(LoadError::TooManyPlayed { count });
            Err(refused(alloc, name, fault))
        }
        Err(TimerError::Memory) => Err(SetupError::Memory),
    }
}

/// All that is played of a record: its messages that a filter lets through and that stand neither
/// on a channel that a component writes nor on one of ticks, in the order of play, with the ticks
/// of the wiring's timers among them; or a fault of the record.
pub(crate) fn list_all(
    alloc: Global,
    name: &str,
    filter: &Filter,
    recorded: &Record,
    wiring: &Wiring,
) -> Result<PlayList, SetupError>
    requires { AreNamed recorded.now wiring.now.names }
    ensures judged { IsJudged (λ list. length list.tokens)
        (played_in name.now recorded.now filter.now (wired_by wiring.now)) result }
    ensures listed { IfOk result (IsListed recorded.now filter.now (wired_by wiring.now)) }
    ensures few { IfOk result (λ list. length list.tokens ≤ most_played) }
{
    let timers = timers_of(alloc, wiring)?;
    let messages = list_messages(alloc, name, filter, recorded, wiring, &timers)?;
    with_ticks(alloc, name, messages, &timers)
}
