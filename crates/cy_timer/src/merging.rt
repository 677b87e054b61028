// Messages with the ticks of timers among them.
ghost use Rattle.std.specs.Prelude.{◌≡◌, ◌≤◌, ◌*◌, map, length, sum_by, IfOk};
ghost use Rattle.std.specs.List.{flat_map};
ghost use Rattle.cy_msg.specs.Tokens.{IsTimed, most_played};
ghost use Rattle.cy_timer.specs.Merged.{MergeAnswer, by_time, merged};
ghost use Rattle.cy_timer.specs.Ticks.{most_ticks, ticks_between, ticks_of};
ghost use Rattle.cy_timer.specs.Timers.{AreApart, AreTimers};
ghost use Rattle.cy_timer.specs.private.Left.{left_of};
ghost use Rattle.cy_timer.specs.private.Sources.{AreTimed, span_of};

use crate::sources::Sources;
use crate::ticks::Ticks;
use crate::timer::tick_count;
use crate::{Timer, TimerError};
use cy_msg::{Items, MOST_PLAYED, PlayList, Token};
use std::alloc::{AllocError, Global};

// The times of the first and the last message.
fn span(messages: &[Token]) -> Option<(u64, u64)>
    ensures { result ≡ span_of messages.now }
{
    let (first, last) = (messages.first()?, messages.last()?);
    Some((first.time, last.time))
}

// How many ticks timers give from a time to another.
fn count_between(timers: &[Timer], begin: u64, end: u64) -> u64
    requires timers { AreTimers timers.now }
    requires order { begin ≤ end }
    ensures count { result ≡ sum_by (λ t. length (ticks_between begin end t)) timers.now }
    ensures most { result ≤ length timers.now * most_ticks }
{
    let mut count = 0;
    for timer in timers {
        count += tick_count(timer.interval, begin, end);
    }
    count
}

// How many messages and ticks there are.
fn count_all(messages: &[Token], timers: &[Timer]) -> u64
    requires timers { AreTimers timers.now }
    requires timed { IsTimed messages.now }
    ensures { result ≡ length (merged messages.now timers.now) }
{
    match span(messages) {
        Some((begin, end)) => messages.len() as u64 + count_between(timers, begin, end),
        None => 0,
    }
}

// The ticks of timers from a time to another.
fn between(alloc: Global, timers: &[Timer], begin: u64, end: u64) -> Result<Vec<Ticks>, AllocError>
    requires timers { AreTimers timers.now }
    requires order { begin ≤ end }
    requires few { sum_by (λ t. length (ticks_between begin end t)) timers.now ≤ most_played }
    ensures { IfOk result (λ ts. ts.items ≡ map (ticks_between begin end) timers.now) }
{
    let mut ticks = Vec::with_capacity(alloc, timers.len())?;
    for timer in timers {
        ticks.push(Ticks::new(timer, begin, end))?;
    }
    Ok(ticks)
}

// The ticks of timers while messages are played.
fn during(alloc: Global, messages: &[Token], timers: &[Timer]) -> Result<Vec<Ticks>, AllocError>
    requires timers { AreTimers timers.now }
    requires timed { IsTimed messages.now }
    requires few { length (merged messages.now timers.now) ≤ most_played }
    ensures ticks { IfOk result (λ ts. flat_map (λ t. t) ts.items
        ≡ flat_map (ticks_of messages.now) timers.now) }
    ensures timed { IfOk result (λ ts. AreTimed ts.items) }
{
    match span(messages) {
        Some((begin, end)) => between(alloc, timers, begin, end),
        None => Ok(Vec::new(alloc)),
    }
}

// All that is left, in the order of time; there are so many.
fn in_order(alloc: Global, left: &mut Sources<'_>, count: usize) -> Result<Vec<Token>, AllocError>
    ensures { IfOk result (λ ts. ts.items ≡ by_time (left_of left.old)) }
{
    let mut tokens = Vec::with_capacity(alloc, count)?;
    while let Some(token) = left.take_first() {
        tokens.push(token)?;
    }
    Ok(tokens)
}

// The messages with the ticks, of which there are so many together.
fn all(
    alloc: Global,
    messages: &[Token],
    timers: &[Timer],
    count: usize,
) -> Result<Vec<Token>, AllocError>
    requires timers { AreTimers timers.now }
    requires timed { IsTimed messages.now }
    requires few { length (merged messages.now timers.now) ≤ most_played }
    ensures { IfOk result (λ ts. ts.items ≡ merged messages.now timers.now) }
{
    let ticks = during(alloc, messages, timers)?;
    let mut left = Sources { messages, ticks };
    in_order(alloc, &mut left, count)
}

/// The messages of a play list with the ticks of timers among them, in the order of their times:
/// at one time messages stand first, and then ticks in the order of the timers. A timer gives a
/// tick at each multiple of its interval from the first message's time to that of the last, and
/// none without a message; a tick's number on the timer's channel, from 1, is its value. More than
/// [`MOST_PLAYED`] messages and ticks together are `TooManyPlayed`; there is no other error but
/// `Memory`. No message stands on a channel of a timer.
pub fn merge(alloc: Global, messages: &PlayList, timers: &[Timer]) -> Result<PlayList, TimerError>
    requires timers { AreTimers timers.now }
    requires apart { AreApart messages.now.tokens timers.now }
    ensures { MergeAnswer messages.now timers.now result }
{
    let count = count_all(messages.tokens.as_slice(), timers);
    if count > MOST_PLAYED as u64 {
        return Err(TimerError::TooManyPlayed { count });
    }
    let places = Vec::from_slice(alloc, messages.places.as_slice())?;
    let tokens = all(alloc, messages.tokens.as_slice(), timers, count as usize)?;
    Ok(PlayList {
        tokens: Items::new(tokens),
        places: Items::new(places),
        shadowed: messages.shadowed,
    })
}
