// Calls and arrivals.
ghost use Rattle.std.specs.Prelude.{◌≡◌, ◌<◌, ◌≤◌, ◌∷◌, Some, length, IfSome, option_map};
ghost use Rattle.cy_trace_read.specs.LineReading.{Gives, call, digits, output, pair, pair_last};
ghost use Rattle.cy_trace_read.specs.LineReading.{place, role, roles, seqs, timed};
ghost use Rattle.cy_trace_read.specs.Numerals.{number, signed};
ghost use Rattle.cy_trace_read.specs.LineReading.{GivesItems, numbers, words_left};

use crate::fault::Fault;
use crate::word::{is_word, long, short, signed};
use cy_msg::Items;
use cy_trace::{MOST_MESSAGES, Seqs, TraceCall, TraceOutput, cut, cut_last};
use std::alloc::Global;

// The position and the tail of a call.
#[tactic(auto, unfolding(crate::specs::LineReading::place))]
fn place(word: &[u8]) -> Option<(u64, u64)>
    ensures { result ≡ place word.now }
{
    let (position, tail) = cut(word, b'/')?;
    let position = long(position)?;
    let tail = long(tail)?;
    Some((position, tail))
}

// A time, and a value where there is one.
#[tactic(auto, unfolding(crate::specs::LineReading::timed))]
fn timed(word: &[u8]) -> Option<(u64, Option<i64>)>
    ensures { result ≡ timed word.now }
{
    match cut(word, b'=') {
        None => {
            let time = long(word)?;
            Some((time, None))
        }
        Some((time, value)) => {
            let time = long(time)?;
            let value = signed(value)?;
            Some((time, Some(value)))
        }
    }
}

// What a call put out, or a dash.
#[tactic(auto, unfolding(crate::specs::LineReading::output))]
fn output(word: &[u8]) -> Option<Option<TraceOutput>>
    ensures { result ≡ output word.now }
{
    if is_word(word, b"-") {
        return Some(None);
    }
    let (seq, timing) = cut(word, b'@')?;
    let seq = short(seq)?;
    let (time, value) = timed(timing)?;
    Some(Some(TraceOutput { seq, time, value }))
}

// The first of some words with single spaces between, and the others, of which there may be none.
fn first_word(words: &[u8]) -> (&[u8], Option<&[u8]>)
    ensures parts { words_left (Some words.now) ≡ result.0.now
        ∷ words_left (option_map (λ w. w.now) result.1) }
    ensures shorter { IfSome result.1 (λ w. length w.now < length words.now) }
{
    match cut(words, b' ') {
        Some((word, more)) => (word, Some(more)),
        None => (words, None),
    }
}

// Numbers with single spaces between.
fn numbers(alloc: Global, bytes: &[u8]) -> Result<Vec<u32>, Fault>
    ensures { GivesItems result (numbers (words_left (Some bytes.now))) }
{
    let mut numbers = Vec::new(alloc);
    let mut rest = Some(bytes);
    while let Some(words) = rest {
        let (word, more) = first_word(words);
        let Some(number) = short(word) else {
            return Err(Fault::Bad);
        };
        numbers.push(number)?;
        rest = more;
    }
    Ok(numbers)
}

// The numbers of the messages of a call, with single spaces between.
#[tactic(auto, unfolding(crate::specs::LineReading::seqs))]
fn seqs(alloc: Global, bytes: &[u8]) -> Result<Seqs, Fault>
    ensures { Gives result (seqs bytes.now) }
{
    let seqs = numbers(alloc, bytes)?;
    if seqs.len() > MOST_MESSAGES {
        return Err(Fault::Bad);
    }
    Ok(Seqs::of(&seqs))
}

/// A call.
#[tactic(auto, unfolding(crate::specs::LineReading::call))]
pub(crate) fn call(alloc: Global, bytes: &[u8]) -> Result<TraceCall, Fault>
    ensures { Gives result (call bytes.now) }
{
    let Some((first, rest)) = cut(bytes, b' ') else {
        return Err(Fault::Bad);
    };
    let Some((middle, last)) = cut_last(rest, b' ') else {
        return Err(Fault::Bad);
    };
    let Some((position, tail)) = place(first) else {
        return Err(Fault::Bad);
    };
    let Some(out) = output(last) else {
        return Err(Fault::Bad);
    };
    let seqs = seqs(alloc, middle)?;
    Ok(TraceCall {
        position,
        tail,
        seqs,
        out,
    })
}

// The role that a digit is.
fn role(byte: u8) -> Option<u8>
    ensures { result ≡ role byte }
{
    match byte {
        b'0'..=b'9' => Some(byte - b'0'),
        _ => None,
    }
}

// A digit for each arrival, its role.
fn digits(alloc: Global, bytes: &[u8]) -> Result<Items<u8>, Fault>
    ensures { Gives result (digits bytes.now) }
{
    let mut roles = Vec::with_capacity(alloc, bytes.len())?;
    for byte in bytes {
        let Some(role) = role(*byte) else {
            return Err(Fault::Bad);
        };
        roles.push(role)?;
    }
    Ok(Items::new(roles))
}

/// The role of each arrival, or a dash.
#[tactic(auto, unfolding(crate::specs::LineReading::roles))]
pub(crate) fn roles(alloc: Global, bytes: &[u8]) -> Result<Items<u8>, Fault>
    ensures { Gives result (roles bytes.now) }
{
    if is_word(bytes, b"-") {
        return Ok(Items::new(Vec::new(alloc)));
    }
    if bytes.is_empty() {
        return Err(Fault::Bad);
    }
    digits(alloc, bytes)
}
