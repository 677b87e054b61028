// The lines of a trace, read one by one.
ghost use Rattle.std.specs.Prelude.{◌≡◌, option_map};
ghost use Rattle.std.specs.Str.{bytes_eq};
ghost use Rattle.cy_trace_read.specs.LineReading.{Gives, call, component, ended, line_by, line_of};
ghost use Rattle.cy_trace_read.specs.LineReading.{overflow, pair, pair_last, played, state, taped};
ghost use Rattle.cy_trace_read.specs.LineReading.{title, told};

use crate::call::{call, roles};
use crate::fault::Fault;
use crate::name::name;
use crate::word::{is_word, long, short};
use cy_fuse::Overflow;
use cy_trace::{Line, TapeEntry, behind, cut, cut_last};
use std::alloc::Global;

// The first line, of which this is the form's version.
#[tactic(auto, unfolding(crate::specs::LineReading::title))]
fn title(rest: &[u8]) -> Option<Line>
    ensures { result ≡ title rest.now }
{
    let version = short(rest)?;
    if version == 1 || version == 2 {
        Some(Line::Title(version))
    } else {
        None
    }
}

// How many messages were played and shadowed.
#[tactic(auto, unfolding(crate::specs::LineReading::played))]
fn played(rest: &[u8]) -> Option<Line>
    ensures { result ≡ played rest.now }
{
    let (played, shadowed) = cut(rest, b' ')?;
    let played = short(played)?;
    let shadowed = short(behind(shadowed, b"shadowed ")?)?;
    Some(Line::Played(played, shadowed))
}

// Whether a component has ended.
fn state(word: &[u8]) -> Option<bool>
    ensures { result ≡ state word.now }
{
    if is_word(word, b"FINISHED") {
        Some(true)
    } else if is_word(word, b"DATA_WAIT") {
        Some(false)
    } else {
        None
    }
}

// Where a component goes on.
fn overflow(word: &[u8]) -> Option<Overflow>
    ensures { result ≡ overflow word.now }
{
    if is_word(word, b"NEWEST") {
        Some(Overflow::Newest)
    } else if is_word(word, b"OLDEST") {
        Some(Overflow::Oldest)
    } else {
        None
    }
}

// The overflow that is told at the end of a component's line, and what stands before it.
#[tactic(auto, unfolding(crate::specs::LineReading::told))]
fn told(rest: &[u8]) -> Option<(&[u8], Overflow)>
    ensures { option_map (λ p. (p.0.now, p.1)) result ≡ told rest.now }
{
    let (front, word) = cut_last(rest, b' ')?;
    let overflow = overflow(word)?;
    let (name, word) = cut_last(front, b' ')?;
    if is_word(word, b"overflow") {
        Some((name, overflow))
    } else {
        None
    }
}

// A component by its name, and what is told of its overflow.
#[tactic(auto, unfolding(crate::specs::LineReading::component))]
fn component(alloc: Global, rest: &[u8]) -> Result<Line, Fault>
    ensures { Gives result (component rest.now) }
{
    match told(rest) {
        Some((front, overflow)) => Ok(Line::Component(name(alloc, front)?, Some(overflow))),
        None => Ok(Line::Component(name(alloc, rest)?, None)),
    }
}

// The end of a component.
#[tactic(auto, unfolding(crate::specs::LineReading::ended))]
fn ended(rest: &[u8]) -> Option<Line>
    ensures { result ≡ ended rest.now }
{
    let (word, next) = cut(rest, b' ')?;
    let finished = state(word)?;
    let next = long(behind(next, b"next ")?)?;
    Some(Line::End(finished, next))
}

// A message of the tape.
#[tactic(auto, unfolding(crate::specs::LineReading::taped))]
fn taped(alloc: Global, rest: &[u8]) -> Result<TapeEntry, Fault>
    ensures { Gives result (taped rest.now) }
{
    let Some((channel, seq)) = cut_last(rest, b' ') else {
        return Err(Fault::Bad);
    };
    let Some(seq) = short(seq) else {
        return Err(Fault::Bad);
    };
    let name = name(alloc, channel)?;
    Ok(TapeEntry { name, seq })
}

// The value of a reading that needs no memory.
fn found(line: Option<Line>) -> Result<Line, Fault>
    ensures { Gives result line }
{
    line.ok_or(Fault::Bad)
}

// The line with a first word and what follows it.
#[tactic(auto, unfolding(crate::specs::LineReading::line_by))]
fn line_by(alloc: Global, word: &[u8], rest: &[u8]) -> Result<Line, Fault>
    ensures { Gives result (line_by word.now rest.now) }
{
    if is_word(word, b"call") {
        Ok(Line::Call(call(alloc, rest)?))
    } else if is_word(word, b"tape") {
        Ok(Line::Tape(taped(alloc, rest)?))
    } else if is_word(word, b"component") {
        component(alloc, rest)
    } else if is_word(word, b"roles") {
        Ok(Line::Roles(roles(alloc, rest)?))
    } else if is_word(word, b"end") {
        found(ended(rest))
    } else if is_word(word, b"played") {
        found(played(rest))
    } else if is_word(word, b"cyber-trace") {
        found(title(rest))
    } else {
        Err(Fault::Bad)
    }
}

/// The line that the bytes are, without a newline.
#[tactic(auto, unfolding(crate::specs::LineReading::line_of))]
pub(crate) fn line_of(alloc: Global, bytes: &[u8]) -> Result<Line, Fault>
    ensures { Gives result (line_of bytes.now) }
{
    match cut(bytes, b' ') {
        Some((word, rest)) => line_by(alloc, word, rest),
        None => Err(Fault::Bad),
    }
}
