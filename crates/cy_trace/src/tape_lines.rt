// The lines of a tape's messages.
ghost use Rattle.std.specs.Prelude.{◌≡◌, ◌≤◌, ◌<◌, ◌+◌, ◌++◌, ◌∷◌, [], length, IfOk, IfSome, Some};
ghost use Rattle.cy_trace.specs.Tapes.{entry_by, told_by, AreNamed};
ghost use Rattle.cy_trace.specs.private.Fronts.{BeginsWith};
ghost use Rattle.cy_trace.specs.Taking.{TakesMessages};
ghost use Rattle.cy_trace.specs.declared.line.Line.TheVariants as line;

use crate::added::is_added;
use crate::front::{front_byte, front_short, front_word};
use crate::hints::{Hints, place_of};
use crate::named::TapeName;
use crate::turn::Turn;
use crate::word::{cut, cut_last};
use crate::{NamedSeq, Tape, TapeEntry};
use cy_msg::{Bytes, Text, push_quoted};
use std::alloc::{AllocError, Global};
use std::collections::HashMap;

/// How many names are found by the map. A lawful run has at most 1,024; where a tape has more than
/// these, each line of a further name keeps a name of its own.
const MOST_FOUND: usize = 65_536;

impl Tape {
    ghost use Rattle.std.specs.Prelude.{◌≡◌, ◌≤◌, ◌<◌, ◌+◌, ◌++◌, ◌∷◌, [], length, IfOk};
    ghost use Rattle.cy_trace.specs.Taking.{TakesMessages};

    /// The same with one more message, of a name that is kept anew.
    pub fn with(self, alloc: Global, entry: TapeEntry) -> Result<Tape, AllocError>
        requires { length self < 4294967295 }
        ensures { IfOk result (λ t. t ≡ self ++ entry ∷ []) }
    {
        let Tape {
            mut names,
            mut numbers,
            hints,
            mut messages,
        } = self;
        let TapeEntry { name, seq } = entry;
        let number = names.len() as u32;
        keep_number(alloc, &mut numbers, &name, number)?;
        names.push(name_of(alloc, name)?)?;
        messages.push(NamedSeq { name: number, seq })?;
        Ok(Tape {
            names,
            numbers,
            hints,
            messages,
        })
    }

    /// Takes the messages whose lines the bytes begin with, as far as there is memory and their
    /// names are known. Answers what stands behind these lines, and the number of the next line,
    /// where `line` is that of the first one.
    pub fn take_lines<'a>(&mut self, bytes: &'a [u8], line: u32) -> (&'a [u8], u32)
        requires { line + length bytes.now ≤ 4294967295 }
        ensures { TakesMessages bytes.now result.0.now self.old self.new line result.1 }
    {
        take_messages(
            self.names.as_slice(),
            &self.numbers,
            &mut self.hints,
            &mut self.messages,
            bytes,
            line,
        )
    }
}

// Keeps the number of a name, by the name in quotes.
fn keep_number(
    alloc: Global,
    numbers: &mut HashMap<Vec<u8>, u32>,
    name: &Text,
    number: u32,
) -> Result<(), AllocError> {
    if numbers.len() >= MOST_FOUND {
        return Ok(());
    }
    let mut quoted = Vec::new(alloc);
    push_quoted(&mut quoted, name.as_str().as_bytes(), true)?;
    numbers.insert(quoted, number)?;
    Ok(())
}

// The number of the name whose line the bytes may begin with, found by the whole name.
fn number_of(numbers: &HashMap<Vec<u8>, u32>, bytes: &[u8]) -> Option<u32> {
    let rest = front_word(bytes, b"tape ")?;
    let (line, _) = cut(rest, b'\n')?;
    let (quoted, _) = cut_last(line, b' ')?;
    numbers.get(quoted).copied()
}

// Takes the messages of these names whose lines come next.
fn take_messages<'a>(
    names: &[TapeName],
    numbers: &HashMap<Vec<u8>, u32>,
    hints: &mut Hints,
    messages: &mut Vec<NamedSeq>,
    bytes: &'a [u8],
    line: u32,
) -> (&'a [u8], u32)
    requires { line + length bytes.now ≤ 4294967295 }
    ensures named { AreNamed names.now messages.old.items
        → AreNamed names.now messages.new.items }
    ensures taken { TakesMessages bytes.now result.0.now (told_by names.now messages.old.items)
        (told_by names.now messages.new.items) line result.1 }
{
    let mut rest = bytes;
    let mut next = line;
    let mut turn = Turn::first();
    while let Some((message, more)) = front_message(names, numbers, hints, turn, rest) {
        if !is_added(messages, message) {
            return (rest, next);
        }
        turn = turn.after(message.name, names.len());
        rest = more;
        next += 1;
    }
    (rest, next)
}

// A name, with what its lines begin with.
fn name_of(alloc: Global, text: Text) -> Result<TapeName, AllocError>
    ensures { IfOk result (λ n. n.text ≡ text) }
{
    let mut start = Vec::from_slice(alloc, b"tape ")?;
    push_quoted(&mut start, text.as_str().as_bytes(), true)?;
    start.extend_from_slice(b" ")?;
    Ok(TapeName {
        text,
        start: Bytes::from_vec(start),
    })
}

// The message of this name whose line the bytes begin with.
#[inline(always)]
fn front_of<'a>(names: &[TapeName], number: u32, bytes: &'a [u8]) -> Option<(NamedSeq, &'a [u8])>
    ensures { IfSome result (λ p. (p.0.name < length names.now)
        × BeginsWith bytes.now (line.Tape (entry_by names.now p.0)) p.1.now) }
{
    let place = number as usize;
    if place >= names.len() {
        return None;
    }
    let name = &names[place];
    let _text = name.text.as_str();
    let rest = front_word(bytes, name.start.as_slice())?;
    let (seq, rest) = front_short(rest)?;
    let rest = front_byte(rest, b'\n')?;
    Some((NamedSeq { name: number, seq }, rest))
}

// The message whose line the bytes begin with, where its name is among these: the name that comes
// next in turns, or that of a hint, or else the one that is found by the map, which takes longest.
#[inline(always)]
fn front_message<'a>(
    names: &[TapeName],
    numbers: &HashMap<Vec<u8>, u32>,
    hints: &mut Hints,
    turn: Turn,
    bytes: &'a [u8],
) -> Option<(NamedSeq, &'a [u8])>
    ensures { IfSome result (λ p. (p.0.name < length names.now)
        × BeginsWith bytes.now (line.Tape (entry_by names.now p.0)) p.1.now) }
{
    if turn.is_kept {
        let found = front_of(names, turn.number, bytes);
        if found.is_some() {
            return found;
        }
    }
    let place = place_of(bytes);
    let found = front_of(names, hints.at(place), bytes);
    if found.is_some() {
        return found;
    }
    let number = number_of(numbers, bytes)?;
    hints.note(place, number);
    front_of(names, number, bytes)
}
