// The messages of a tape, given one after another.
ghost use Rattle.std.specs.Prelude.{◌≡◌, ◌≤◌, ◌<◌, ℕ, List, Some, None, length, slice_get};
ghost use Rattle.std.specs.Prelude.{unwrap_or, option_copied, IfOk, OnOk, IsOkUnless};
ghost use Rattle.cy_comp.specs.declared.plan.Plan.{Plan};
ghost use Rattle.cy_msg.specs.Tokens.{most_played};
ghost use Rattle.cy_recording.specs.Recording.{source_of, content_by, content_from, content_in};
ghost use Rattle.cy_recording.specs.Recording.{answer_content, content_of, played_contents};
ghost use Rattle.cy_recording.specs.Recording.{IsWritable};
ghost use Rattle.cy_recording.specs.private.RecordSteps.{ArePlaced, CanGoOn, all_given, giving_of};

use crate::Played;
use cy_comp::Kind;
use cy_msg::{MOST_PLAYED, Token};
use cy_wire::{WireError, Writer, put_whole};
use cy_writer::{ChannelOrder, Messages, Stamp, WriteError};
use std::alloc::Global;

// The messages of a tape: those that are still to come, and the content of the one that was taken
// last, lent by the record that was read or by the class that has it, or else made here.
#[derive(Drop)]
pub(crate) struct TapeMessages<'a> {
    played: &'a Played<'a>,
    order: &'a ChannelOrder,
    rest: &'a [Token],
    lent: Option<&'a [u8]>,
    made: Writer,
}

// The want of memory for which a number was not written.
fn no_memory_for_number(error: WireError) -> WriteError
    requires { error ≡ WireError.Memory }
    ensures { result ≡ WriteError.Memory }
{
    let _memory = error;
    WriteError::Memory
}

// Writes a value, or nothing, in place of the last content.
fn make_content(made: &mut Writer, value: Option<i64>) -> Result<(), WriteError>
    ensures content { (contents : List (List ℕ)) (plans : List Plan)
        → OnOk result (made.new ≡ content_by contents plans None value) }
    ensures only_memory { IsOkUnless result WriteError.Memory }
{
    made.clear();
    if let Some(value) = value {
        put_whole(made, value).map_err(no_memory_for_number)?;
    }
    Ok(())
}

// The content of a played message: a slice of the record that was read.
fn played_content<'a>(played: &Played<'a>, origin: u32) -> &'a [u8]
    requires origin { origin < length (source_of played.now).places }
    requires places { (n place : ℕ) → slice_get (source_of played.now).places n ≡ Some place
        → place < length (source_of played.now).whole.messages }
    ensures { Some result.now ≡ slice_get (played_contents (source_of played.now)) origin }
{
    let place = played.list.places.as_slice()[origin as usize];
    played.whole.content(place)
}

// The content of an answer by its place among those that a class has from a file: a slice of it.
fn content_in(kind: &Kind, place: usize) -> &[u8]
    ensures { result.now ≡ content_in kind.now place }
{
    let Kind::External { answers } = kind else {
        return &[];
    };
    match answers.as_slice().get(place) {
        Some(answer) => answer.content.as_slice(),
        None => &[],
    }
}

// The content of the answer that an origin is of.
fn answer_content<'a>(played: &Played<'a>, origin: usize) -> &'a [u8]
    requires { most_played ≤ origin }
    ensures { result.now ≡ answer_content (source_of played.now).plans origin }
{
    let component = origin / MOST_PLAYED - 1;
    match played.wiring.plans.as_slice().get(component) {
        Some(plan) => content_in(&plan.kind, origin % MOST_PLAYED),
        None => &[],
    }
}

// The content of the played message or the answer that an origin is of.
fn content_from<'a>(played: &Played<'a>, origin: u32) -> &'a [u8]
    requires origin { origin < most_played → origin < length (source_of played.now).places }
    requires places { (n place : ℕ) → slice_get (source_of played.now).places n ≡ Some place
        → place < length (source_of played.now).whole.messages }
    ensures { result.now ≡ content_from (played_contents (source_of played.now))
        (source_of played.now).plans origin }
{
    let number = origin as usize;
    if number < MOST_PLAYED {
        played_content(played, origin)
    } else {
        answer_content(played, number)
    }
}

// The content of a message, where it lies in the record that was read or in a class; else it is
// made.
fn take_content<'a>(
    played: &Played<'a>,
    made: &mut Writer,
    token: &Token,
) -> Result<Option<&'a [u8]>, WriteError>
    requires origin { (o : ℕ) → token.now.origin ≡ Some o
        → o < most_played → o < length (source_of played.now).places }
    requires places { (n place : ℕ) → slice_get (source_of played.now).places n ≡ Some place
        → place < length (source_of played.now).whole.messages }
    ensures content { IfOk result (λ lent. unwrap_or (option_copied lent) made.new
        ≡ content_of (source_of played.now) token.now) }
    ensures only_memory { IsOkUnless result WriteError.Memory }
{
    match token.origin {
        Some(origin) => Ok(Some(content_from(played, origin))),
        None => {
            make_content(made, token.whole)?;
            Ok(None)
        }
    }
}

impl<'a> TapeMessages<'a> {
    // All messages of a tape, on channels in this order.
    pub(crate) fn new(
        alloc: Global,
        played: &'a Played<'a>,
        order: &'a ChannelOrder,
        tape: &'a [Token],
    ) -> Self
        requires placed { ArePlaced order.now.numbers tape.now }
        requires writable { IsWritable (source_of played.now) tape.now }
        ensures can_next { CanGoOn result }
        ensures rest { (giving_of result).rest
            ≡ all_given (source_of played.now) order.now.numbers tape.now }
    {
        TapeMessages {
            played,
            order,
            rest: tape,
            lent: None,
            made: Writer::new(alloc),
        }
    }
}

impl Messages for TapeMessages<'_> {
    ghost can_next = { CanGoOn };

    ghost shows = { giving_of };

    fn next(&mut self) -> Result<Option<Stamp>, WriteError> {
        let Some((token, rest)) = self.rest.split_first() else {
            return Ok(None);
        };
        self.lent = take_content(self.played, &mut self.made, token)?;
        self.rest = rest;
        Ok(Some(Stamp {
            channel: self.order.place(token.channel),
            time: token.time,
        }))
    }

    fn content(&self) -> &[u8] {
        match self.lent {
            Some(content) => content,
            None => self.made.done(),
        }
    }
}
