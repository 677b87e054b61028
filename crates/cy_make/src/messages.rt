// The messages of the record, given one after another.
ghost use Rattle.std.specs.Prelude.{◌≡◌, ◌≤◌};
ghost use Rattle.cy_make.specs.Messages.{time_of};
ghost use Rattle.cy_make.specs.private.Steps.{CanGoOn, giving_of, given_after, number_on};

use crate::value::value_at;
use cy_wire::{WireError, Writer, put_whole};
use cy_writer::{Messages, Stamp, WriteError};
use std::alloc::Global;

// The messages 1 to a last one: how many were given, and the content of the one given last.
#[derive(Drop)]
pub(crate) struct MadeMessages {
    given: u32,
    last: u32,
    content: Writer,
}

// The want of memory for which a number was not written.
fn no_memory_for_number(error: WireError) -> WriteError
    requires { error ≡ WireError.Memory }
    ensures { result ≡ WriteError.Memory }
{
    let _memory = error;
    WriteError::Memory
}

// The channel and the time of the message of a number.
fn stamp_of(number: u32) -> Stamp
    ensures channel { result.channel ≡ number_on number }
    ensures time { result.time ≡ time_of number }
{
    Stamp {
        channel: if number % 3 == 0 { 1 } else { 0 },
        time: 1_000_000 * u64::from(number),
    }
}

impl MadeMessages {
    // The messages 1 to a last one.
    pub(crate) fn to(alloc: Global, last: u32) -> Self
        requires { last ≤ 1048576 }
        ensures can_next { CanGoOn result }
        ensures rest { (giving_of result).rest ≡ given_after 0 last }
    {
        MadeMessages {
            given: 0,
            last,
            content: Writer::new(alloc),
        }
    }
}

impl Messages for MadeMessages {
    ghost can_next = { CanGoOn };

    ghost shows = { giving_of };

    fn next(&mut self) -> Result<Option<Stamp>, WriteError> {
        if self.given == self.last {
            return Ok(None);
        }
        let number = self.given + 1;
        self.content.clear();
        put_whole(&mut self.content, value_at(number)).map_err(no_memory_for_number)?;
        self.given = number;
        Ok(Some(stamp_of(number)))
    }

    fn content(&self) -> &[u8] {
        self.content.done()
    }
}
