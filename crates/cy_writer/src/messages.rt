// Messages for a record.
ghost use Rattle.std.specs.Prelude.{◌≡◌};
ghost use Rattle.cy_writer.specs.Messages.{Giving, NextAnswer};

use crate::WriteError;

/// The number of a message's channel, counted from 0, and the message's time in nanoseconds.
#[derive(Clone, Copy)]
pub struct Stamp {
    /// The channel's number.
    pub channel: u32,
    /// The time.
    pub time: u64,
}

/// Messages that are given one after another, each with its content lent.
pub trait Messages: Drop {
    /// What it needs so that it can be asked for the next message. Every call keeps it.
    ghost can_next: { Self → Type 0 };

    /// The content that it lends, and the messages that are still to come.
    ghost shows: { Self → Giving };

    /// Takes the next message, if there is one: answers its channel and time, and lends its content
    /// from then on. Its only error is `Memory`, which passes no message over.
    fn next(&mut self) -> Result<Option<Stamp>, WriteError>
        requires { can_next self.old }
        ensures next { NextAnswer (shows self.old) (shows self.new) result }
        ensures goes_on { can_next self.new };

    /// The content of the message that was taken last. It is any before the first.
    fn content(&self) -> &[u8]
        ensures { result.now ≡ (shows self.now).content };
}
