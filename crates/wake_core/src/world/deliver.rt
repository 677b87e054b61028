// Delivering a message to all its readers at once.
ghost use Rattle.std.specs.Prelude.{◌≡◌, ◌<◌, length};
ghost use Rattle.wake_core.specs.private.Delivery.{arrived_at_all, MayArriveAtAll};
ghost use Rattle.wake_core.specs.private.Delivery.{cleared_by, cleared_by_all, AreReaders};

use super::tell::waits;
use crate::World;
use cy_comp::Routine;
use cy_fuse::{Visitor, fetches_find};
use cy_msg::Token;

impl World {
    ghost use Rattle.std.specs.Prelude.{◌≡◌, ◌<◌, [], length};
    ghost use Rattle.wake_core.specs.Run.{readers_of};
    ghost use Rattle.wake_core.specs.Turns.{Delivers};
    ghost use Rattle.wake_core.specs.WorldOf.{plain_of, to_step};

    /// The message that thread 0 put on the tape arrives at its readers, and then those of which it
    /// is the first reader and that wait have their flags cleared: `fill`, `look` and `clear` for
    /// all of them, in one. It comes by reference: a copy would be written only to be read back at
    /// once, in pieces of other widths.
    #[inline(always)]
    pub(crate) fn deliver(&mut self, token: &Token)
        requires token { (plain_of self.old).tokens 0 ≡ token.now }
        requires known { token.now.channel < length (plain_of self.old).counts }
        requires all { (plain_of self.old).fills 0
            ≡ readers_of (plain_of self.old).routes token.now.channel }
        requires looked { (plain_of self.old).news 0 ≡ [] }
        requires cleared { (plain_of self.old).clearing 0 ≡ [] }
        ensures delivers { Delivers 0 (plain_of self.old) (plain_of self.new) }
        ensures steps { to_step self.new ≡ to_step self.old }
    {
        fetches_find();
        let readers = self.fixed.readers(token.channel);
        arrive_at_all(&mut self.visitors, readers, token);
        clear_all(&mut self.spent, self.routines.as_slice(), readers);
        self.owed[0].fills = 0;
    }
}

// A message arrives at each of these readers.
fn arrive_at_all(visitors: &mut Vec<Visitor>, readers: &[(u32, u8)], token: &Token)
    requires { MayArriveAtAll readers.now token.now visitors.old.items }
    ensures { visitors.new.items ≡ arrived_at_all readers.now token.now visitors.old.items }
{
    for reader in readers {
        let (component, role) = *reader;
        visitors[component as usize].arrive(role, *token);
    }
}

// Those that wait and of which one of these is the first reader have their flags cleared.
fn clear_all(spent: &mut Vec<bool>, routines: &[Routine], readers: &[(u32, u8)])
    requires readers { AreReaders readers.now (length routines.now) }
    requires size { length spent.old.items ≡ length routines.now }
    ensures { spent.new.items ≡ cleared_by_all readers.now routines.now spent.old.items }
{
    for reader in readers {
        clear_waiting(spent, routines, *reader);
    }
}

// A component that waits and of which this is the first reader has its flag cleared.
fn clear_waiting(spent: &mut Vec<bool>, routines: &[Routine], reader: (u32, u8))
    requires known { reader.0 < length routines.now }
    requires size { length spent.old.items ≡ length routines.now }
    ensures { spent.new.items ≡ cleared_by reader routines.now spent.old.items }
{
    let (component, role) = reader;
    if role == 0 && waits(routines[component as usize].state()) {
        spent[component as usize] = false;
    }
}
