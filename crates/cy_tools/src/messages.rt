// The messages that are kept, given one after another.
ghost use Rattle.std.specs.Prelude.{◌≡◌, map};
ghost use Rattle.cy_tools.specs.private.Keeping.{IsReady, all_kept};
ghost use Rattle.cy_tools.specs.private.Giving.{ArePlaced, CanGoOn, given_of, giving_of};

use crate::kept::Kept;
use cy_writer::{ChannelOrder, Messages, Stamp, WriteError};

// Messages of a record: those that are still to come, from a place on, and the content of the one
// that was taken last, lent by the record.
#[derive(Drop)]
pub(crate) struct KeptMessages<'a> {
    kept: &'a Kept<'a>,
    order: &'a ChannelOrder,
    place: u32,
    content: &'a [u8],
}

impl<'a> KeptMessages<'a> {
    // All that are kept, on channels in this order.
    pub(crate) fn new(kept: &'a Kept<'a>, order: &'a ChannelOrder) -> Self
        requires ready { IsReady kept.now }
        requires placed { ArePlaced order.now.numbers (all_kept kept.now) }
        ensures can_next { CanGoOn result }
        ensures rest { (giving_of result).rest ≡ map (given_of order.now.numbers)
            (all_kept kept.now) }
    {
        KeptMessages {
            kept,
            order,
            place: 0,
            content: &[],
        }
    }
}

impl Messages for KeptMessages<'_> {
    ghost can_next = { CanGoOn };

    ghost shows = { giving_of };

    fn next(&mut self) -> Result<Option<Stamp>, WriteError> {
        let Some(found) = self.kept.next_from(self.place) else {
            return Ok(None);
        };
        self.content = self.kept.loaded.content(found.place);
        self.place = found.place + 1;
        Ok(Some(Stamp {
            channel: self.order.place(found.channel),
            time: found.time,
        }))
    }

    fn content(&self) -> &[u8] {
        self.content
    }
}
