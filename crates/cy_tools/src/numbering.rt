// The channels of the messages that are kept.
ghost use Rattle.std.specs.Prelude.{◌<◌, length, OnOk, IfOk, IsOkUnless};
ghost use Rattle.cy_tools.specs.private.Keeping.{IsReady};
ghost use Rattle.cy_tools.specs.private.Giving.{CanLook, IsNumbering, LooksAt};

use crate::kept::Kept;
use cy_writer::{ChannelOrder, WriteError};
use std::alloc::Global;

// The channels of messages, in the order of the first ones, and how many messages they are.
#[derive(Drop)]
pub(crate) struct Numbering {
    pub order: ChannelOrder,
    pub count: u32,
}

impl Numbering {
    // Looks at the message at a place: where it is kept, it is counted and its channel noted.
    fn look(&mut self, kept: &Kept<'_>, place: u32) -> Result<(), WriteError>
        requires ready { IsReady kept.now }
        requires there { place < length kept.now.loaded.messages }
        requires fits { CanLook kept.now place self.old }
        ensures looked { OnOk result (LooksAt kept.now place self.old self.new) }
        ensures only_memory { IsOkUnless result WriteError.Memory }
    {
        match kept.at(place) {
            None => Ok(()),
            Some(found) => {
                self.order.note(found.channel)?;
                self.count += 1;
                Ok(())
            }
        }
    }

    // Those of all messages that are kept.
    pub(crate) fn of(alloc: Global, kept: &Kept<'_>) -> Result<Self, WriteError>
        requires { IsReady kept.now }
        ensures numbering { IfOk result (IsNumbering kept.now) }
        ensures only_memory { IsOkUnless result WriteError.Memory }
    {
        let order = ChannelOrder::none(alloc, kept.loaded.channels())?;
        let mut numbering = Numbering { order, count: 0 };
        for place in 0..kept.loaded.messages() {
            numbering.look(kept, place)?;
        }
        Ok(numbering)
    }
}
