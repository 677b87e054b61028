// Which messages of a record are kept.
ghost use Rattle.std.specs.Prelude.{◌≡◌, ◌<◌, ◌+◌, ◌^◌, length, false, ◌&&◌, slice_index_or};
ghost use Rattle.std.specs.Prelude.{IfOk, IsOkUnless};
ghost use Rattle.cy_msg.specs.Filter.{lets_time};
ghost use Rattle.cy_tools.specs.private.Keeping.{IsTable, IsReady, choice_of, keeps, IsFoundAt};
ghost use Rattle.cy_tools.specs.private.Keeping.{IsNextFrom};

use cy_msg::Filter;
use cy_reader::Loaded;
use cy_writer::WriteError;
use std::alloc::Global;

// A filter over the channels of a record: whether it lets a channel through is asked once for each.
#[derive(Drop)]
pub(crate) struct Lets<'a> {
    filter: &'a Filter,
    channels: Vec<bool>,
}

// The messages of a record that are kept: those that a filter lets through, or all.
#[derive(Drop)]
pub(crate) struct Kept<'a> {
    pub loaded: Loaded<'a>,
    pub lets: Option<Lets<'a>>,
}

// A message that is kept: its place, the number of its channel, and its time.
#[derive(Clone, Copy)]
pub(crate) struct Found {
    pub place: u32,
    pub channel: u32,
    pub time: u64,
}

impl<'a> Lets<'a> {
    // What a filter lets through of a record.
    pub(crate) fn of(
        alloc: Global,
        loaded: &Loaded<'_>,
        filter: &'a Filter,
    ) -> Result<Self, WriteError>
        ensures filter { IfOk result (λ l. l.filter.now ≡ filter.now) }
        ensures table { IfOk result (IsTable loaded.now.channels) }
        ensures only_memory { IsOkUnless result WriteError.Memory }
    {
        let mut channels = Vec::with_capacity(alloc, loaded.channels() as usize)?;
        for number in 0..loaded.channels() {
            let name = loaded.channel(number).name.as_str();
            channels.push(filter.lets_channel(name))?;
        }
        Ok(Lets { filter, channels })
    }

    // Whether it lets a message through.
    fn lets(&self, channel: u32, time: u64) -> bool
        requires { channel < length self.now.channels.items }
        ensures { result ≡ (slice_index_or self.now.channels.items channel false
            && lets_time self.now.filter.now time) }
    {
        self.channels[channel as usize] && self.filter.lets_time(time)
    }
}

impl Kept<'_> {
    // Whether a message is kept.
    fn keeps(&self, channel: u32, time: u64) -> bool
        requires ready { IsReady self.now }
        requires there { channel < length self.now.loaded.channels }
        ensures { result ≡ keeps (choice_of self.now) self.now.loaded.channels channel time }
    {
        match &self.lets {
            None => true,
            Some(lets) => lets.lets(channel, time),
        }
    }

    // The message at a place, where it is kept.
    pub(crate) fn at(&self, place: u32) -> Option<Found>
        requires ready { IsReady self.now }
        requires there { place < length self.now.loaded.messages }
        requires countable { place + 1 < 2 ^ 32 }
        ensures { IsFoundAt self.now place result }
    {
        let (channel, time) = self.loaded.message(place);
        if self.keeps(channel, time) {
            Some(Found {
                place,
                channel,
                time,
            })
        } else {
            None
        }
    }

    // The first message from a place on that is kept.
    pub(crate) fn next_from(&self, place: u32) -> Option<Found>
        requires { IsReady self.now }
        ensures { IsNextFrom self.now place result }
    {
        for next in place..self.loaded.messages() {
            if let Some(found) = self.at(next) {
                return Some(found);
            }
        }
        None
    }
}
