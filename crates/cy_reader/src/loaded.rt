// The channels and messages that were read of a file.
ghost use Rattle.std.specs.Prelude.{◌≡◌, ◌<◌, length, slice_get, IfSome};
ghost use Rattle.cy_reader.specs.private.Loading.{IsSound, met_of};

use crate::loading::Loading;
use cy_msg::Bytes;
use cy_section::Channel;
use std::marker::Model;

/// The channels and messages that were read of a file, where they are kept: contracts see both
/// lists. The channels are numbered in the order of their first mention.
#[derive(Drop)]
pub struct Loaded<'a> {
    bodies: &'a [Bytes],
    loading: &'a Loading,
}

impl<'a> Model for Loaded<'a> {
    ghost use Rattle.std.specs.Prelude.{length};
    ghost use Rattle.cy_reader.specs.Record.{Met};
    ghost use Rattle.cy_reader.specs.private.Loading.{IsSound, met_of};

    ghost Value = { Met };

    ghost view = { λ l. met_of l.bodies.now l.loading.now };

    ghost invariant = { λ l. IsSound (length l.bodies.now) l.loading.now };
}

impl<'a> Loaded<'a> {
    // What is kept so: the bodies, and what stands in them.
    pub(crate) fn new(bodies: &'a [Bytes], loading: &'a Loading) -> Self
        requires { IsSound (length bodies.now) loading.now }
        ensures { result ≡ met_of bodies.now loading.now }
    {
        Loaded { bodies, loading }
    }

    /// The number of channels.
    pub fn channels(&self) -> u32
        ensures { result ≡ length self.now.channels }
    {
        self.loading.channels.list.len() as u32
    }

    /// The channel of a number. One that only messages name has an empty type and description.
    pub fn channel(&self, number: u32) -> &'a Channel
        requires { number < length self.now.channels }
        ensures { IfSome (slice_get self.now.channels number) (λ known. result.now
            ≡ known.channel) }
    {
        &self.loading.channels.list[number as usize].channel
    }

    /// The number of messages.
    pub fn messages(&self) -> u32
        ensures { result ≡ length self.now.messages }
    {
        self.loading.messages.len() as u32
    }

    /// The number of a message's channel, and its time in nanoseconds.
    pub fn message(&self, place: u32) -> (u32, u64)
        requires { place < length self.now.messages }
        ensures message { IfSome (slice_get self.now.messages place) (λ m. (result.0 ≡ m.channel)
            × (result.1 ≡ m.time)) }
        ensures channel { result.0 < length self.now.channels }
    {
        let message = self.loading.messages[place as usize];
        (message.channel, message.time)
    }

    /// A message's content: a slice of a body.
    pub fn content(&self, place: u32) -> &'a [u8]
        requires { place < length self.now.messages }
        ensures { IfSome (slice_get self.now.messages place) (λ m. result.now ≡ m.content) }
    {
        let message = self.loading.messages[place as usize];
        let body = self.bodies[message.body as usize].as_slice();
        let start = body.len().min(message.start as usize);
        let end = start + (body.len() - start).min(message.length as usize);
        &body[start..end]
    }
}
