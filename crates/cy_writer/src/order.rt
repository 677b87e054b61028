// Channels in the order in which they first come.
ghost use Rattle.std.specs.Prelude.{◌≡◌, ◌<◌, ◌==◌, [], true, Some, length, IfOk, OnOk, IsOkUnless};
ghost use Rattle.std.specs.Bool.{Decides};
ghost use Rattle.std.specs.List.{list_any, position};
ghost use Rattle.cy_writer.specs.Order.{HasAll, with_number};

use crate::WriteError;
use std::alloc::Global;
use std::marker::Model;

/// Channels in the order in which they first came, each once. Contracts see it as an `Order`.
#[derive(Drop)]
pub struct ChannelOrder {
    numbers: Vec<u32>,
    // The place of each channel in that order, where it stands there.
    places: Vec<Option<u32>>,
}

impl Model for ChannelOrder {
    ghost use Rattle.std.specs.Prelude.{length};
    ghost use Rattle.cy_writer.specs.Order.{Order};

    ghost Value = { Order };

    ghost use Rattle.cy_writer.specs.private.Places.{ArePlaces};

    ghost view = { λ o. record { numbers = o.numbers.items; all = length o.places.items } };

    ghost invariant = { λ o. ArePlaces o.numbers.items o.places.items };
}

impl ChannelOrder {
    /// No channel yet, of so many. Its only error is `Memory`.
    pub fn none(alloc: Global, channels: u32) -> Result<Self, WriteError>
        ensures numbers { IfOk result (λ o. o.numbers ≡ []) }
        ensures all { IfOk result (λ o. o.all ≡ channels) }
        ensures only_memory { IsOkUnless result WriteError.Memory }
    {
        let places = vec![in alloc; None; channels as usize]?;
        let numbers = Vec::with_capacity(alloc, channels as usize)?;
        Ok(ChannelOrder { numbers, places })
    }

    /// A channel comes: it stands behind the others from now on, unless it stands among them. The
    /// only error is `Memory`.
    pub fn note(&mut self, channel: u32) -> Result<(), WriteError>
        requires { channel < self.old.all }
        ensures numbers { OnOk result (self.new.numbers ≡ with_number self.old.numbers channel) }
        ensures all { self.new.all ≡ self.old.all }
        ensures only_memory { IsOkUnless result WriteError.Memory }
    {
        if self.places[channel as usize].is_none() {
            let place = self.numbers.len() as u32;
            self.numbers.push(channel)?;
            self.places[channel as usize] = Some(place);
        }
        Ok(())
    }

    /// Whether as many channels stand there as there are, which are then all.
    pub fn is_full(&self) -> bool
        ensures count { Decides result (length self.now.numbers ≡ self.now.all) }
        ensures all { result ≡ true → HasAll self.now }
    {
        self.numbers.len() == self.places.len()
    }

    /// The numbers of the channels, in their order.
    pub fn numbers(&self) -> &[u32]
        ensures { result.now ≡ self.now.numbers }
    {
        self.numbers.as_slice()
    }

    /// The place in the order of a channel that stands there.
    pub fn place(&self, channel: u32) -> u32
        requires { list_any (λ other. channel == other) self.now.numbers ≡ true }
        ensures { position (λ other. channel == other) self.now.numbers ≡ Some result }
    {
        match self.places[channel as usize] {
            Some(place) => place,
            None => unreachable!(),
        }
    }
}
