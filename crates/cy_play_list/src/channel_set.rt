// The channels that components write, and the tick channels.
ghost use Rattle.std.specs.Prelude.{◌≡◌, ◌==◌};
ghost use Rattle.std.specs.List.{list_any};

use std::marker::Model;

/// The numbers of the channels whose messages a record does not give: those that components write,
/// and the tick channels of timers. Contracts see a list.
#[derive(Drop)]
pub struct ChannelSet {
    numbers: Vec<u32>,
}

impl Model for ChannelSet {
    ghost use Rattle.std.specs.Prelude.{ℕ, List};

    ghost Value = { List ℕ };

    ghost view = { λ s. s.numbers.items };
}

impl ChannelSet {
    /// The channels of these numbers.
    pub fn new(numbers: Vec<u32>) -> Self
        ensures { result ≡ numbers.items }
    {
        ChannelSet { numbers }
    }

    // Whether a channel is one of them.
    pub(crate) fn has(&self, number: u32) -> bool
        ensures { result ≡ list_any (λ one. one == number) self.now }
    {
        self.numbers.iter().any(|one| *one == number)
    }
}
