// The channels of the names of a tape.
ghost use Rattle.std.specs.Prelude.{◌≡◌, IsTrue, Some, slice_get};

use cy_msg::{MOST_NAMES, Names, Text};

/// The channels that were found for the names of a tape, so that a name is not searched for each of
/// its messages. What is kept is a guess, which is compared with the name.
#[derive(Drop)]
pub(crate) struct Channels {
    // By the number of the tape's name. The tape of a lawful run has no more names than these.
    found: [u32; MOST_NAMES],
}

impl Channels {
    ghost use Rattle.std.specs.Prelude.{◌≡◌, ◌↔◌, IfSome, IsNone, slice_get, Some};
    ghost use Rattle.std.specs.List.{Contains};

    /// None was found yet.
    pub(crate) fn new() -> Self {
        Channels {
            found: [0; MOST_NAMES],
        }
    }

    /// The channel of the name that has this number among the names of the tape, or none where it
    /// is no channel's.
    #[inline(always)]
    pub(crate) fn find(&mut self, names: &Names, name: &Text, number: u32) -> Option<u32>
        ensures found { IfSome result (λ n. slice_get names.now n ≡ Some name.now) }
        ensures none { IsNone result ↔ ¬ (Contains names.now name.now) }
    {
        let place = number as usize % MOST_NAMES;
        let guess = self.found[place];
        if is_named(names, guess, name) {
            return Some(guess);
        }
        let channel = names.number_of(name.as_str())?;
        self.found[place] = channel;
        Some(channel)
    }
}

// Whether a channel has this name.
#[inline(always)]
fn is_named(names: &Names, channel: u32, name: &Text) -> bool
    ensures { IsTrue result → slice_get names.now channel ≡ Some name.now }
{
    channel < names.count() && names.name(channel) == name.as_str()
}
