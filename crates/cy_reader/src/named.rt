// The channels of a record by their names.
use crate::{Loaded, Record};
use cy_section::Channel;

impl<'a> Loaded<'a> {
    ghost use Rattle.std.specs.Prelude.{◌≡◌, option_map};
    ghost use Rattle.cy_reader.specs.Named.{known_as};

    /// The channel of a name, where there is one.
    pub fn channel_named(&self, name: &str) -> Option<&'a Channel>
        ensures { option_map (λ c. c.now) result
            ≡ option_map (λ known. known.channel) (known_as name.now self.now.channels) }
    {
        for number in 0..self.channels() {
            let channel = self.channel(number);
            if channel.name.as_str() == name {
                return Some(channel);
            }
        }
        None
    }
}

impl Record {
    ghost use Rattle.std.specs.Prelude.{◌≡◌, option_map};
    ghost use Rattle.cy_reader.specs.Named.{known_as};

    /// The channel of a name, where there is one.
    pub fn channel_named(&self, name: &str) -> Option<&Channel>
        ensures { option_map (λ c. c.now) result
            ≡ option_map (λ known. known.channel) (known_as name.now self.now.channels) }
    {
        self.loaded().channel_named(name)
    }
}
