// Which messages of a record are let through.
ghost use Rattle.std.specs.Prelude.{◌≡◌};
ghost use Rattle.cy_msg.specs.Filter.{is_among, lets_channel, lets_time};

use crate::{Items, Text};

/// Which messages are let through: those on channels that are not dropped, where channels are named
/// only on these, at times from `begin` to `end`, both included.
#[derive(Drop)]
pub struct Filter {
    /// The only channels, by name; none where all are wanted.
    pub only: Option<Items<Text>>,
    /// Channels that are dropped, by name.
    pub drop: Items<Text>,
    /// The least time, in nanoseconds.
    pub begin: u64,
    /// The greatest time, in nanoseconds.
    pub end: u64,
}

// Whether a name is one of these.
fn is_among(names: &[Text], name: &str) -> bool
    ensures { result ≡ is_among names.now name.now }
{
    names.iter().any(|one| one.as_str() == name)
}

impl Filter {
    /// Whether messages on a channel of a name are let through.
    pub fn lets_channel(&self, name: &str) -> bool
        ensures { result ≡ lets_channel self.now name.now }
    {
        let is_wanted = match &self.only {
            None => true,
            Some(only) => is_among(only.as_slice(), name),
        };
        is_wanted && !is_among(self.drop.as_slice(), name)
    }

    /// Whether a message of a time, in nanoseconds, is let through.
    pub fn lets_time(&self, time: u64) -> bool
        ensures { result ≡ lets_time self.now time }
    {
        self.begin <= time && time <= self.end
    }
}
