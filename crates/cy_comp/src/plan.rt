// A component's place in a wiring.
use crate::{Kind, Options};
use cy_fuse::Overflow;
use cy_msg::{Items, Text};

/// A component: what it is, and which channels it reads and writes.
#[derive(Drop)]
pub struct Plan {
    /// Its name.
    pub name: Text,
    /// Its class.
    pub kind: Kind,
    /// The numbers of the channels that it reads. A message of the first one triggers a call.
    pub readers: Items<u32>,
    /// How many tuples its buffer keeps.
    pub queue: u32,
    /// Which tuple a fetch goes on with where its own isn't kept any more.
    pub overflow: Overflow,
    /// The number of the channel that it writes.
    pub out: u32,
    /// What its file says beside these.
    pub options: Options,
    /// How many milliseconds lie between the ticks on the channel that it reads. A component that
    /// reads what others send has none.
    pub interval: Option<u32>,
}
