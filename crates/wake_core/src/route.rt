// What a run needs of a component.
use cy_comp::Kind;
use cy_fuse::Overflow;
use cy_msg::Items;

/// What a run needs of a component.
#[derive(Drop)]
pub struct Route {
    /// Its class.
    pub kind: Kind,
    /// The numbers of the channels that it reads. A message of the first one triggers a call.
    pub readers: Items<u32>,
    /// How many tuples its buffer keeps.
    pub queue: u32,
    /// Which tuple a fetch goes on with where its own isn't kept any more.
    pub overflow: Overflow,
    /// The number of the channel that it writes.
    pub out: u32,
}
