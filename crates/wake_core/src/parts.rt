// What a world is taken apart into.
use crate::fixed::Fixed;
use cy_comp::Routine;
use cy_fuse::Visitor;
use cy_msg::{Items, Token};

/// What a world consists of while nobody holds a croutine or owes anything. Contracts see the plain
/// world that parts show by `shown_by`, and by `AreFit` that they make a world.
#[derive(Drop)]
pub struct Parts {
    /// The routine of each component.
    pub routines: Items<Routine>,
    /// What arrived at each component.
    pub visitors: Items<Visitor>,
    /// Whether the flag of each component is spent.
    pub spent: Items<bool>,
    /// The messages in the order in which they were sent. It has room for those still to come.
    pub tape: Vec<Token>,
    /// How many messages were played.
    pub played: u32,
    /// The clock, in nanoseconds.
    pub clock: u64,
    /// Whether all was played and the run is closing.
    pub closing: bool,
    /// Whether the stop is raised.
    pub raised: bool,
    /// What is kept of the wiring, of the numbers of messages that are to be played, and of the
    /// stop.
    pub fixed: Fixed,
}
