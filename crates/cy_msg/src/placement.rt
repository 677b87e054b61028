// Where components run.
ghost use Rattle.std.specs.Prelude.{◌≡◌, ◌≤◌};
ghost use Rattle.cy_msg.specs.Placement.{IsOnce, scan_of, processors_of};
ghost use Rattle.cy_msg.specs.declared.placement.TheConstants.{MOST_PROCESSORS};

use crate::{Items, Text};

/// The most processors that the contexts of a [`Placement`] ask for, together.
pub const MOST_PROCESSORS: u32 = 64;

/// A context: a set of components that run in turn, with processors of their own.
#[derive(Drop)]
pub struct ContextPlan {
    /// Its name.
    pub name: Text,
    /// Whether each processor of the context is bound to one of the machine's.
    pub pinned: bool,
    /// How many processors it asks for.
    pub processors: u32,
    /// The numbers of its components, in the order in which they are scanned.
    pub order: Items<u32>,
}

/// The contexts of a run. No component stands twice in their orders, and together they ask for at
/// most [`MOST_PROCESSORS`] processors.
#[derive(Drop)]
pub struct Placement {
    /// The contexts.
    pub contexts: Items<ContextPlan>,
    /// No component stands twice.
    pub ghost once: { IsOnce (scan_of contexts) },
    /// The processors are few enough.
    pub ghost fits: { processors_of contexts ≤ MOST_PROCESSORS },
}

impl Placement {
    /// The placement of these contexts.
    pub fn new(contexts: Items<ContextPlan>) -> Self
        requires once { IsOnce (scan_of contexts) }
        requires fits { processors_of contexts ≤ MOST_PROCESSORS }
        ensures { result.contexts ≡ contexts }
    {
        Placement { contexts }
    }
}
