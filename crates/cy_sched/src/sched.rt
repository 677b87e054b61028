// What a scheduler file says.
ghost use Rattle.std.specs.Prelude.{◌≡◌, IfOk, IsOkUnless};
ghost use Rattle.cy_sched.specs.SchedFile.{IsPlaceable, default_sched};
ghost use Rattle.cy_sched.specs.declared.error.SchedError.TheVariants as sched_error;

use crate::SchedError;
use cy_msg::{Items, Text};
use std::alloc::Global;

/// A task of a group: which component it names, and its priority.
#[derive(Drop)]
pub struct Task {
    /// The component's name.
    pub name: Text,
    /// The higher it is, the earlier the component is scanned.
    pub prio: u32,
}

/// A group of a classic scheduler: some processors, and the components that run on them.
#[derive(Drop)]
pub struct Group {
    /// Its name.
    pub name: Text,
    /// How many processors it has.
    pub processors: u32,
    /// Its tasks, in the order of the file.
    pub tasks: Items<Task>,
}

/// A task of a choreography: which component it names, where it runs, and its priority.
#[derive(Drop)]
pub struct PinTask {
    /// The component's name.
    pub name: Text,
    /// The processor on which it runs, or a negative number where it runs in the pool.
    pub processor: i32,
    /// The higher it is, the earlier the component is scanned.
    pub prio: u32,
}

/// A scheduler: how many processors there are, and which components run on which of them.
#[derive(Drop)]
pub enum Sched {
    /// Groups of processors, each with its own components.
    Classic {
        /// The groups, in the order of the file.
        groups: Items<Group>,
        /// The paths of the fields that are not known, in the order of the file.
        unknown: Items<Text>,
    },
    /// Processors with components of their own, and a pool for all others.
    Choreography {
        /// How many processors have components of their own.
        processors: u32,
        /// How many processors the pool has.
        pool: u32,
        /// The tasks, in the order of the file.
        tasks: Items<PinTask>,
        /// The paths of the fields that are not known, in the order of the file.
        unknown: Items<Text>,
    },
}

impl Sched {
    /// The scheduler where no file is given: one group `default_grp` of two processors, without
    /// tasks. Its only error is `Memory`.
    pub fn default_grp(alloc: Global) -> Result<Sched, SchedError>
        ensures sched { IfOk result (λ s. s ≡ default_sched) }
        ensures placeable { IfOk result IsPlaceable }
        ensures only_memory { IsOkUnless result sched_error.Memory }
    {
        let group = Group {
            name: Text::new(alloc, "default_grp")?,
            processors: 2,
            tasks: Items::new(Vec::new(alloc)),
        };
        Ok(Sched::Classic {
            groups: Items::new(vec![in alloc; group]?),
            unknown: Items::new(Vec::new(alloc)),
        })
    }
}
