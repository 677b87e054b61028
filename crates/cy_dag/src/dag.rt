// What a DAG file says.
ghost use Rattle.std.specs.Prelude.{◌≡◌, ◌≤◌, length, None};
ghost use Rattle.cy_dag.specs.DagFile.{components_refusal, HaveQueues, HaveTicks};

use cy_msg::{Items, Text};

/// The most components of a DAG.
pub const MOST_COMPONENTS: usize = 64;

/// The most readers of a component.
pub const MOST_READERS: usize = 4;

/// A channel that a component reads.
#[derive(Drop)]
pub struct DagReader {
    /// The channel's name.
    pub channel: Text,
    /// How many messages wait at most, at least 1.
    pub queue: u32,
}

/// A component.
#[derive(Drop)]
pub struct DagComponent {
    /// The name of its class.
    pub class_name: Text,
    /// Its name.
    pub name: Text,
    /// The name of its component file.
    pub config_file_path: Text,
    /// What it reads, in order. A message of the first one triggers a call.
    pub readers: Items<DagReader>,
    /// How many milliseconds lie between the ticks on the one channel that a timer component reads.
    /// Any other component has none.
    pub interval: Option<u32>,
}

/// The components of a DAG file, of which no test refuses one.
#[derive(Drop)]
pub struct Dag {
    /// The components and behind them the timer components, each in the order of the file.
    pub components: Items<DagComponent>,
    /// The paths of the fields that are not known, in the order of the file.
    pub unknown: Items<Text>,
    /// There is a component.
    pub ghost some: { 1 ≤ length components },
    /// There are not too many.
    pub ghost few: { length components ≤ 64 },
    /// Each has a name of its own, a known class, one to four different readers, as many as its
    /// class reads, and a file.
    pub ghost tested: { components_refusal components ≡ None },
    /// Each reader's queue keeps at least one message.
    pub ghost queues: { HaveQueues components },
    /// A timer component's interval isn't 0, and it reads the channel of its ticks alone.
    pub ghost ticks: { HaveTicks components },
}
