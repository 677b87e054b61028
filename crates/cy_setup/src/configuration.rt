// What the configuration files of a replay say.
ghost use Rattle.cy_wiring.specs.Wiring.{AreConfigs};

use cy_dag::{Config, Dag};
use cy_msg::Items;
use cy_sched::Sched;

/// What the configuration files of a replay say.
#[derive(Drop)]
pub struct Configuration {
    /// The DAG.
    pub dag: Dag,
    /// What the file of each component says, in the order of the DAG.
    pub configs: Items<Config>,
    /// The scheduler.
    pub sched: Sched,
    /// There is a file for each component, of its class.
    pub ghost fit: { AreConfigs dag.components configs },
}
