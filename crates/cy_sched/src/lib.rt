//! Scheduler files, and where they place the components of a run.
//!
//! `specs/Format` has the fields of a scheduler file, `specs/SchedFile` what a file says and the
//! first cause for which it is refused, `specs/FaultText` how that is told, and `specs/Placing`
//! where components are placed.
#![tactic(auto)]

mod error;
mod format;
mod home;
mod homes;
mod placing;
mod read;
mod sched;

pub use error::SchedError;
pub use placing::place;
pub use read::read_sched;
pub use sched::{Group, PinTask, Sched, Task};
