//! The world of a run, and the serial run.
//!
//! `specs/Run` has what a run has come to and how a message is sent, `specs/Serial` the serial run
//! over the steps of `specs/Settle`, and `specs/Planned` how many entries a run can come to have. A
//! [`World`] is that of any wiring: `specs/WorldOf` has what it shows of its run.
//!
//! `specs/Plain` has the plain world, with flags, states and threads; `specs/Events` the fifteen
//! events between two of them; `specs/Sound` what holds of every one that events reach;
//! `specs/Way` how events lead from one to another; `specs/LawfulRun` how a run ends. The laws of
//! `specs/Laws`, of the events, `specs/Way`, `specs/TapeLaws` and `specs/Bounds` are the contracts
//! of [`laws`]. `specs/Parts` says what the parts show into which a world is taken apart.
#![tactic(auto)]

mod entries;
mod error;
mod fixed;
mod found;
pub mod laws;
mod next_call;
mod outcome;
mod owed;
mod parts;
mod phase;
mod route;
mod serial_run;
mod world;

pub use entries::{MOST_PLANNED, planned};
pub use error::CoreError;
pub use fixed::Fixed;
pub use outcome::{holds, state_of};
pub use parts::Parts;
pub use phase::{Hand, Phase};
pub use route::Route;
pub use serial_run::{finish, serial};
pub use world::World;
