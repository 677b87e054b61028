//! Timers: the components that ticks of their own trigger, and the ticks among the messages that
//! are played.
//!
//! `specs/Timers` says which timers components have, `specs/Ticks` which ticks a timer gives while
//! messages are played, and `specs/Merged` in which order messages and ticks are played.
//! `specs/Laws` has what holds of every list in that order.
#![tactic(auto)]

mod error;
mod laws;
mod merging;
mod sources;
mod ticks;
mod timer;

pub use error::TimerError;
pub use laws::time_order_is_stable;
pub use merging::merge;
pub use timer::{Timer, tick_count, timers};
