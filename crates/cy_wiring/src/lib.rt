//! The wiring of components over the channels of a record: the components of a DAG file, with the
//! file of each. A wiring that can't be is refused at its first cause.
//!
//! `specs/Wiring` says what the wiring of all is, and the first cause of a refusal.
//! `specs/Triggers` has which components write one channel or trigger one another in a circle, and
//! `specs/Given` which values of all files don't go together.
#![tactic(auto)]

mod channels;
mod given;
mod plan;
mod triggers;
mod wiring;

pub use wiring::wire;
