//! The world of a run as words and slots, which threads change step by step.
//!
//! `specs/Layout` says which word and which slot is whose, `specs/Seats` what a thread at the table
//! knows, `specs/Shown` what shows which part of a world, and `specs/Rule` that words, slots and
//! threads show between any two steps one plain world of `wake_core`, of which all holds that holds
//! of a run. `specs/Steps` says what each kind of step leaves, and the laws of `specs/Laws` that
//! each step is one event of that world, or none; they are the contracts of [`laws`]. `specs/Deeds`
//! has the names of these events, by which a call's contract says which it made.
#![tactic(auto)]

mod boxed_visitor;
mod counted_routine;
mod hold;
pub mod laws;
mod part;
mod pass;
mod rule;
mod table;
mod view;

pub use hold::Hold;
pub use part::{Part, Tape};
pub use pass::{Busy, Pass, TableError};
pub use table::FlagTable;
