//! Worked runs: a world is made and driven by its public calls, event by event.
//!
//! Each call is made where it may be made, and each run says what it came to: so no `requires` of
//! these calls is one that nobody can meet. `specs/Groups` has events that belong together,
//! `specs/Runs` the worlds of the runs, and what each run comes to.
#![tactic(auto)]

#[cfg(test)]
mod groups;
#[cfg(test)]
mod runs;
#[cfg(test)]
mod wired;
