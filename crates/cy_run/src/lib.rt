//! Runs: a player that plays messages at a table, and processors that run components there, on
//! threads; and the serial run.
//!
//! `specs/Passes` says what a thread has between its steps, `specs/Playing` what the player needs
//! and leaves, `specs/Working` how a processor's work ends, `specs/Driving` what a drive of a whole
//! list needs and leaves, `specs/Running` what a run needs. Of the steps between
//! `specs/private/Sending` says what the messages that are sent leave, and `specs/private/Serving`
//! what is done with a croutine in hand.
//!
//! # For programs that set up a world of their own
//!
//! A run needs a wiring, a play list and a placement, as `cy_dag`, `cy_reader` and `cy_sched` make
//! them of files, and an opening world that was made for the wiring and for how many messages of
//! the list stand on each channel:
//!
//!     let world = World::new(alloc, &wiring, counts, None)?;
//!     let world = run_threads(rt, alloc, world, &wiring, &list, &placement, &OpenGate)?;
//!     let trace = trace_text(alloc, &world, &wiring, list.shadowed)?;
//!
//! - **Threads.** The player is the thread that calls. Each processor of the placement gets one of
//!   its own, 63 at most, as long as the system gives one. What no processor came for is run by a
//!   deputy on the player's thread, between the messages, so that no call is lost for want of
//!   threads; on one thread alone that is the serial run. All threads have ended when the call
//!   returns.
//! - **Time.** The clock is set to each message's time, in nanoseconds, before it is played. The
//!   machine's own time decides nothing: a run is as fast as its components.
//! - **Stop.** A world that is made with a stop plays with it: the player raises it when as many
//!   messages were played as it says, and the component that it names ends at its next resume. The
//!   player wakes nobody for that.
//! - **Memory.** All of it is reserved before the first message: the table with a pass for each
//!   thread, and the contexts. From then on nothing can fail until the table is closed.
//! - **Waiting.** A run waits at doors that other threads have entered, where a processor has
//!   nothing to do, and where the player is too far ahead. The player waits for one thing a second
//!   at most.
//! - **Order.** Which of several processors calls which component first differs from run to run.
//!   That a component's own calls come in order, on tuples that were delivered to it, is a clause
//!   of the world that comes out: it is that of a lawful run.
//!
//! A [`Gate`] is passed before each call. It may wait, and so holds a call until something else has
//! happened, which tests use to bring about an interleaving: [`MeetGate`] holds the first call of
//! one component until another component is called, [`PairGate`] shows that two are in hand at
//! once. [`OpenGate`] does nothing.
//!
//! What a run does is also to be had in parts: [`drive`] plays a list at a table while workers
//! work, without a deputy, and [`work`] is the whole loop of one processor. Both leave what the
//! note of each pass tells. [`run_serial`] is a run without threads: it takes no memory and does
//! not wait.
#![tactic(auto)]

mod crew;
mod deliver;
mod deputy;
mod driving;
mod gate;
mod play;
mod processor;
mod run;
mod serve;

pub use crew::Worker;
pub use cy_pace::{Idle, RunError};
pub use driving::drive;
pub use gate::{Gate, MeetGate, OpenGate, PairGate};
pub use processor::work;
pub use run::{run_serial, run_threads};
