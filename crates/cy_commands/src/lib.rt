//! The commands of the program `cyber`: what each makes of the files that it reads, and which
//! status is due then. A play on threads begins and ends here too; how it runs is in `cyber_cli`.
//!
//! `specs/Due` says which status is due, `specs/Commands` what each command reads and makes, by a
//! file of its own below. Which words ask for which command says `cy_args`, how a status is told
//! `cyber_cli`.
#![tactic(auto)]

mod alone;
mod apart;
mod begun;
mod commands;
mod due;
mod failure;
mod fault_text;
mod kept;
mod laws;
mod line;
mod play;
mod status;
mod trace_file;
mod unset;

pub use alone::due_of;
pub use begun::{Begun, begin};
pub use due::Due;
pub use fault_text::OUTPUT_LINE;
pub use laws::{asked_texts_are_short, commands_leave_their_files, verdicts_are_one};
pub use line::Line;
pub use play::{due_played, opening, played_world};
pub use status::Status;
