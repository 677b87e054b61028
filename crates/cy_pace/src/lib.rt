//! Where processors rest, and how the player keeps pace with them. It is a hint: what a processor
//! does is known from its pass at the table alone, and no clause of a run rests on it.
#![tactic(auto)]

mod error;
mod idle;
mod pace;
mod patience;
mod place;

pub use error::RunError;
pub use idle::Idle;
pub use pace::bit_of;
