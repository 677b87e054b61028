//! Components: their classes, what a call of one gives, and how they are wired to channels.
//!
//! `specs/Step` has what each class answers, `specs/Calls` which calls are lawful and what they put
//! out, `specs/Laws` what all classes have in common, `specs/Wiring` what a wiring keeps, and
//! `specs/Options` what else component files say.
#![tactic(auto)]

mod answers;
mod body;
mod call;
mod calls;
mod class;
mod error;
mod kind;
mod laws;
mod made;
mod messages;
mod options;
mod plan;
mod routine;
mod state;
mod summary;
mod window;
mod wiring;

pub use answers::{Answer, Answers};
pub use body::{Body, Component};
pub use call::{Call, Out, Outcome};
pub use calls::Calls;
pub use error::CompError;
pub use kind::{Kind, MOST_WINDOW};
pub use laws::{holds_by_class, outcomes_are_answers, positions_rise};
pub use options::Options;
pub use plan::Plan;
pub use routine::Routine;
pub use state::State;
pub use summary::{CallSummary, TupleSeqs};
pub use wiring::Wiring;
