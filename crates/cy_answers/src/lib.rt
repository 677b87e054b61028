//! The answers of a component, as a record has them: a message on the component's channel is what
//! the call puts out that has its time as its number.
//!
//! `specs/Answers` says which answers a record has, and why it is refused. `specs/Valued` says what
//! answers are whose channel has a form for its values.
#![tactic(auto)]

mod error;
mod reading;
mod valuing;

pub use error::AnswersError;
pub use reading::read_answers;
pub use valuing::value_answers;
