//! The files that are made for a play of any length: the component files and the DAG of four
//! components, and a record of so many messages.
//!
//! `specs/Texts` says what the configuration files say, `specs/Messages` which messages the record
//! has, and `specs/Inputs` in which order all of them are written, and what stands afterwards.
//! `specs/Drafts` tells the store in which they are made before they are played.
#![tactic(auto)]

mod config;
mod dag;
mod drafts;
mod error;
mod inputs;
mod laws;
mod messages;
mod record;
mod value;

pub use config::Config;
pub use dag::name_with;
pub use drafts::Drafts;
pub use error::MakeError;
pub use inputs::write_inputs;
pub use laws::{
    input_writes_leave_the_inputs, made_record_is_its_text, made_texts_are_read,
    made_texts_are_short,
};
