//! Which messages of a record are played, and in which order.
//!
//! `specs/Play` says which messages a filter lets through, in which order they are played, and what
//! their values are.
#![tactic(auto)]

mod channel_set;
mod play;

pub use channel_set::ChannelSet;
pub use play::play_list;
