//! Fusion of messages to tuples, the buffers that keep the last of them, and the rule by which a
//! component fetches one.
//!
//! `specs/Fusion` has the tuples that arrivals make, `specs/Fetch` the fetch rule, `specs/Cache`
//! what a buffer keeps of all that was filled, `specs/Visitor` what a visitor answers over its
//! arrivals, `specs/Laws` how one more arrival changes a fusion, and what is true of a fetch
//! whatever it finds in place of an item that isn't kept any more.
#![tactic(auto)]

mod arrived;
mod cache;
mod came;
mod cursor;
mod error;
mod fetch;
mod laws;
mod overflow;
mod tuples;
mod visitor;

pub(crate) use arrived::Arrived;
pub use cache::CacheBuffer;
pub use cursor::Cursor;
pub use error::FuseError;
pub use fetch::fetch_at;
pub use laws::{caches_keep_the_last, fetches_find, fusions_grow};
pub use overflow::Overflow;
pub use visitor::Visitor;
