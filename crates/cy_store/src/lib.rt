//! Files by name and streams of bytes: what the runtime needs of the world outside, in memory and
//! on the machine.
//!
//! A store and a sink count their faults, so that a contract can say that a fault was answered only
//! where there was one. `specs/Files` has the map from names to bytes, `specs/Write` what writes
//! make of it, `specs/Store` the causes, `specs/Whole` what reading a file whole answers, and
//! `specs/Range` what reading a part of it does.
//!
//! `MemStore` and `MemSink` tell all that they hold, and fail where they are told to:
//! `specs/Memory` and `specs/Output` say what becomes of each call. `RealStore` and `RealSink` tell
//! no content, since no clause knows what the machine holds.
#![tactic(auto)]

mod alike;
mod error;
mod memory;
mod memory_sink;
mod range;
mod real;
mod real_sink;
mod sink;
mod store;
mod whole;

pub use error::{SinkError, StoreError};
pub use memory::MemStore;
pub use memory_sink::MemSink;
pub use range::{fill, read_range};
pub use real::RealStore;
pub use real_sink::RealSink;
pub use sink::Sink;
pub use store::Store;
pub use whole::{ReadFile, read_file};
