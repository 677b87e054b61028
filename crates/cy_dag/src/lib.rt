//! DAG files and component files: which components and timer components a run has, what they read
//! and write, and of which class they are. `cy_wiring` wires them.
//!
//! `specs/Format` has the fields of a DAG file, `specs/DagFile` what it says and the first cause of
//! a refusal, `specs/ConfigFile` the same of a component file, but for `specs/Options`, where each
//! optional field is a row, and `specs/Values`, where the values of messages are. `specs/Classes`
//! has the classes by their names, and `specs/FaultText` says how a refusal is told.
#![tactic(auto)]

mod class;
mod component;
mod config;
mod cycle;
mod dag;
mod error;
mod format;
mod options;
mod read;
mod timer;
mod values;

pub use component::reads;
pub use config::{Config, read_component_config};
pub use cycle::Cycle;
pub use dag::{Dag, DagComponent, DagReader, MOST_COMPONENTS, MOST_READERS};
pub use error::DagError;
pub use read::{count_of, read_dag};
pub use values::MOST_VALUES;
