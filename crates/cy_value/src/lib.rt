//! How the value of a channel's messages is found in their content: by the numbers of fields from
//! the outside in, and the kind of the last one.
//!
//! `specs/Value` says which value a content has by a form, `specs/Scalar` what the bits of a field
//! of each kind stand for, and `specs/Point` what those of a number with a point do. `specs/Values`
//! says which form a channel has, and that a content without one is read as the message Whole.
//! `specs/Names` has the names of the kinds, and `specs/Forms` says which forms are the same.
#![tactic(auto)]

mod field;
mod form;
mod kind;
mod names;
mod point;
mod scaled;
mod value;
mod values;

pub use form::{LONGEST_PATH, ValueForm};
pub use kind::ScalarKind;
pub use value::value_in;
pub use values::{ChannelValue, copy_values, form_at, form_of, place_of, value_by};
