//! The wire form of Protocol Buffers: numbers and fields as bytes, exact to the standard's
//! spelling.
//!
//! `specs/Wire` has the spelling, in which a number takes the least number of bytes. `specs/Form`
//! is the grammar of what is read: the fields of a message with their places, up to its end or the
//! first fault; `specs/Varint` and `specs/Field` compute them. `specs/Message` says once, for every
//! message, how its values are found among its fields. `specs/Laws` says that what is written is
//! read, and that the fields that are read are the grammar's.
#![tactic(auto)]

mod decode;
mod error;
mod field;
mod front;
mod laws;
mod reader;
mod varint;
mod whole;
mod writer;
mod zigzag;

pub use error::WireError;
pub use field::{Field, FieldValue, Span};
pub use front::front_varint;
pub use laws::{
    fields_are_form, fields_read_back, reads_back, takes_one_to_ten_bytes, unzigzag_undoes,
};
pub use reader::Reader;
pub use whole::{put_whole, whole_bytes, whole_of};
pub use writer::{Writer, push_varint};
pub use zigzag::{zigzag_number, zigzag_value};
