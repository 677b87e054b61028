//! The text form of Protocol Buffers: a text as a tree of fields, and a tree as a text.
//!
//! `specs/Grammar` says which texts are of the form and which fields they say, `specs/FirstFault`
//! where any other is refused, and `specs/Kinds` as what; `specs/Cuts` says what the tokens of a
//! text are, over `specs/Pieces` and `specs/Quotations`. `specs/Tokens` and `specs/Form` are how
//! all that is computed, and no part of what it means. `specs/Printed` says what is printed,
//! `specs/FaultText` how a fault is told, and `specs/Laws` and `specs/PieceLaws` what holds of all
//! texts.
#![tactic(auto)]

mod building;
mod error;
mod escape;
mod expected;
mod fault;
mod gap;
mod laws;
mod letters;
mod number;
mod printing;
mod quote;
mod steps;
mod text;
mod token;
mod tree;
mod value;

pub use error::{BadKind, TextError};
pub use laws::{
    fields_are_few, form_is_read, one_tree_or_fault, printed_is_read, read_is_form,
    refused_at_first_fault, spans_are_in_order, tokens_are_pieces,
};
pub use printing::print;
pub use text::parse;
pub use tree::{Entry, Span, Tree, Value};
