// What a fetch found.
use cy_msg::Tuple;

/// The tuple that a fetch found, on which the component is still to be stepped.
#[derive(Clone, Copy)]
pub(crate) struct Found {
    /// The tuple.
    pub(crate) tuple: Tuple,
    /// Its number among those that were fused, from 1.
    pub(crate) position: u64,
    /// How many tuples had been fused then.
    pub(crate) tail: u64,
}
