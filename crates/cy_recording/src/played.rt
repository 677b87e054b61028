// What was played.

use cy_comp::Wiring;
use cy_msg::PlayList;
use cy_reader::Record;

/// What a replay was played from.
#[derive(Clone, Copy)]
pub struct Played<'a> {
    /// The record that was read.
    pub whole: &'a Record,
    /// The components, over its channels and their own.
    pub wiring: &'a Wiring,
    /// The messages that were played.
    pub list: &'a PlayList,
}
