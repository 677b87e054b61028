// The messages of a run, in the order in which they are played.
ghost use Rattle.std.specs.Prelude.{length};
ghost use Rattle.cy_msg.specs.Tokens.{AreOf, IsNumbered, IsTimed};

use crate::{Items, Token};

/// The most messages that are played.
pub const MOST_PLAYED: usize = 4_194_304;

/// The messages that are played, in order.
#[derive(Drop)]
pub struct PlayList {
    /// The messages, in an order in which their times never fall.
    pub tokens: Items<Token>,
    /// The places in their file of the messages that come from one, in the order in which they are
    /// played; a place is counted in messages from 0.
    pub places: Items<u32>,
    /// How many messages of the file are not played, since a component writes their channel or it
    /// carries the ticks of a timer.
    pub shadowed: u32,
    /// The times never fall.
    pub ghost timed: { IsTimed tokens },
    /// The messages of each channel have the numbers 1, 2, 3 and so on.
    pub ghost numbered: { IsNumbered tokens },
    /// The origin of a message is one of those that have a place.
    pub ghost origins: { AreOf (length places) tokens },
}
