// Messages as the runtime hands them on: their contents stay where they were read.

/// A message, without its content.
#[derive(Clone, Copy, Debug, PartialEq, Eq)]
pub struct Token {
    /// The number of its channel, by the names of the wiring.
    pub channel: u32,
    /// Its number among the messages of its channel, from 1.
    pub seq: u32,
    /// Its time, in nanoseconds.
    pub time: u64,
    /// The whole number that its content stands for, where it stands for one.
    pub whole: Option<i64>,
    /// Which of the played messages that come from a file has the content that this one has,
    /// counted from 0 in the order in which they are played; none where the content is the written
    /// form of `whole`.
    pub origin: Option<u32>,
}

/// The messages that one call of a component takes, in the order of its readers.
#[derive(Clone, Copy, Debug, PartialEq, Eq)]
pub enum Tuple {
    /// Of one reader.
    One(Token),
    /// Of two readers.
    Two(Token, Token),
    /// Of three readers.
    Three(Token, Token, Token),
    /// Of four readers.
    Four(Token, Token, Token, Token),
}
