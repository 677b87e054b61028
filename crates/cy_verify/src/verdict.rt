// What is said of a trace.
use cy_msg::{Items, Token};

/// What a trace tells of the run that has it.
#[derive(Drop)]
pub struct Told {
    /// The messages of the tape, in the order in which they were sent.
    pub tape: Items<Token>,
    /// How many calls there were.
    pub calls: u128,
}

/// What is said of a trace.
#[derive(Drop)]
pub enum Verdict {
    /// A lawful run has it, of which it tells this.
    Lawful(Told),
    /// No lawful run has it.
    Unlawful,
}
