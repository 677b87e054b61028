// The croutine that a thread holds, and how far it is with it.

/// The phase of a croutine that a thread has in hand.
#[derive(Clone, Copy, Debug, PartialEq, Eq)]
pub enum Phase {
    /// It was acquired, and nothing is known of it yet.
    Fresh,
    /// Its flag was found clear while it waited for a message.
    Woken,
    /// Its state is known.
    Known,
    /// It is to be resumed, and not stopped.
    Checked,
    /// It is to be resumed, and the raised stop names it.
    Stopping,
    /// It waits for a message again, and its fetch comes next.
    Asked,
    /// Its fetch found nothing.
    Empty,
    /// It was called.
    Running,
    /// The output that it held back was sent.
    Sending,
    /// The output that it held back was sent, and it is stopped.
    LastSending,
    /// What it is to do next is stored.
    Done,
}

/// A croutine in hand, and how far its holder is with it.
#[derive(Clone, Copy, Debug, PartialEq, Eq)]
pub struct Hand {
    /// The number of its component.
    pub croutine: u32,
    /// How far its holder is with it.
    pub phase: Phase,
}
