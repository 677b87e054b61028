// A stop that is asked for from outside.

/// A forced stop: a component that is to end, and when. It is raised when so many messages were
/// played; where the component is resumed after that, it ends without a call.
#[derive(Clone, Copy)]
pub struct Stop {
    /// The number of the component.
    pub component: u32,
    /// How many messages are played before the stop is raised.
    pub after: u32,
}
