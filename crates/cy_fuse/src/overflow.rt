// What a reader does that was too slow.

/// Where a fetch goes on whose item isn't kept any more.
#[derive(Clone, Copy, Debug, PartialEq, Eq)]
pub enum Overflow {
    /// At the newest item: for a component that wants the latest, such as a controller.
    Newest,
    /// At the oldest item that is kept: for one that is to see every message it can, such as an
    /// integrator.
    Oldest,
}
