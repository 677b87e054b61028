// Where a component runs.

// The number of a context, and a priority there.
#[derive(Clone, Copy)]
pub struct Home {
    pub context: usize,
    pub priority: u32,
}
