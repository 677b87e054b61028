// Components on a cycle.
ghost use Rattle.std.specs.Prelude.{◌≡◌};

use std::marker::Model;

/// The numbers of the components on a cycle of triggers, which contracts see as their list.
#[derive(Drop)]
pub struct Cycle {
    components: Vec<u32>,
}

impl Model for Cycle {
    ghost use Rattle.std.specs.Prelude.{List, ℕ};

    ghost Value = { List ℕ };

    ghost view = { λ s. s.components.items };
}

impl Cycle {
    /// The list of these components, with no copy.
    pub fn new(components: Vec<u32>) -> Self
        ensures { result ≡ components.items }
    {
        Cycle { components }
    }

    /// The components, each before its trigger.
    pub fn as_slice(&self) -> &[u32]
        ensures { result.now ≡ self.now }
    {
        self.components.as_slice()
    }
}
