// Components and channels.
ghost use Rattle.cy_comp.specs.Wiring.{IsWiring};

use crate::Plan;
use cy_msg::{Items, Names};

/// Components, in the order of their DAG file, over numbered channels.
#[derive(Drop)]
pub struct Wiring {
    /// The names of the channels, by number.
    pub names: Names,
    /// The components.
    pub plans: Items<Plan>,
    pub ghost lawful: { IsWiring names plans },
}

impl Wiring {
    ghost use Rattle.std.specs.Prelude.{◌≡◌, [], ◌∷◌, length};
    ghost use Rattle.cy_comp.specs.declared.plan.Plan.{Plan};
    ghost use Rattle.cy_comp.specs.Wiring.{IsWiring, PassesOn};

    /// The wiring of these components over channels with these names.
    pub fn new(names: Names, plans: Items<Plan>) -> Self
        requires { IsWiring names plans }
        ensures names { result.names ≡ names }
        ensures plans { result.plans ≡ plans }
    {
        Wiring { names, plans }
    }

    /// The wiring of one component that passes messages on, which reads one channel and writes
    /// another.
    #[tactic(auto, using(crate::proofs::Alone::alone))]
    pub fn of_one(names: Names, plans: Items<Plan>) -> Self
        ghost plan: { Plan }
        requires alone { plans ≡ plan ∷ [] }
        requires channels { length names ≡ 2 }
        requires passes { PassesOn plan }
        ensures names { result.names ≡ names }
        ensures plans { result.plans ≡ plans }
    {
        Wiring { names, plans }
    }
}
