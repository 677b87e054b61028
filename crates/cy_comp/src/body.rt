// A component's own state.
ghost use Rattle.std.specs.Prelude.{◌≡◌, ◌≤◌, length, IfOk};
ghost use Rattle.cy_msg.specs.Tuple.{messages_of};
ghost use Rattle.cy_comp.specs.declared.kind.Kind.{Kind};
ghost use Rattle.cy_comp.specs.Kind.{messages_needed};
ghost use Rattle.cy_comp.specs.Step.{Kept, step};
ghost use Rattle.cy_comp.specs.Body.{new_body};

use crate::class::Class;
use crate::{CompError, Kind, Outcome};
use cy_msg::Tuple;
use std::alloc::Global;
use std::marker::Model;

/// What answers to calls.
pub trait Component {
    /// Its class.
    ghost kind: { Self → Kind };

    /// What it keeps from its earlier calls.
    ghost kept: { Self → Kept };

    /// Answers to a tuple, of at least as many messages as its class reads. It takes no memory.
    fn step(&mut self, tuple: &Tuple) -> Outcome
        requires { messages_needed (kind self.old) ≤ length (messages_of tuple.now) }
        ensures outcome { result ≡ (step (kind self.old) (kept self.old) tuple.now).1 }
        ensures kept { kept self.new ≡ (step (kind self.old) (kept self.old) tuple.now).0 }
        ensures kind { kind self.new ≡ kind self.old };
}

/// A component of any class. Contracts see it as its class and what it keeps.
#[derive(Drop)]
pub struct Body {
    class: Class,
}

impl Model for Body {
    ghost use Rattle.cy_comp.specs.Body.{BodyView};

    ghost Value = { BodyView };

    ghost use Rattle.cy_comp.specs.private.Class.{body_of};

    ghost view = { λ b. body_of b.class };
}

impl Body {
    /// A component before its first call. It takes all the memory that its calls need; its only
    /// error is `Memory`.
    pub fn new(alloc: Global, kind: &Kind) -> Result<Self, CompError>
        ensures { IfOk result (λ b. b ≡ new_body kind.now) }
    {
        Ok(Body {
            class: Class::new(alloc, kind)?,
        })
    }
}

impl Component for Body {
    ghost kind = { λ b. b.kind };

    ghost kept = { λ b. b.kept };

    fn step(&mut self, tuple: &Tuple) -> Outcome {
        self.class.step(tuple)
    }
}
