// A context: the components of a processor, in the order in which it scans them.
ghost use Rattle.std.specs.Prelude.{◌≡◌, [], ◌∷◌, IfSome, IfNone};
ghost use Rattle.wake_core.specs.Turns.{is_ready as is_ready_in};
ghost use Rattle.cy_table.specs.Calls.{Stays};
ghost use Rattle.cy_ctx.specs.Scan.{MayScan, Passes, Takes};

use crate::CtxError;
use cy_comp::State;
use cy_msg::{ContextPlan, Items};
use cy_table::{FlagTable, Hold, Pass};
use std::alloc::Global;
use std::marker::Model;

/// The components that a processor scans, in their order. Contracts see it as the list of their
/// numbers.
#[derive(Drop)]
pub struct Context {
    order: Items<u32>,
}

impl Model for Context {
    ghost use Rattle.std.specs.Prelude.{ℕ, List};

    ghost Value = { List ℕ };

    ghost view = { λ s. s.order };
}

impl Context {
    ghost use Rattle.std.specs.Prelude.{◌≡◌, [], ◌∷◌, IfOk, IfSome, IfNone};
    ghost use Rattle.cy_table.specs.Calls.{Stays};
    ghost use Rattle.cy_ctx.specs.Scan.{MayScan, Passes, Takes};

    /// The context of a plan. Its only error is `Memory`.
    pub fn new(alloc: Global, plan: &ContextPlan) -> Result<Self, CtxError>
        ensures { IfOk result (λ s. s ≡ plan.now.order) }
    {
        let order = Vec::from_slice(alloc, plan.order.as_slice())?;
        Ok(Context {
            order: Items::new(order),
        })
    }

    /// The numbers of its components, in the order in which they are scanned.
    pub fn order(&self) -> &[u32]
        ensures { result.now ≡ self.now }
    {
        self.order.as_slice()
    }

    /// Acquires and updates the croutines in order, up to the first that is READY then, and answers
    /// that one, in hand. None comes exactly where each of them was held by another thread, or was
    /// not READY after its update; those were given back.
    pub fn next(&self, table: &FlagTable, pass: &mut Pass) -> Option<Hold>
        requires { MayScan table.now self.now pass.old }
        ensures same { Stays table.now pass.old pass.new }
        ensures none { IfNone result (Passes self.now pass.old pass.new) }
        ensures some { IfSome result (λ h. Takes table.now self.now pass.old pass.new h) }
    {
        for component in self.order.as_slice() {
            if let Some(hold) = take(table, pass, *component) {
                return Some(hold);
            }
        }
        None
    }
}

/// Acquires and updates the croutine of one component, and answers it, in hand, where it is READY
/// then. None comes exactly where another thread held it, or where it was not READY after its
/// update; then it was given back.
pub fn take(table: &FlagTable, pass: &mut Pass, component: u32) -> Option<Hold>
    requires { MayScan table.now (component ∷ []) pass.old }
    ensures same { Stays table.now pass.old pass.new }
    ensures none { IfNone result (Passes (component ∷ []) pass.old pass.new) }
    ensures some { IfSome result (λ h. Takes table.now (component ∷ []) pass.old pass.new h) }
{
    let Ok(mut hold) = table.acquire(pass, component) else {
        return None;
    };
    let state = table.update(pass, &mut hold);
    if is_ready(state) {
        return Some(hold);
    }
    table.release(pass, hold);
    None
}

// Whether a croutine is READY.
fn is_ready(state: State) -> bool
    ensures { result ≡ is_ready_in state }
{
    matches!(state, State::Ready)
}
