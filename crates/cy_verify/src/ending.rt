// What a trace that was followed to its end comes to.
ghost use Rattle.std.specs.Bool.{Decides};
ghost use Rattle.cy_verify.specs.private.Allowing.{MayAsk, IsObedient, IsAllowed};

use crate::obedient::obeys;
use crate::timely::is_timely;
use crate::walk::Walk;
use cy_comp::Wiring;
use cy_msg::Stop;
use cy_trace::TraceComponent;

/// Whether outputs were held back long enough, and the stop was obeyed.
pub(crate) fn is_allowed(
    walk: &Walk,
    wiring: &Wiring,
    told: &[TraceComponent],
    stop: Option<Stop>,
) -> bool
    requires { MayAsk wiring.now.plans told.now stop walk.now }
    ensures { Decides result (IsAllowed wiring.now.plans stop walk.now) }
{
    if !is_timely(wiring.plans.as_slice(), walk.tape.as_slice()) {
        return false;
    }
    is_obedient(walk, wiring, told, stop)
}

// Whether the component that a stop names obeys it.
fn is_obedient(walk: &Walk, wiring: &Wiring, told: &[TraceComponent], stop: Option<Stop>) -> bool
    requires { MayAsk wiring.now.plans told.now stop walk.now }
    ensures { Decides result (IsObedient wiring.now.plans stop walk.now) }
{
    let Some(stop) = stop else {
        return true;
    };
    let component = stop.component as usize;
    let plans = wiring.plans.as_slice();
    let readers = plans[component].readers.as_slice();
    let calls = &told[component].calls;
    obeys(plans, stop.after, readers, calls, walk.tape.as_slice())
}
