// That a world's trace is read back, by what the types of the code keep of it.
ghost use Rattle.std.specs.Prelude.{◌≡◌, ◌≤◌, ℕ, List, Some, length, slice_get};
ghost use Rattle.std.specs.Str.{IsUtf8};
ghost use Rattle.cy_msg.specs.declared.token.Token.{Token};
ghost use Rattle.cy_comp.specs.Laws.{IsGiven};
ghost use Rattle.cy_comp.specs.declared.answers.Answer.{Answer};
ghost use Rattle.cy_comp.specs.declared.plan.Plan.{Plan};
ghost use Rattle.wake_core.specs.declared.entries.TheConstants.{MOST_PLANNED};
ghost use Rattle.wake_core.specs.Planned.{planned};
ghost use Rattle.wake_core.specs.Rest.{run_shown};
ghost use Rattle.wake_core.specs.Plain.{Plain};
ghost use Rattle.wake_core.specs.Run.{played_of, routes_of};
ghost use Rattle.wake_core.specs.Sound.{Sound};
ghost use Rattle.wake_core.specs.WorldOf.{plain_of};
ghost use Rattle.cy_trace_text.specs.Laws.{Suits};
ghost use Rattle.cy_trace.specs.TraceForm.{IsTrace, IsTraceText, IsValue};
ghost use Rattle.cy_trace.specs.TraceOfRun.{trace_of_run};
ghost use Rattle.cy_trace_text.specs.TraceText.{trace_text as text_of};

use crate::laws::{runs_are_read_back, runs_are_traces};
use cy_comp::{Answer, Kind, Plan, Wiring};
use cy_msg::{Names, Token};
use wake_core::World;

// Names are texts.
fn names_are_texts(names: &Names)
    ensures { (n : ℕ) (name : List ℕ) → slice_get names.now n ≡ Some name → IsUtf8 name }
{
    for number in 0..names.count() {
        let _name = names.name(number);
    }
}

// So are the names of components.
fn components_have_texts(plans: &[Plan])
    ensures { (c : ℕ) (p : Plan) → slice_get plans.now c ≡ Some p → IsUtf8 p.name }
{
    for plan in plans {
        let _name = plan.name.as_str();
    }
}

// A value fits 64 bits.
fn value_suits(whole: Option<i64>)
    ensures { IsValue whole }
{
    if let Some(value) = whole {
        let _value = value;
    }
}

// The values of answers fit 64 bits.
fn answers_suit(answers: &[Answer])
    ensures { (n : ℕ) (a : Answer) → slice_get answers.now n ≡ Some a → IsValue a.whole }
{
    for answer in answers {
        value_suits(answer.whole);
    }
}

// So do those of the answers that a class has from a file,
fn class_suits(kind: &Kind)
    ensures { (a : Answer) → IsGiven kind.now a → IsValue a.whole }
{
    if let Kind::External { answers } = kind {
        answers_suit(answers.as_slice());
    }
}

// and those of all classes.
fn classes_suit(plans: &[Plan])
    ensures { (c : ℕ) (p : Plan) → slice_get plans.now c ≡ Some p
        → (a : Answer) → IsGiven p.kind a → IsValue a.whole }
{
    for plan in plans {
        class_suits(&plan.kind);
    }
}

// The time and the value of a message fit 64 bits.
fn suits(message: Token)
    ensures { Suits message }
{
    let _time = message.time;
    value_suits(message.whole);
}

// So it is with all messages.
fn messages_suit(messages: &[Token])
    ensures { (n : ℕ) (t : Token) → slice_get messages.now n ≡ Some t → Suits t }
{
    for message in messages {
        suits(*message);
    }
}

/// What `trace_text` writes of a world is the text of a trace, where no more is planned than a
/// world keeps. Proved here, and nothing to run.
pub fn trace_is_read_back(world: &World, wiring: &Wiring, shadowed: u32)
    requires routes { (plain_of world.now).routes ≡ routes_of wiring.now.plans }
    requires channels { (length (plain_of world.now).counts) ≡ length wiring.now.names }
    ensures { planned (plain_of world.now).routes (plain_of world.now).counts ≤ MOST_PLANNED
        → IsTraceText (text_of wiring.now.names wiring.now.plans shadowed
        (run_shown (plain_of world.now))) }
{
    names_are_texts(&wiring.names);
    components_have_texts(wiring.plans.as_slice());
    classes_suit(wiring.plans.as_slice());
    messages_suit(world.tape_list());
    runs_are_read_back();
    runs_are_traces();
    world.sound();
}

/// Every sound world of this wiring in which just these messages were played has a trace of the
/// form, where no more is planned than a world keeps. Proved here, and nothing to run.
pub fn traces_of_runs_fit(wiring: &Wiring, messages: &[Token], shadowed: u32)
    ensures { (w : Plain) → w.routes ≡ routes_of wiring.now.plans
        → length w.counts ≡ length wiring.now.names → planned w.routes w.counts ≤ MOST_PLANNED
        → played_of w.routes w.tape ≡ messages.now → Sound w
        → IsTrace (trace_of_run wiring.now.names wiring.now.plans shadowed (run_shown w)) }
{
    names_are_texts(&wiring.names);
    components_have_texts(wiring.plans.as_slice());
    classes_suit(wiring.plans.as_slice());
    messages_suit(messages);
    runs_are_read_back();
}
