// One component, followed along its trace.
ghost use Rattle.std.specs.Prelude.{ℕ, ◌≡◌, ◌+◌, ◌≤◌, ◌<◌, Bool, true, false, length, map, take};
ghost use Rattle.std.specs.Prelude.{Some, None, IfSome, Option};
ghost use Rattle.std.specs.Prelude.{◌==◌};
ghost use Rattle.std.specs.List.{position};
ghost use Rattle.cy_msg.specs.Tuple.{messages_of};
ghost use Rattle.cy_msg.specs.Tokens.{on_channel};
ghost use Rattle.cy_msg.specs.declared.token.Token.{Token};
ghost use Rattle.cy_fuse.specs.Visitor.{tuples_at};
ghost use Rattle.std.specs.Prelude.{if◌then◌else◌};
ghost use Rattle.cy_comp.specs.declared.state.State.TheVariants.{Finished, DataWait};
ghost use Rattle.cy_comp.specs.Calls.{is_last};
ghost use Rattle.cy_trace.specs.TraceOfRun.{output_of_call};
ghost use Rattle.cy_verify.specs.private.Following.{IsNextOn};

use crate::caller::Caller;
use cy_comp::{Out, Outcome, Plan, State};
use cy_fuse::{Cursor, Visitor, fetches_find};
use cy_msg::{Token, Tuple};
use cy_trace::{TraceComponent, TraceOutput};
use wake_core::laws;

// The most readers that a component has.
const MOST_READERS: usize = 4;

/// A component, as far as its trace was followed: what arrived and which calls were made.
#[derive(Drop)]
pub(crate) struct Follower {
    pub(crate) visitor: Visitor,
    pub(crate) routine: Caller,
    // How much of the tape was searched for what comes to each reader.
    searched: [usize; MOST_READERS],
    // How many outputs were taken.
    outputs: u32,
    // Whether its last outcome is the last of all.
    ended: bool,
}

impl Follower {
    ghost use Rattle.std.specs.Prelude.{ℕ, ◌≡◌, ◌+◌, ◌≤◌, ◌<◌, ◌∷◌, Bool, true, false};
    ghost use Rattle.std.specs.Prelude.{Option, Some, None};
    ghost use Rattle.std.specs.Prelude.{[], ◌++◌, List, length, slice_get, take};
    ghost use Rattle.cy_fuse.specs.Fusion.{Arrival};
    ghost use Rattle.cy_msg.specs.declared.token.Token.{Token};
    ghost use Rattle.cy_msg.specs.Tokens.{IsNumbered, on_channel};
    ghost use Rattle.cy_fuse.specs.Visitor.{tuples_at};
    ghost use Rattle.cy_fuse.specs.Fetch.{fetch};
    ghost use Rattle.cy_comp.specs.Calls.{cursor_after, output};
    ghost use Rattle.wake_core.specs.Run.{route_of};
    ghost use Rattle.wake_core.specs.Plain.{of_role};
    ghost use Rattle.cy_verify.specs.private.Following.{IsSearched, IsLawful, Follows, HasCalled};
    ghost use Rattle.cy_verify.specs.private.Following.{Hears, Listens, Sends, HasEnded, Stays};
    ghost use Rattle.cy_verify.specs.private.Following.{MayFollow, ends_as};
    ghost use Rattle.cy_verify.specs.private.Leading.{Ended, Leads, IsDue, IsHere, Awaits};
    ghost use Rattle.cy_verify.specs.private.Leading.{AwaitsTo, CanCall, PutsOut};

    /// A component to which nothing came.
    pub(crate) fn new(visitor: Visitor, routine: Caller) -> Self
        ensures visitor { result.visitor ≡ visitor }
        ensures routine { result.routine ≡ routine }
        ensures nothing { (result.outputs ≡ 0) × (result.ended ≡ false) }
        ensures searched { result.searched ≡ 0 ∷ 0 ∷ 0 ∷ 0 ∷ [] }
    {
        Follower {
            visitor,
            routine,
            searched: [0; MOST_READERS],
            outputs: 0,
            ended: false,
        }
    }

    // Takes the next message that comes to a reader: none is there where the tape has no further
    // one of its channel.
    fn hear(&mut self, plan: &Plan, role: u8, tape: &[Token]) -> bool
        requires may { MayFollow (route_of plan.now) self.old tape.now }
        requires searched { IsSearched (route_of plan.now) self.old.visitor.arrivals
            self.old.searched tape.now }
        ensures stays { Stays self.old self.new }
        ensures heard { result ≡ true
            → Hears (route_of plan.now) role tape.now self.old self.new }
        ensures due { (t : Token) → IsDue (route_of plan.now) role t self.old tape.now
            → (result ≡ true)
            × (self.new.visitor.arrivals ≡ self.old.visitor.arrivals ++ (role, t) ∷ []) }
    {
        let readers = plan.readers.as_slice();
        let reader = role as usize;
        if reader >= readers.len() || self.visitor.spare() == 0 {
            return false;
        }
        let Some(place) = next_on(readers[reader], tape, self.searched[reader]) else {
            return false;
        };
        self.visitor.arrive(role, tape[place]);
        self.searched[reader] = place + 1;
        true
    }

    // Takes the arrivals that are told until so many tuples are fused.
    fn listen(&mut self, plan: &Plan, roles: &[u8], tail: u64, tape: &[Token]) -> bool
        requires may { MayFollow (route_of plan.now) self.old tape.now }
        requires listened { Listens (route_of plan.now) roles.now tape.now self.old self.old }
        ensures stays { Stays self.old self.new }
        ensures listens { result ≡ true
            → Listens (route_of plan.now) roles.now tape.now self.old self.new }
        ensures tail { result ≡ true → length (tuples_at self.new.visitor) ≡ tail }
        ensures awaited { (arrivals : List Arrival)
            → AwaitsTo (route_of plan.now) roles.now arrivals tail self.old tape.now
            → (result ≡ true) × Awaits (route_of plan.now) roles.now arrivals self.new }
    {
        for at in self.visitor.arrival_count()..roles.len() {
            if tail_of(&self.visitor) >= tail {
                return tail_of(&self.visitor) == tail;
            }
            if !self.hear(plan, roles[at], tape) {
                return false;
            }
        }
        tail_of(&self.visitor) == tail
    }

    // Makes the next call that is told.
    fn call(&mut self, plan: &Plan, told: &TraceComponent, tape: &[Token]) -> bool
        requires may { MayFollow (route_of plan.now) self.old tape.now }
        requires numbered { IsNumbered tape.now }
        requires follows { Follows (route_of plan.now) told.now self.old tape.now }
        ensures stays { Stays self.old self.new }
        ensures called { result ≡ true → HasCalled (route_of plan.now) told.now self.new tape.now }
        ensures one { result ≡ true
            → length self.new.routine.calls ≡ length self.old.routine.calls + 1 }
        ensures leads { (stopped : Bool) (r : Ended)
            → Leads (route_of plan.now) told.now stopped r self.old tape.now
            → CanCall (route_of plan.now) r self.old tape.now
            → (result ≡ true)
            × Leads (route_of plan.now) told.now stopped r self.new tape.now }
    {
        fetches_find();
        laws::bounds();
        let Some(call) = told.calls.get(self.routine.call_count()) else {
            return false;
        };
        if self.ended || !self.listen(plan, told.roles.as_slice(), call.tail, tape) {
            return false;
        }
        let mut cursor = self.routine.cursor();
        let Some((tuple, position, tail)) = self.visitor.try_fetch(&mut cursor) else {
            return false;
        };
        if position != call.position || !has_numbers(&tuple, call.seqs.as_slice()) {
            return false;
        }
        self.ended = is_last(&self.routine.took(tuple, position, tail));
        is_told(self.outputs, self.routine.pending(), call.out)
    }

    /// Makes the calls that are told up to the next one that has an output: that, as a message of
    /// its channel.
    pub(crate) fn output(
        &mut self,
        plan: &Plan,
        told: &TraceComponent,
        tape: &[Token],
    ) -> Option<Token>
        requires may { MayFollow (route_of plan.now) self.old tape.now }
        requires numbered { IsNumbered tape.now }
        requires follows { Follows (route_of plan.now) told.now self.old tape.now }
        ensures stays { Stays self.old self.new }
        ensures sends { (t : Token) → result ≡ Some t
            → Sends (route_of plan.now) told.now self.new tape.now t }
        ensures leads { (stopped : Bool) (r : Ended) (t : Token)
            → Leads (route_of plan.now) told.now stopped r self.old tape.now
            → PutsOut (route_of plan.now) r tape.now t
            → (result ≡ Some t)
            × Leads (route_of plan.now) told.now stopped r self.new (tape.now ++ t ∷ []) }
    {
        fetches_find();
        for _at in self.routine.call_count()..told.calls.count() {
            if !self.call(plan, told, tape) {
                return None;
            }
            if let Some(out) = self.routine.pending() {
                return Some(self.sent(plan.out, out));
            }
        }
        None
    }

    // The output of its last call, as the next message of its channel.
    fn sent(&mut self, channel: u32, out: Out) -> Token
        requires waits { self.old.routine.pending ≡ Some out }
        requires few { self.old.outputs < 4294967295 }
        ensures sent { self.new ≡ record self.old {
          routine = record self.old.routine { pending = None };
          outputs = self.old.outputs + 1;
        } }
        ensures token { result ≡ output channel (self.old.outputs + 1) out }
    {
        self.routine.sent();
        self.outputs += 1;
        Token {
            channel,
            seq: self.outputs,
            time: out.time,
            whole: out.whole,
            origin: out.origin,
        }
    }

    // Makes the rest of the calls that are told, of which none has an output.
    fn call_rest(&mut self, plan: &Plan, told: &TraceComponent, tape: &[Token]) -> bool
        requires may { MayFollow (route_of plan.now) self.old tape.now }
        requires numbered { IsNumbered tape.now }
        requires follows { Follows (route_of plan.now) told.now self.old tape.now }
        ensures stays { Stays self.old self.new }
        ensures follows { result ≡ true → Follows (route_of plan.now) told.now self.new tape.now }
        ensures all { result ≡ true
            → length self.new.routine.calls ≡ length told.now.calls }
        ensures leads { (stopped : Bool) (r : Ended)
            → Leads (route_of plan.now) told.now stopped r self.old tape.now
            → tape.now ≡ r.tape
            → (result ≡ true)
            × Leads (route_of plan.now) told.now stopped r self.new tape.now }
    {
        for _at in self.routine.call_count()..told.calls.count() {
            if !self.call(plan, told, tape) || self.routine.pending().is_some() {
                return false;
            }
        }
        true
    }

    // Takes the rest of the arrivals that are told.
    fn hear_rest(&mut self, plan: &Plan, roles: &[u8], tape: &[Token]) -> bool
        requires may { MayFollow (route_of plan.now) self.old tape.now }
        requires listened { Listens (route_of plan.now) roles.now tape.now self.old self.old }
        ensures stays { Stays self.old self.new }
        ensures listens { result ≡ true
            → Listens (route_of plan.now) roles.now tape.now self.old self.new }
        ensures all { result ≡ true → length self.new.visitor.arrivals ≡ length roles.now }
        ensures awaited { (arrivals : List Arrival)
            → Awaits (route_of plan.now) roles.now arrivals self.old
            → ((n : ℕ) (a : Arrival) → slice_get arrivals n ≡ Some a
            → IsHere (route_of plan.now) arrivals tape.now n a)
            → (result ≡ true) × (self.new.visitor.arrivals ≡ arrivals) }
    {
        for at in self.visitor.arrival_count()..roles.len() {
            if !self.hear(plan, roles[at], tape) {
                return false;
            }
        }
        true
    }

    // Whether all that the tape has for its readers arrived.
    fn has_heard_all(&self, plan: &Plan, tape: &[Token]) -> bool
        requires few { length plan.now.readers ≤ 4 }
        requires searched { IsSearched (route_of plan.now) self.now.visitor.arrivals
            self.now.searched tape.now }
        ensures all { result ≡ true → (j channel : ℕ)
            → slice_get plan.now.readers j ≡ Some channel
            → of_role j self.now.visitor.arrivals ≡ on_channel channel tape.now }
        ensures whole { ((j channel : ℕ) → slice_get plan.now.readers j ≡ Some channel
            → of_role j self.now.visitor.arrivals ≡ on_channel channel tape.now)
            → result ≡ true }
    {
        let readers = plan.readers.as_slice();
        for reader in 0..readers.len() {
            if next_on(readers[reader], tape, self.searched[reader]).is_some() {
                return false;
            }
        }
        true
    }

    // Whether it may have come to its end as is told, where a stop names it or none does.
    fn may_end(&self, finished: bool, is_stopped: bool) -> bool
        ensures { result ≡ ends_as finished is_stopped self.now }
    {
        if finished {
            self.ended || is_stopped
        } else {
            !self.ended && !self.visitor.finds(self.routine.cursor())
        }
    }

    /// Follows the rest of its trace, behind its last output.
    pub(crate) fn finish(
        &mut self,
        plan: &Plan,
        told: &TraceComponent,
        is_stopped: bool,
        tape: &[Token],
    ) -> bool
        requires may { MayFollow (route_of plan.now) self.old tape.now }
        requires numbered { IsNumbered tape.now }
        requires follows { Follows (route_of plan.now) told.now self.old tape.now }
        ensures stays { Stays self.old self.new }
        ensures ended { result ≡ true
            → HasEnded (route_of plan.now) told.now is_stopped self.new tape.now }
        ensures leads { (r : Ended)
            → Leads (route_of plan.now) told.now is_stopped r self.old tape.now
            → tape.now ≡ r.tape
            → (result ≡ true) × (self.new.routine.calls ≡ r.calls) }
    {
        fetches_find();
        if !self.call_rest(plan, told, tape) {
            return false;
        }
        if !self.hear_rest(plan, told.roles.as_slice(), tape) {
            return false;
        }
        if !self.has_heard_all(plan, tape) || self.routine.cursor().next() != told.next {
            return false;
        }
        if !self.may_end(told.finished, is_stopped) {
            return false;
        }
        self.routine.yielded(state_told(told.finished));
        true
    }
}

// The state in which a component ended that is told so.
fn state_told(finished: bool) -> State
    ensures { result ≡ (if finished then Finished else DataWait) }
{
    if finished {
        State::Finished
    } else {
        State::DataWait
    }
}

// The first place of the tape, from one on, at which there is a message of a channel.
fn next_on(channel: u32, tape: &[Token], from: usize) -> Option<usize>
    requires { from ≤ length tape.now }
    ensures next { IfSome result (IsNextOn channel from tape.now) }
    ensures none { result ≡ None
        → on_channel channel tape.now ≡ on_channel channel (take from tape.now) }
{
    let found = first_on(channel, &tape[from..])?;
    Some(from + found)
}

// The first place at which there is a message of a channel.
fn first_on(channel: u32, tape: &[Token]) -> Option<usize>
    ensures { result ≡ position (λ (t : Token). t.channel == channel) tape.now }
{
    tape.iter().position(|token| token.channel == channel)
}

// How many tuples are fused.
fn tail_of(visitor: &Visitor) -> u64
    ensures { result ≡ length (tuples_at visitor.now) }
{
    fetches_find();
    match visitor.try_fetch(&mut Cursor::new()) {
        Some((_, _, tail)) => tail,
        None => 0,
    }
}

// Whether the messages of a tuple have these numbers.
fn has_numbers(tuple: &Tuple, numbers: &[u32]) -> bool
    ensures numbers { result ≡ true
        → numbers.now ≡ map (λ (m : Token). m.seq) (messages_of tuple.now) }
    ensures equal { numbers.now ≡ map (λ (m : Token). m.seq) (messages_of tuple.now)
        → result ≡ true }
{
    match tuple {
        Tuple::One(a) => numbers == [a.seq].as_slice(),
        Tuple::Two(a, b) => numbers == [a.seq, b.seq].as_slice(),
        Tuple::Three(a, b, c) => numbers == [a.seq, b.seq, c.seq].as_slice(),
        Tuple::Four(a, b, c, d) => numbers == [a.seq, b.seq, c.seq, d.seq].as_slice(),
    }
}

// Whether an outcome is the last of all.
fn is_last(outcome: &Outcome) -> bool
    ensures { result ≡ is_last (Some outcome.now) }
{
    match outcome {
        Outcome::Emit(_) | Outcome::Hold { .. } => false,
        Outcome::Last(_) => true,
    }
}

// Whether what a call put out, behind so many outputs, is what is told.
fn is_told(before: u32, out: Option<Out>, told: Option<TraceOutput>) -> bool
    requires { before < 4294967295 }
    ensures told { result ≡ true → told ≡ output_of_call before out }
    ensures equal { told ≡ output_of_call before out → result ≡ true }
{
    match (out, told) {
        (None, None) => true,
        (Some(out), Some(told)) => {
            told.seq == before + 1 && told.time == out.time && told.value == out.whole
        }
        _ => false,
    }
}
