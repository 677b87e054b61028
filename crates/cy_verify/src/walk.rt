// The walk along the tape.
ghost use Rattle.std.specs.Prelude.{ℕ, ◌≡◌, ◌==◌, ◌++◌, ◌∷◌, [], Bool, false, IfOk, map, slice_get};
ghost use Rattle.std.specs.Prelude.{Some, None, is_some, option_map, IsOkUnless, length};
ghost use Rattle.std.specs.List.{position};
ghost use Rattle.cy_comp.specs.declared.plan.Plan.{Plan};
ghost use Rattle.cy_comp.specs.Routine.{new_routine};
ghost use Rattle.wake_core.specs.declared.entries.TheConstants.{MOST_PLANNED};
ghost use Rattle.cy_verify.specs.declared.error.VerifyError.TheVariants as VerifyError;
ghost use Rattle.cy_verify.specs.declared.follower.Follower.{Follower};
ghost use Rattle.cy_verify.specs.private.Walking.{names_it};

use crate::VerifyError;
use crate::caller::Caller;
use crate::channels::Channels;
use crate::follower::Follower;
use cy_comp::{Plan, Wiring};
use cy_fuse::Visitor;
use cy_msg::{Items, PlayList, Stop, Text, Token};
use cy_trace::{NamedSeq, Trace, TraceComponent};
use std::alloc::Global;
use wake_core::{CoreError, Fixed, Parts, World, laws};

/// How far a trace was followed: each of its components, and the tape.
#[derive(Drop)]
pub(crate) struct Walk {
    pub(crate) followers: Vec<Follower>,
    pub(crate) tape: Vec<Token>,
    // How many messages were played.
    pub(crate) played: usize,
    // What the world is made of beside them.
    pub(crate) spent: Items<bool>,
    pub(crate) fixed: Fixed,
}

impl Walk {
    ghost use Rattle.std.specs.Prelude.{ℕ, ◌≡◌, ◌≤◌, ◌<◌, ◌++◌, ◌∷◌, [], List, true, Some, map};
    ghost use Rattle.cy_msg.specs.declared.token.Token.{Token};
    ghost use Rattle.cy_msg.specs.Once.{IsOnce};
    ghost use Rattle.cy_comp.specs.declared.plan.Plan.{Plan};
    ghost use Rattle.std.specs.Prelude.{IfOk, IsOkUnless, slice_get, vec_capacity, take, None};
    ghost use Rattle.std.specs.Prelude.{length};
    ghost use Rattle.wake_core.specs.Run.{routes_of, writes_from};
    ghost use Rattle.wake_core.specs.WorldOf.{routes_in, counts_in, stop_in, IsMade};
    ghost use Rattle.wake_core.specs.Planned.{planned};
    ghost use Rattle.wake_core.specs.declared.entries.TheConstants.{MOST_PLANNED};
    ghost use Rattle.wake_core.specs.Fields.{IsWithin};
    ghost use Rattle.cy_trace.specs.TraceOfRun.{tape_entry};
    ghost use Rattle.cy_trace.specs.Tapes.{entry_of};
    ghost use Rattle.cy_trace.specs.declared.trace.TraceComponent.{TraceComponent};
    ghost use Rattle.cy_verify.specs.Verdict.{MayJudge};
    ghost use Rattle.cy_verify.specs.declared.error.VerifyError.TheVariants as VerifyError;
    ghost use Rattle.cy_verify.specs.private.Walking.{task_in, IsWalked, Puts, HasWalked};
    ghost use Rattle.cy_verify.specs.private.Walking.{IsOpening};
    ghost use Rattle.cy_verify.specs.private.Led.{IsLed, IsNext, HaveCalled};
    ghost use Rattle.wake_core.specs.Plain.{Plain};

    /// Before anything is followed. It takes all the memory that is needed.
    pub(crate) fn new(
        alloc: Global,
        wiring: &Wiring,
        counts: &[u32],
        stop: Option<Stop>,
    ) -> Result<Self, VerifyError>
        requires counts { length counts.now ≡ length wiring.now.names }
        requires limited { planned (routes_of wiring.now.plans) counts.now ≤ MOST_PLANNED }
        requires within { IsWithin (routes_of wiring.now.plans) counts.now stop }
        ensures opens { IfOk result (λ w. (tokens : List Token) (shadowed : ℕ) → IsOpening record {
          names = wiring.now.names;
          plans = wiring.now.plans;
          counts = counts.now;
          tokens = tokens;
          shadowed = shadowed;
          stop = stop;
        } w) }
    {
        let world = match World::new(alloc, wiring, counts, stop) {
            Ok(world) => world,
            Err(CoreError::Memory) => return Err(VerifyError::Memory),
            Err(CoreError::TooMany { .. }) => unreachable!(),
        };
        let Parts {
            routines,
            visitors,
            spent,
            tape,
            fixed,
            played: _,
            clock: _,
            closing: _,
            raised: _,
        } = world.apart();
        // Calls are counted and not kept, so the room for them is given back. The tape gets the
        // room of the text that was read before, where it has enough.
        let most = tape.capacity();
        drop(tape);
        drop(routines);
        let tape = Vec::with_capacity(alloc, most)?;
        let callers = callers_of(alloc, wiring.plans.as_slice())?;
        let followers = followers_of(alloc, visitors.into_vec(), callers)?;
        Ok(Walk {
            followers,
            tape,
            played: 0,
            spent,
            fixed,
        })
    }

    // Puts a message onto the tape that has this number.
    fn put(&mut self, token: Token, seq: u32) -> bool
        ensures number { result ≡ true → token.seq ≡ seq }
        ensures put { result ≡ true
            → self.new.tape.items ≡ self.old.tape.items ++ token ∷ [] }
        ensures room { vec_capacity self.new.tape ≡ vec_capacity self.old.tape }
        ensures same { self.new ≡ record self.old { tape = self.new.tape } }
        ensures takes { token.seq ≡ seq
            → length self.old.tape.items < vec_capacity self.old.tape → result ≡ true }
    {
        if token.seq != seq || self.tape.len() == self.tape.capacity() {
            return false;
        }
        self.tape.push_reserved(token);
        true
    }

    // Follows an entry of the tape on a channel that a component writes.
    fn put_output(
        &mut self,
        wiring: &Wiring,
        list: &PlayList,
        told: &[TraceComponent],
        writer: usize,
        name: &Text,
        seq: u32,
    ) -> bool
        requires walked { IsWalked (task_in wiring.now list.now self.old) told.now self.old }
        requires writer { writer < length wiring.now.plans }
        requires told { length told.now ≡ length wiring.now.plans }
        requires named { (p : Plan) → slice_get wiring.now.plans writer ≡ Some p
            → slice_get wiring.now.names p.out ≡ Some name.now }
        ensures walked { result ≡ true
            → IsWalked (task_in wiring.now list.now self.new) told.now self.new }
        ensures puts { result ≡ true → Puts wiring.now.names (entry_of (name.now, seq)) self.old
            self.new }
        ensures same { self.new.fixed ≡ self.old.fixed }
        ensures leads { (w : Plain) (p : Plan) (token : Token)
            → IsLed (task_in wiring.now list.now self.old) told.now w self.old
            → IsNext w self.old token → slice_get wiring.now.plans writer ≡ Some p
            → token.channel ≡ p.out → token.seq ≡ seq
            → (result ≡ true)
            × IsLed (task_in wiring.now list.now self.new) told.now w self.new }
    {
        let plan = &wiring.plans.as_slice()[writer];
        let tape = self.tape.as_slice();
        let Some(token) = self.followers[writer].output(plan, &told[writer], tape) else {
            return false;
        };
        self.put(token, seq)
    }

    // Follows an entry of the tape on a channel that no component writes.
    fn put_played(
        &mut self,
        wiring: &Wiring,
        list: &PlayList,
        told: &[TraceComponent],
        channel: u32,
        name: &Text,
        seq: u32,
    ) -> bool
        requires may { MayJudge (task_in wiring.now list.now self.old) }
        requires walked { IsWalked (task_in wiring.now list.now self.old) told.now self.old }
        requires named { slice_get wiring.now.names channel ≡ Some name.now }
        ensures walked { result ≡ true
            → IsWalked (task_in wiring.now list.now self.new) told.now self.new }
        ensures puts { result ≡ true → Puts wiring.now.names (entry_of (name.now, seq)) self.old
            self.new }
        ensures same { self.new.fixed ≡ self.old.fixed }
        ensures leads { (w : Plain) (token : Token)
            → IsLed (task_in wiring.now list.now self.old) told.now w self.old
            → IsNext w self.old token → token.channel ≡ channel
            → writes_from 0 (routes_of wiring.now.plans) channel ≡ None
            → token.seq ≡ seq
            → (result ≡ true)
            × IsLed (task_in wiring.now list.now self.new) told.now w self.new }
    {
        let Some(token) = list.tokens.as_slice().get(self.played) else {
            return false;
        };
        if token.channel != channel {
            return false;
        }
        self.played += 1;
        self.put(*token, seq)
    }

    // Follows an entry of the tape.
    fn put_entry(
        &mut self,
        wiring: &Wiring,
        list: &PlayList,
        told: &[TraceComponent],
        channels: &mut Channels,
        name: &Text,
        message: NamedSeq,
    ) -> bool
        requires may { MayJudge (task_in wiring.now list.now self.old) }
        requires once { IsOnce wiring.now.names }
        requires walked { IsWalked (task_in wiring.now list.now self.old) told.now self.old }
        requires told { length told.now ≡ length wiring.now.plans }
        ensures walked { result ≡ true
            → IsWalked (task_in wiring.now list.now self.new) told.now self.new }
        ensures puts { result ≡ true → Puts wiring.now.names
            (entry_of (name.now, message.seq)) self.old self.new }
        ensures same { self.new.fixed ≡ self.old.fixed }
        ensures leads { (w : Plain) (token : Token)
            → IsLed (task_in wiring.now list.now self.old) told.now w self.old
            → IsNext w self.old token
            → tape_entry wiring.now.names token ≡ entry_of (name.now, message.seq)
            → (result ≡ true)
            × IsLed (task_in wiring.now list.now self.new) told.now w self.new }
    {
        let Some(channel) = channels.find(&wiring.names, name, message.name) else {
            return false;
        };
        let seq = message.seq;
        match writer_of(wiring.plans.as_slice(), channel) {
            Some(writer) => self.put_output(wiring, list, told, writer, name, seq),
            None => self.put_played(wiring, list, told, channel, name, seq),
        }
    }

    /// Follows the tape of a trace with so many components: whether it can be that of a lawful run.
    pub(crate) fn put_all(&mut self, wiring: &Wiring, list: &PlayList, trace: &Trace) -> bool
        requires may { MayJudge (task_in wiring.now list.now self.old) }
        requires once { IsOnce wiring.now.names }
        requires walked { IsWalked (task_in wiring.now list.now self.old) trace.now.components
            self.old }
        requires empty { self.old.tape.items ≡ [] }
        requires told { length trace.now.components ≡ length wiring.now.plans }
        ensures walked { result ≡ true
            → IsWalked (task_in wiring.now list.now self.new) trace.now.components self.new }
        ensures told { result ≡ true
            → map (tape_entry wiring.now.names) self.new.tape.items ≡ trace.now.tape }
        ensures played { result ≡ true → self.new.played ≡ length list.now.tokens }
        ensures same { self.new.fixed ≡ self.old.fixed }
        ensures leads { (w : Plain)
            → IsLed (task_in wiring.now list.now self.old) trace.now.components w self.old
            → map (tape_entry wiring.now.names) w.tape ≡ trace.now.tape
            → (result ≡ true) × (self.new.tape.items ≡ w.tape)
            × IsLed (task_in wiring.now list.now self.new) trace.now.components w self.new }
    {
        let told = trace.components.as_slice();
        let mut channels = Channels::new();
        for place in 0..trace.tape.count() {
            let (name, message) = trace.tape.entry(place);
            if !self.put_entry(wiring, list, told, &mut channels, name, message) {
                return false;
            }
        }
        self.played == list.tokens.as_slice().len()
    }

    /// Follows each component behind its last output, where a stop names one or none does: whether
    /// all of them may have ended as is told.
    pub(crate) fn finish(
        &mut self,
        wiring: &Wiring,
        list: &PlayList,
        trace: &Trace,
        stop: Option<Stop>,
    ) -> bool
        requires walked { IsWalked (task_in wiring.now list.now self.old) trace.now.components
            self.old }
        requires told { length trace.now.components ≡ length wiring.now.plans }
        requires stop { stop ≡ stop_in self.old.fixed }
        ensures walked { result ≡ true → HasWalked (task_in wiring.now list.now self.new)
            trace.now.components self.new }
        ensures same { self.new ≡ record self.old { followers = self.new.followers } }
        ensures leads { (w : Plain)
            → IsLed (task_in wiring.now list.now self.old) trace.now.components w self.old
            → self.old.tape.items ≡ w.tape
            → (result ≡ true) × HaveCalled w self.new.followers.items }
    {
        let (plans, told) = (wiring.plans.as_slice(), trace.components.as_slice());
        for component in 0..plans.len() {
            let is_stopped = names_it(stop, component);
            let tape = self.tape.as_slice();
            if !self.followers[component].finish(
                &plans[component],
                &told[component],
                is_stopped,
                tape,
            ) {
                return false;
            }
        }
        true
    }
}

// The component that writes a channel, where one does.
fn writer_of(plans: &[Plan], channel: u32) -> Option<usize>
    ensures { result ≡ position (λ (p : Plan). p.out == channel) plans.now }
{
    plans.iter().position(|plan| plan.out == channel)
}

// Whether a stop names a component.
fn names_it(stop: Option<Stop>, component: usize) -> bool
    ensures { result ≡ names_it stop component }
{
    match stop {
        Some(stop) => stop.component as usize == component,
        None => false,
    }
}

// What is called of these components, before the first call.
fn callers_of(alloc: Global, plans: &[Plan]) -> Result<Vec<Caller>, VerifyError>
    ensures { IfOk result (λ v. v.items
        ≡ map (λ (p : Plan). new_routine p.kind MOST_PLANNED) plans.now) }
{
    let mut callers = Vec::with_capacity(alloc, plans.len())?;
    for plan in plans {
        callers.push(Caller::new(alloc, &plan.kind)?)?;
    }
    Ok(callers)
}

// The followers of components with these parts, to which nothing came.
fn followers_of(
    alloc: Global,
    visitors: Vec<Visitor>,
    routines: Vec<Caller>,
) -> Result<Vec<Follower>, VerifyError>
    requires { length visitors.items ≡ length routines.items }
    ensures followers { IfOk result (λ v. (map (λ (f : Follower). f.visitor) v.items
        ≡ visitors.items) × (map (λ (f : Follower). f.routine) v.items ≡ routines.items)) }
    ensures fresh { IfOk result (λ v. (n : ℕ) (f : Follower) → slice_get v.items n ≡ Some f
        → (f.searched ≡ 0 ∷ 0 ∷ 0 ∷ 0 ∷ []) × (f.outputs ≡ 0) × (f.ended ≡ false)) }
{
    let mut followers = Vec::with_capacity(alloc, visitors.len())?;
    let mut rest = routines.into_iter();
    for visitor in visitors {
        let Some(routine) = rest.next() else {
            unreachable!()
        };
        followers.push(Follower::new(visitor, routine))?;
    }
    Ok(followers)
}
