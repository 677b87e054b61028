// The player: it plays the messages of a list at the table, and closes.
ghost use Rattle.std.specs.Prelude.{◌≡◌, ◌≤◌, ◌+◌, length, is_some};
ghost use Rattle.wake_core.specs.Serial.{last_clock};
ghost use Rattle.cy_table.specs.Calls.{made_of, seat_of, CanClose, Stays};
ghost use Rattle.cy_run.specs.Passes.{IsMadeOf};
ghost use Rattle.cy_run.specs.Playing.{IsFreePlayer, IsNextFor, IsToBePlayed, IsPlayed};
ghost use Rattle.cy_run.specs.Playing.{after_play, after_end, IsRaisedBefore};
ghost use Rattle.cy_run.specs.Driving.{MayDepute};

use crate::deliver::{deliver, triggered_by};
use crate::deputy::settle;
use crate::{Gate, Idle};
use cy_comp::Wiring;
use cy_ctx::Context;
use cy_msg::{PlayList, Stop, Token};
use cy_table::{FlagTable, Pass};
use std::sync::Wait;
use wake_core::laws;

// Plays the messages of a list, one after another, when the processors came and at their pace, and
// ends the play. The stop is raised on the way. A deputy serves the components for which none came.
pub(crate) fn play_all<G: Gate, R: Wait>(
    rt: &R,
    table: &FlagTable,
    player: &mut Pass,
    deputy: &mut Option<Pass>,
    contexts: &[Context],
    idle: &Idle,
    wiring: &Wiring,
    list: &PlayList,
    gate: &G,
    stop: Option<Stop>,
)
    requires made { IsMadeOf table.now wiring.now.plans }
    requires list { IsToBePlayed table.now list.now.tokens player.old }
    requires given { (made_of table.now).stop ≡ stop }
    requires deputy { MayDepute table.now contexts.now deputy.old }
    ensures same { Stays table.now player.old player.new }
    ensures played { IsPlayed table.now list.now.tokens player.old player.new }
    ensures deputy { MayDepute table.now contexts.now deputy.new }
    ensures there { is_some deputy.new ≡ is_some deputy.old }
{
    laws::put();
    idle.await_all(rt, deputy.is_some());
    let lead = least_queue(wiring);
    let mut ahead = 0;
    let tokens = list.tokens.as_slice();
    for (played, token) in tokens.iter().enumerate() {
        raise_after(table, player, stop, played);
        ahead = keep_pace(rt, token, idle, wiring, ahead, lead);
        play(rt, table, player, token, idle, wiring);
        settle(rt, table, deputy, contexts, idle, wiring, gate);
    }
    raise_after(table, player, stop, tokens.len());
    end_play(rt, table, player, deputy, contexts, idle, wiring, gate);
}

// Raises the stop, where so many messages are played before it.
fn raise_after(table: &FlagTable, player: &mut Pass, stop: Option<Stop>, played: usize)
    requires mine { IsFreePlayer table.now player.old }
    requires given { (made_of table.now).stop ≡ stop }
    requires all { length (seat_of player.old).played ≡ played }
    requires before { IsRaisedBefore played (seat_of player.old) }
    ensures same { Stays table.now player.old player.new }
    ensures mine { IsFreePlayer table.now player.new }
    ensures seat { seat_of player.new
        ≡ record (seat_of player.old) { raised = (seat_of player.new).raised } }
    ensures raised { IsRaisedBefore (played + 1) (seat_of player.new) }
{
    match stop {
        Some(stop) if stop.after as usize == played => table.raise(player),
        _ => {}
    }
}

// Sets the clock to its greatest value, which ends all sleep, and then says that all was played.
fn end_play<G: Gate, R: Wait>(
    rt: &R,
    table: &FlagTable,
    player: &mut Pass,
    deputy: &mut Option<Pass>,
    contexts: &[Context],
    idle: &Idle,
    wiring: &Wiring,
    gate: &G,
)
    requires made { IsMadeOf table.now wiring.now.plans }
    requires deputy { MayDepute table.now contexts.now deputy.old }
    requires mine { IsFreePlayer table.now player.old }
    requires all { CanClose table.now player.old }
    requires bound { (seat_of player.old).clock ≤ last_clock }
    ensures same { Stays table.now player.old player.new }
    ensures mine { IsFreePlayer table.now player.new }
    ensures seat { seat_of player.new ≡ after_end (seat_of player.old) }
    ensures deputy { MayDepute table.now contexts.now deputy.new }
    ensures there { is_some deputy.new ≡ is_some deputy.old }
{
    table.tick(player, u64::MAX);
    idle.heed_clock(rt, u64::MAX);
    settle(rt, table, deputy, contexts, idle, wiring, gate);
    table.set_closing(player);
    idle.tell_closing(rt);
}

// How many tuples the buffer of each component keeps at least: a player that is ahead by more may
// make one of them skip.
fn least_queue(wiring: &Wiring) -> u32 {
    let mut least = u32::MAX;
    for plan in wiring.plans.as_slice() {
        least = least.min(plan.queue);
    }
    least
}

// By how many messages the player is ahead of the components once it has played this one, before
// which it waits for them where it must. One that triggers none and wakes none may come early.
fn keep_pace<R: Wait>(
    rt: &R,
    token: &Token,
    idle: &Idle,
    wiring: &Wiring,
    ahead: u32,
    lead: u32,
) -> u32 {
    if triggered_by(token.channel, wiring) == 0 && !idle.is_due(token.time) {
        return ahead;
    }
    idle.keep_pace(rt, ahead, lead)
}

// Plays the next message: the clock is set to its time, and it is taped and delivered.
fn play<R: Wait>(
    rt: &R,
    table: &FlagTable,
    player: &mut Pass,
    token: &Token,
    idle: &Idle,
    wiring: &Wiring,
)
    requires made { IsMadeOf table.now wiring.now.plans }
    requires mine { IsFreePlayer table.now player.old }
    requires next { IsNextFor (seat_of player.old) token.now }
    ensures mine { IsFreePlayer table.now player.new }
    ensures seat { seat_of player.new ≡ after_play (seat_of player.old) token.now }
    ensures bound { (seat_of player.new).clock ≤ last_clock }
{
    table.tick(player, token.time);
    idle.heed_clock(rt, token.time);
    table.tape(rt, player, *token);
    deliver(rt, table, player, *token, idle, wiring);
}
