// A player and processors, at work at once.
ghost use Rattle.std.specs.Prelude.{◌≡◌, is_some};
ghost use Rattle.cy_table.specs.Calls.{made_of, Stays};
ghost use Rattle.cy_run.specs.Passes.{IsMadeOf};
ghost use Rattle.cy_run.specs.Playing.{IsPlayed, IsToBePlayed};
ghost use Rattle.cy_run.specs.Driving.{AreManned, HaveWorked, MayDrive, MayDepute};

use crate::crew::work_all;
use crate::deputy::depute;
use crate::play::play_all;
use crate::{Gate, Idle, Worker};
use cy_comp::Wiring;
use cy_ctx::Context;
use cy_msg::{PlayList, Stop};
use cy_table::{FlagTable, Pass};
use std::sync::Wait;
use std::thread::{Threads, join_mut};

/// The player plays a list at the table, in this thread, while each worker works, in a thread of
/// its own where one can be made. A worker for which none can be made works behind another one, or
/// behind the player, who has closed the run by then, so that it ends on one thread too. The player
/// raises the stop of the table, which is given here again, when as many messages were played as it
/// says. It takes no memory.
pub fn drive<G: Gate, R: Threads + Wait + Sync>(
    rt: &R,
    table: &FlagTable,
    player: &mut Pass,
    crew: &mut [Worker],
    contexts: &[Context],
    idle: &Idle,
    wiring: &Wiring,
    list: &PlayList,
    gate: &G,
    stop: Option<Stop>,
)
    requires { MayDrive table.now wiring.now.plans list.now.tokens contexts.now idle.now player.old
        crew.old stop }
    ensures same { Stays table.now player.old player.new }
    ensures played { IsPlayed table.now list.now.tokens player.old player.new }
    ensures worked { HaveWorked table.now contexts.now crew.old crew.new }
{
    let mut nobody = None;
    drive_with(
        rt,
        table,
        player,
        &mut nobody,
        crew,
        contexts,
        idle,
        wiring,
        list,
        gate,
        stop,
    );
}

// The same, with a deputy of the player or none: it serves the components of contexts for which no
// worker comes while messages are played.
pub(crate) fn drive_with<G: Gate, R: Threads + Wait + Sync>(
    rt: &R,
    table: &FlagTable,
    player: &mut Pass,
    deputy: &mut Option<Pass>,
    crew: &mut [Worker],
    contexts: &[Context],
    idle: &Idle,
    wiring: &Wiring,
    list: &PlayList,
    gate: &G,
    stop: Option<Stop>,
)
    requires drive { MayDrive table.now wiring.now.plans list.now.tokens contexts.now idle.now
        player.old crew.old stop }
    requires deputy { MayDepute table.now contexts.now deputy.old }
    ensures same { Stays table.now player.old player.new }
    ensures played { IsPlayed table.now list.now.tokens player.old player.new }
    ensures worked { HaveWorked table.now contexts.now crew.old crew.new }
    ensures deputy { MayDepute table.now contexts.now deputy.new }
    ensures there { is_some deputy.new ≡ is_some deputy.old }
{
    depute(deputy, contexts, idle);
    join_mut(
        rt,
        &mut ||
            requires made { IsMadeOf table.now wiring.now.plans }
            requires crew { AreManned table.now contexts.now idle.now crew.now }
        { work_all(rt, table, crew, contexts, idle, wiring, gate) },
        &mut ||
            requires made { IsMadeOf table.now wiring.now.plans }
            requires list { IsToBePlayed table.now list.now.tokens player.now }
            requires given { (made_of table.now).stop ≡ stop }
            requires deputy { MayDepute table.now contexts.now deputy.now }
        {
            play_all(
                rt, table, player, deputy, contexts, idle, wiring, list, gate, stop,
            )
        },
    );
}
