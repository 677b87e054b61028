// A message that was taped goes to its readers, and those that wait for it are told.
ghost use Rattle.std.specs.Prelude.{◌+◌, ◌≡◌, []};
ghost use Rattle.cy_table.specs.Calls.{made_of, seat_of, thread_of, knowing, Stays};
ghost use Rattle.cy_run.specs.Passes.{IsMadeOf};
ghost use Rattle.cy_run.specs.private.Sending.{Owes, delivered, fills_at, fills_in, news_at};
ghost use Rattle.cy_run.specs.private.Sending.{Fills, FillsOn, Tells, TellsOn, IsReadBy, is_first};

use crate::Idle;
use cy_comp::Wiring;
use cy_msg::Token;
use cy_pace::bit_of;
use cy_table::{FlagTable, Pass};
use std::sync::Wait;

// Fills each reader of the message that the pass owes, looks at each component that it triggers,
// and tells the processors.
pub(crate) fn deliver<R: Wait>(
    rt: &R,
    table: &FlagTable,
    pass: &mut Pass,
    token: Token,
    idle: &Idle,
    wiring: &Wiring,
)
    requires made { IsMadeOf table.now wiring.now.plans }
    requires owes { Owes table.now token pass.old }
    ensures same { Stays table.now pass.old pass.new }
    ensures thread { thread_of pass.new ≡ knowing pass.old (delivered (seat_of pass.old)) }
{
    let triggered = triggered_by(token.channel, wiring);
    fill_all(rt, table, pass, token, wiring);
    idle.open(triggered);
    tell_all(table, pass, token.channel, wiring);
    idle.tell(rt, triggered);
}

// Fills the readers of a message.
fn fill_all<R: Wait>(rt: &R, table: &FlagTable, pass: &mut Pass, token: Token, wiring: &Wiring)
    requires made { IsMadeOf table.now wiring.now.plans }
    requires fills { Fills table.now token pass.old }
    requires all { (seat_of pass.old).fills ≡ fills_at (made_of table.now).routes token.channel 0 }
    ensures filled { FillsOn table.now token pass.old pass.new }
    ensures none { (seat_of pass.new).fills ≡ [] }
{
    for (component, plan) in wiring.plans.as_slice().iter().enumerate() {
        let readers = plan.readers.as_slice();
        fill_roles(rt, table, pass, token, component as u32, readers);
    }
}

// Fills those of a component.
fn fill_roles<R: Wait>(
    rt: &R,
    table: &FlagTable,
    pass: &mut Pass,
    token: Token,
    component: u32,
    readers: &[u32],
)
    requires fills { Fills table.now token pass.old }
    requires component { IsReadBy table.now component readers.now }
    requires first { (seat_of pass.old).fills
        ≡ fills_in (made_of table.now).routes token.channel component 0 readers.now }
    ensures filled { FillsOn table.now token pass.old pass.new }
    ensures later { (seat_of pass.new).fills
        ≡ fills_at (made_of table.now).routes token.channel (component + 1) }
{
    for (role, channel) in readers.iter().enumerate() {
        if *channel == token.channel {
            table.fill(rt, pass, component, role as u8, token);
        }
    }
}

// Looks at the components that a channel triggers, when its readers were filled.
fn tell_all(table: &FlagTable, pass: &mut Pass, channel: u32, wiring: &Wiring)
    requires made { IsMadeOf table.now wiring.now.plans }
    requires tells { Tells table.now pass.old }
    requires all { (seat_of pass.old).news ≡ news_at (made_of table.now).routes channel 0 }
    ensures told { TellsOn table.now pass.old pass.new }
    ensures none { (seat_of pass.new).news ≡ [] }
{
    for (component, plan) in wiring.plans.as_slice().iter().enumerate() {
        if triggers(channel, plan.readers.as_slice()) {
            table.look_and_clear(pass, component as u32);
        }
    }
}

// Whether a channel is the one of the first reader.
fn triggers(channel: u32, readers: &[u32]) -> bool
    ensures { result ≡ is_first channel readers.now }
{
    match readers.first() {
        Some(first) => *first == channel,
        None => false,
    }
}

// The components that a channel triggers, as a mask.
pub(crate) fn triggered_by(channel: u32, wiring: &Wiring) -> u64 {
    let mut triggered = 0;
    for (component, plan) in wiring.plans.as_slice().iter().enumerate() {
        if triggers(channel, plan.readers.as_slice()) {
            triggered |= bit_of(component);
        }
    }
    triggered
}
