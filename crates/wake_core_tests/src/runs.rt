// Worked runs.
ghost use Rattle.std.specs.Prelude.{◌≡◌, ◌∷◌, [], true, IfOk, IfErr};
ghost use Rattle.cy_msg.specs.declared.token.Tuple.TheVariants.{One};
ghost use Rattle.wake_core.specs.declared.error.CoreError.TheVariants as CoreError;
ghost use Rattle.cy_comp.specs.declared.state.State.TheVariants.{DataWait, Finished};
ghost use Rattle.wake_core.specs.WorldOf.{plain_of};
ghost use Rattle.wake_core_tests.specs.Groups.{Shows};
ghost use Rattle.wake_core_tests.specs.Runs.{message, called_once, parked_too_late, four_came};
ghost use Rattle.wake_core_tests.specs.Runs.{parked_once, stopped_once, HadCalls};

use crate::groups::{call, give_back, play, take, take_woken, tell, turn};
use crate::wired::{passing, stopping, summing};
use cy_comp::State;
use cy_msg::Token;
use std::alloc::Global;
use std::test::Fail;
use wake_core::{CoreError, World};

// The messages of /a, at times 1, 2 and so on.
const FIRST: Token = Token {
    channel: 0,
    seq: 1,
    time: 1,
    whole: None,
    origin: None,
};

const SECOND: Token = Token {
    channel: 0,
    seq: 2,
    time: 2,
    whole: None,
    origin: None,
};

const THIRD: Token = Token {
    channel: 0,
    seq: 3,
    time: 3,
    whole: None,
    origin: None,
};

const FOURTH: Token = Token {
    channel: 0,
    seq: 4,
    time: 4,
    whole: None,
    origin: None,
};

// The first and the fourth of them, passed on as the first of /o.
const FIRST_PASSED: Token = Token {
    channel: 1,
    seq: 1,
    time: 1,
    whole: None,
    origin: None,
};

const FOURTH_PASSED: Token = Token {
    channel: 1,
    seq: 1,
    time: 4,
    whole: None,
    origin: None,
};

// A message was played and passed on, and the component was taken again.
fn call_once(alloc: Global) -> Result<World, CoreError>
    ensures shown { IfOk result (Shows called_once) }
    ensures memory { IfErr result (λ e. e ≡ CoreError.Memory) }
{
    let mut world = passing(alloc, 1, 2)?;
    play(&mut world, FIRST);
    turn(&mut world, FIRST_PASSED);
    take(&mut world);
    Ok(world)
}

// The component asks and finds nothing; a message comes, and only then is it parked.
fn park_too_late(world: &mut World)
    requires { Shows called_once world.old }
    ensures { Shows parked_too_late world.new }
{
    call(world);
    tell(world, SECOND);
    give_back(world, State::DataWait);
}

// A message that comes between the fetch and the parking isn't lost: the component's flag is found
// clear, and it is called on the message.
fn park_race(alloc: Global) -> Result<World, CoreError>
    ensures called { IfOk result (λ w. HadCalls ((1, 1, One (message 1))
        ∷ (2, 2, One (message 2)) ∷ []) 3 (plain_of w)) }
    ensures memory { IfErr result (λ e. e ≡ CoreError.Memory) }
{
    let mut world = call_once(alloc)?;
    park_too_late(&mut world);
    take_woken(&mut world);
    call(&mut world);
    Ok(world)
}

// A message that comes while the component is READY needs no wake: the fetch that follows finds
// it.
fn fetch_without_wake(alloc: Global) -> Result<World, CoreError>
    ensures called { IfOk result (λ w. HadCalls ((1, 1, One (message 1))
        ∷ (2, 2, One (message 2)) ∷ []) 3 (plain_of w)) }
    ensures memory { IfErr result (λ e. e ≡ CoreError.Memory) }
{
    let mut world = call_once(alloc)?;
    play(&mut world, SECOND);
    call(&mut world);
    Ok(world)
}

// Four messages come before the component is resumed.
fn play_four(alloc: Global) -> Result<World, CoreError>
    ensures shown { IfOk result (Shows four_came) }
    ensures memory { IfErr result (λ e. e ≡ CoreError.Memory) }
{
    let mut world = passing(alloc, 4, 4)?;
    play(&mut world, FIRST);
    play(&mut world, SECOND);
    play(&mut world, THIRD);
    play(&mut world, FOURTH);
    Ok(world)
}

// Of four messages that come before the first resume the component is called on the newest, and
// its next fetch begins behind it.
fn four_before_the_first_resume(alloc: Global) -> Result<World, CoreError>
    ensures called { IfOk result (λ w. HadCalls ((4, 4, One (message 4)) ∷ []) 5 (plain_of w)) }
    ensures closing { IfOk result (λ w. (plain_of w).closing ≡ true) }
    ensures memory { IfErr result (λ e. e ≡ CoreError.Memory) }
{
    let mut world = play_four(alloc)?;
    turn(&mut world, FOURTH_PASSED);
    world.close(0);
    Ok(world)
}

// A message comes to the first of two readers: the component finds nothing and is parked.
fn park_once(alloc: Global) -> Result<World, CoreError>
    ensures shown { IfOk result (Shows parked_once) }
    ensures memory { IfErr result (λ e. e ≡ CoreError.Memory) }
{
    let mut world = summing(alloc)?;
    play(&mut world, FIRST);
    take(&mut world);
    call(&mut world);
    give_back(&mut world, State::DataWait);
    Ok(world)
}

// Where nothing comes to the second reader nothing is fused: each message wakes the component,
// which finds nothing and parks.
fn sum_never_fuses(alloc: Global) -> Result<World, CoreError>
    ensures called { IfOk result (λ w. HadCalls [] 0 (plain_of w)) }
    ensures parked { IfOk result (λ w. (plain_of w).states 0 ≡ DataWait) }
    ensures memory { IfErr result (λ e. e ≡ CoreError.Memory) }
{
    let mut world = park_once(alloc)?;
    tell(&mut world, SECOND);
    take_woken(&mut world);
    call(&mut world);
    give_back(&mut world, State::DataWait);
    Ok(world)
}

// The component is called on a message and stopped, and then another message comes.
fn stop_once(alloc: Global) -> Result<World, CoreError>
    ensures shown { IfOk result (Shows stopped_once) }
    ensures memory { IfErr result (λ e. e ≡ CoreError.Memory) }
{
    let mut world = stopping(alloc)?;
    play(&mut world, FIRST);
    turn(&mut world, FIRST_PASSED);
    world.stop(0);
    play(&mut world, SECOND);
    Ok(world)
}

// Where it is resumed next it hears of the stop, and ends without a call.
fn end_stopped(alloc: Global) -> Result<World, CoreError>
    ensures called { IfOk result (λ w. HadCalls ((1, 1, One (message 1)) ∷ []) 2 (plain_of w)) }
    ensures ended { IfOk result (λ w. (plain_of w).states 0 ≡ Finished) }
    ensures memory { IfErr result (λ e. e ≡ CoreError.Memory) }
{
    let mut world = stop_once(alloc)?;
    take(&mut world);
    world.check(1);
    give_back(&mut world, State::Finished);
    Ok(world)
}

#[test]
fn wakes_a_component_that_parks_while_a_message_comes(rt: HostRuntime) -> Result<(), Fail> {
    park_race(rt.alloc())?;
    Ok(())
}

#[test]
fn fetches_what_came_without_being_woken(rt: HostRuntime) -> Result<(), Fail> {
    fetch_without_wake(rt.alloc())?;
    Ok(())
}

#[test]
fn skips_to_the_newest_of_four(rt: HostRuntime) -> Result<(), Fail> {
    four_before_the_first_resume(rt.alloc())?;
    Ok(())
}

#[test]
fn wakes_and_parks_where_nothing_is_joined(rt: HostRuntime) -> Result<(), Fail> {
    sum_never_fuses(rt.alloc())?;
    Ok(())
}

#[test]
fn ends_a_stopped_component_without_a_call(rt: HostRuntime) -> Result<(), Fail> {
    end_stopped(rt.alloc())?;
    Ok(())
}
