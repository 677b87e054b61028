//! Laws over plain worlds: what each event keeps.
//!
//! A function here does nothing: its contract is a law of `specs/Laws`, `specs/Way`,
//! `specs/TapeLaws` or `specs/Bounds`, over the worlds of `specs/Plain`, the events of
//! `specs/Events` and what `specs/Sound` says of a world.
ghost use Rattle.wake_core.specs.Laws.{AcquireLaws, SpendLaws, ReadyLaws, CheckLaws, StopLaws};
ghost use Rattle.wake_core.specs.Laws.{AskLaws, FetchLaws};
ghost use Rattle.wake_core.specs.Laws.{TapeLaws, SendLaws, FillLaws, LookLaws, ClearLaws};
ghost use Rattle.wake_core.specs.Laws.{YieldLaws, ReleaseLaws, TickLaws, CloseLaws, RunLaws};
ghost use Rattle.wake_core.specs.Laws.{TapedLaws, ThreadLaws, RoomLaws, FoundLaws};
ghost use Rattle.wake_core.specs.Laws.{OutsideLaws, LimitLaws, WiringLaws};
ghost use Rattle.wake_core.specs.Way.{WayLaws};
ghost use Rattle.wake_core.specs.TapeLaws.{UnsentLaws, PutLaws};
ghost use Rattle.wake_core.specs.Bounds.{PlaceLaws, BoundLaws};

use cy_comp::outcomes_are_answers;
use cy_fuse::fetches_find;

/// Taking a croutine that is free keeps what holds of a world.
pub fn acquire()
    ensures { AcquireLaws }
{}

/// So does spending the flag of one that is not due.
pub fn spend()
    ensures { SpendLaws }
{}

/// So does making READY one that was woken or is due.
pub fn ready()
    ensures { ReadyLaws }
{}

/// So does looking whether the raised stop names one that is READY.
pub fn check()
    ensures { CheckLaws }
{}

/// So does raising the stop.
pub fn stop()
    ensures { StopLaws }
{}

/// So does storing, before the fetch, that it waits again.
pub fn ask()
    ensures { AskLaws }
{}

/// So does a fetch, whether it finds a tuple or not.
pub fn fetch()
    ensures { FetchLaws }
{
    fetches_find();
}

/// So does a message that the player puts onto the tape.
pub fn tape()
    ensures { TapeLaws }
{}

/// So does an output that a holder puts onto the tape.
pub fn send()
    ensures { SendLaws }
{}

/// So does the arrival of a message at a reader.
pub fn fill()
    ensures { FillLaws }
{}

/// So does a look at the state of one that was filled.
pub fn look()
    ensures { LookLaws }
{}

/// So does the clearing of its flag.
pub fn clear()
    ensures { ClearLaws }
{}

/// So does storing what a croutine is to do next.
pub fn yield_as()
    ensures { YieldLaws }
{}

/// So does giving a croutine back.
pub fn release()
    ensures { ReleaseLaws }
{}

/// So does setting the clock forward.
pub fn tick()
    ensures { TickLaws }
{}

/// So does closing.
pub fn close()
    ensures { CloseLaws }
{}

/// The opening world has all of it, and so has every world that events lead to: no croutine is lost
/// there, and none has two holders.
pub fn run()
    ensures { RunLaws }
{
    fetches_find();
}

/// Each way keeps all of it, and each world on a way is safe.
pub fn ways()
    ensures { WayLaws }
{
    fetches_find();
}

/// Every message that arrived stands on the tape.
pub fn taped()
    ensures { TapedLaws }
{}

/// A thread that holds and owes nothing tells nothing of a world.
pub fn threads()
    ensures { ThreadLaws }
{}

/// What is said of numbers that are no component's tells nothing of a world.
pub fn outside()
    ensures { OutsideLaws }
{}

/// What is to be sent, played, filled or called leaves room for itself.
pub fn room()
    ensures { RoomLaws }
{
    fetches_find();
}

/// An output that is not sent yet is the next one of its component's channel.
pub fn unsent()
    ensures { UnsentLaws }
{}

/// A message more on the tape is one that was played, or an output of one component.
pub fn put()
    ensures { PutLaws }
{}

/// Each message stands where its number says.
pub fn places()
    ensures { PlaceLaws }
{}

/// No more messages are taped, come to a channel or are fused than are planned.
pub fn bounds()
    ensures { BoundLaws }
{}

/// The tape has no more messages than a world keeps.
pub fn limits()
    ensures { LimitLaws }
{}

/// A fetch finds one message of each reader, at a position within what is planned, and what the
/// component's visitor finds.
pub fn found()
    ensures { FoundLaws }
{
    fetches_find();
}

/// The components of a wiring are wired: following triggers comes to a channel that no component
/// writes, so that as much is planned on a component's channel as on the one that triggers it.
pub fn wiring()
    ensures { WiringLaws }
{
    outcomes_are_answers();
}
