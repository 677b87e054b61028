//! Laws of the steps: what each kind of step does to the world that the table shows.
//!
//! A function here changes nothing: its contract is a law of `specs/Laws`, over the rule of
//! `specs/Rule`. Each stands on the law of its event, which keeps all that holds of a world.
ghost use Rattle.cy_table.specs.Laws.{HoldSwaps, StateStores, HoldStores, FlagSwaps, StateLoads};
ghost use Rattle.cy_table.specs.Laws.{FlagStores, ClockSteps, ClosingSteps, TapeDoorSwaps};
ghost use Rattle.cy_table.specs.Laws.{VisitorDoorSwaps, FillStores, TapeStores, FetchStores};
ghost use Rattle.cy_table.specs.Laws.{BenchSteps, RoomsLeft, TableEnds, StopLoads, StopStores};

use wake_core::laws;

/// The swap of a hold word takes a croutine that is free.
pub fn hold_swaps()
    ensures { HoldSwaps }
{
    laws::acquire();
}

/// The stores of a state make READY, ask or yield.
pub fn state_stores()
    ensures { StateStores }
{
    laws::ready();
    laws::ask();
    laws::yield_as();
}

/// The store of a hold word gives a croutine back.
pub fn hold_stores()
    ensures { HoldStores }
{
    laws::release();
}

/// The swap of a flag spends it.
pub fn flag_swaps()
    ensures { FlagSwaps }
{
    laws::spend();
}

/// The load of a state is a look at one that was filled.
pub fn state_loads()
    ensures { StateLoads }
{
    laws::look();
}

/// The store of a flag clears it.
pub fn flag_stores()
    ensures { FlagStores }
{
    laws::clear();
}

/// The load of the clock changes nothing, and its store sets it forward.
pub fn clock_steps()
    ensures { ClockSteps }
{
    laws::tick();
}

/// The load of closing changes nothing, and its store closes.
pub fn closing_steps()
    ensures { ClosingSteps }
{
    laws::close();
}

/// The load of the stop tells whether it names the croutine in hand.
pub fn stop_loads()
    ensures { StopLoads }
{
    laws::check();
}

/// The store of the stop raises it.
pub fn stop_stores()
    ensures { StopStores }
{
    laws::stop();
}

/// The swap of the tape's door takes the tape, or changes nothing.
pub fn tape_door_swaps()
    ensures { TapeDoorSwaps }
{}

/// The swap of a visitor's door takes the visitor, or changes nothing.
pub fn visitor_door_swaps()
    ensures { VisitorDoorSwaps }
{}

/// The store of a visitor's door after a fill lets a message arrive.
pub fn fill_stores()
    ensures { FillStores }
{
    laws::fill();
}

/// The stores of the tape's door put a message there.
pub fn tape_stores()
    ensures { TapeStores }
{
    laws::tape();
    laws::send();
    laws::unsent();
    laws::put();
}

/// The store of a visitor's door after a fetch makes a call, or finds nothing.
pub fn fetch_stores()
    ensures { FetchStores }
{
    laws::fetch();
    laws::found();
    laws::unsent();
}

/// A seat that is split off, or joined, changes nothing.
pub fn bench_steps()
    ensures { BenchSteps }
{}

/// What a seat is to put has room.
pub fn rooms_left()
    ensures { RoomsLeft }
{
    laws::room();
    laws::found();
    laws::unsent();
}

/// At its start a table shows the world that it is made of, and at its end one that is at rest.
pub fn table_ends()
    ensures { TableEnds }
{}
