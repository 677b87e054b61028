// The rule of the table as a type, what each of its steps tells the thread that makes it, and which
// deed the step is.
ghost use Rattle.cy_table.specs.Plays.{rule_for, acquired, released, asked, yielded};
ghost use Rattle.cy_table.specs.Plays.{saw, ticked, heeded, closed, looked, cleared};
ghost use Rattle.cy_table.specs.Plays.{readied, spent, visited, filled, fetched, entered, taped};
ghost use Rattle.cy_table.specs.Plays.{sent, checked, stopped};
ghost use Rattle.cy_table.specs.Plays.{no_deed, acquire_deed, release_deed, ask_deed, yield_deed};
ghost use Rattle.cy_table.specs.Plays.{tick_deed, close_deed, stop_deed, check_deed, look_deed};
ghost use Rattle.cy_table.specs.Plays.{clear_deed, ready_deed, spend_deed, fill_deed, fetch_deed};
ghost use Rattle.cy_table.specs.Plays.{tape_deed, send_deed};
ghost use Rattle.cy_table.specs.Sights.{counted, sight_for, staying, leaving, uniting, no_sight};

use crate::part::Part;
use crate::view::View;
use atomic_table::{Join, Play, Split, TableRule};
use std::snapshot::Snapshot;
use wake_core::World;

// The rule, for the world that the table is made of.
pub struct Flags;

impl TableRule<Part, View, Snapshot<World>> for Flags {
    ghost holds = { λ key. rule_for key.value };

    ghost first = { λ key. sight_for key.value };
}

// The swap of a hold word.
pub struct Acquire;

impl Play<Part, View> for Acquire {
    ghost then = { counted acquired acquire_deed };
}

// The store of a hold word.
pub struct Release;

impl Play<Part, View> for Release {
    ghost then = { counted released release_deed };
}

// The store of a state before a fetch.
pub struct Ask;

impl Play<Part, View> for Ask {
    ghost then = { counted asked ask_deed };
}

// The store of what the croutine in hand is to do next.
pub struct Yield;

impl Play<Part, View> for Yield {
    ghost then = { counted yielded yield_deed };
}

// The load of the clock.
pub struct See;

impl Play<Part, View> for See {
    ghost then = { counted saw no_deed };
}

// The player's store of the clock.
pub struct Tick;

impl Play<Part, View> for Tick {
    ghost then = { counted ticked tick_deed };
}

// The load of the word that says whether the run is closing.
pub struct Heed;

impl Play<Part, View> for Heed {
    ghost then = { counted heeded no_deed };
}

// The player's store of that word.
pub struct Close;

impl Play<Part, View> for Close {
    ghost then = { counted closed close_deed };
}

// The load of the stop word.
pub struct Check;

impl Play<Part, View> for Check {
    ghost then = { counted checked check_deed };
}

// The player's store of that word.
pub struct Raise;

impl Play<Part, View> for Raise {
    ghost then = { counted stopped stop_deed };
}

// The load of a state by who filled the component's visitor.
pub struct Look;

impl Play<Part, View> for Look {
    ghost then = { counted looked look_deed };
}

// The store of a flag.
pub struct Clear;

impl Play<Part, View> for Clear {
    ghost then = { counted cleared clear_deed };
}

// A seat is split off the player's.
pub struct Off;

impl Split<View> for Off {
    ghost left = { staying };

    ghost right = { leaving };
}

// A seat is joined into the player's.
pub struct Into;

impl Join<View> for Into {
    ghost both = { uniting };

    ghost spent = { no_sight };
}

// The store of READY.
pub struct Ready;

impl Play<Part, View> for Ready {
    ghost then = { counted readied ready_deed };
}

// The swap of a flag.
pub struct Spend;

impl Play<Part, View> for Spend {
    ghost then = { counted spent spend_deed };
}

// The swap of a visitor's door.
pub struct Visit;

impl Play<Part, View> for Visit {
    ghost then = { counted visited no_deed };
}

// The store of a visitor's door after a fill.
pub struct Fill;

impl Play<Part, View> for Fill {
    ghost then = { counted filled fill_deed };
}

// The store of a visitor's door after a fetch.
pub struct Find;

impl Play<Part, View> for Find {
    ghost then = { counted fetched fetch_deed };
}

// The swap of the tape's door.
pub struct Enter;

impl Play<Part, View> for Enter {
    ghost then = { counted entered no_deed };
}

// The player's store of the tape's door.
pub struct Played;

impl Play<Part, View> for Played {
    ghost then = { counted taped tape_deed };
}

// A holder's store of the tape's door.
pub struct Output;

impl Play<Part, View> for Output {
    ghost then = { counted sent send_deed };
}
