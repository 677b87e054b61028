// The table, whose calls are the events of a run.
ghost use Rattle.std.specs.Prelude.{◌≡◌, ◌<◌, ◌^◌, length};
ghost use Rattle.wake_core.specs.WorldOf.{plain_of, routes_in, counts_in, stop_in};
ghost use Rattle.cy_table.specs.Layout.{words_for, slots_for, stop_word as stop_word_for};
ghost use Rattle.cy_table.specs.Layout.{stop_number as stop_number_for};

use crate::part::Part;
use crate::rule::Flags;
use crate::view::View;
use atomic_table::Table;
use cy_msg::Stop;
use std::alloc::Global;
use std::snapshot::Snapshot;
use wake_core::{Fixed, World};

mod bench;
mod ends;
mod hold;
mod tape;
mod update;
mod visits;
mod words;

/// The world of a run as words and slots, which many threads change at once, each with a pass of
/// its own. Contracts see the world that it was made of by `made_of`.
#[derive(Drop)]
pub struct FlagTable {
    table: Table<Part, View, Snapshot<World>, Flags, Global>,
    fixed: Fixed,
    ghost words: { table.shared.table_id.words
        ≡ words_for (length (plain_of table.shared.key.value).routes) },
    ghost slots: { table.shared.table_id.slots
        ≡ slots_for (length (plain_of table.shared.key.value).routes) },
    ghost made: { routes_in fixed ≡ (plain_of table.shared.key.value).routes },
    ghost counted: { counts_in fixed ≡ (plain_of table.shared.key.value).counts },
    ghost given: { stop_in fixed ≡ (plain_of table.shared.key.value).stop },
}

impl FlagTable {
    ghost use Rattle.std.specs.Prelude.{◌≡◌, length};
    ghost use Rattle.cy_table.specs.Layout.{stop_word as stop_word_for};
    ghost use Rattle.cy_table.specs.Calls.{made_of};

    // The place of the stop's word, the last one.
    fn stop_word(&self) -> usize
        ensures { result ≡ stop_word_for (length (made_of self.now).routes) }
    {
        self.table.word_count() - 1
    }
}

// The stop in its word: 0 until it is raised.
fn stop_number(stop: Option<Stop>, raised: bool) -> u64
    ensures { result ≡ stop_number_for stop raised }
{
    match stop {
        Some(stop) if raised => u64::from(stop.component) + 1,
        None if raised => 65,
        _ => 0,
    }
}
