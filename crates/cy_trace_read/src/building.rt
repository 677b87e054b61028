// A trace while its lines are read.
ghost use Rattle.std.specs.Prelude.{◌≡◌, ◌≤◌, ◌<◌, ◌+◌, ◌++◌, ◌∷◌, [], Some, option_map, length};
ghost use Rattle.cy_trace_read.specs.LineReading.{Gives};
ghost use Rattle.cy_trace_read.specs.LineOrder.{finish, next, after_line, overflow_by, trace_with};
ghost use Rattle.cy_trace_read.specs.LineOrder.{with_components};
ghost use Rattle.cy_trace_read.specs.declared.building.Building.TheVariants as building;
ghost use Rattle.cy_trace_read.specs.private.ReadingOn.{HasRoom, ReadsOn};

use crate::fault::Fault;
use crate::line::line_of;
use cy_fuse::Overflow;
use cy_msg::{Items, Text};
use cy_trace::{Calls, Line, Tape, TapeEntry, Trace, TraceCall, TraceComponent, take_calls};
use std::alloc::{AllocError, Global};

/// What the lines before a component or the tape say.
#[derive(Drop)]
pub(crate) struct Prefix {
    pub(crate) version: u32,
    pub(crate) played: u32,
    pub(crate) shadowed: u32,
    pub(crate) components: Items<TraceComponent>,
}

/// The lines of a trace so far, by what the last one was.
#[derive(Drop)]
pub(crate) enum Building {
    /// None.
    Start,
    /// The title, with the version of the form.
    Titled(u32),
    /// The counts, or the end of a component.
    Between(Prefix),
    /// The name of a component.
    Named(Prefix, Text, Overflow),
    /// The roles or a call of a component.
    Called(Prefix, Text, Overflow, Items<u8>, Calls),
    /// A message of the tape.
    Taped(Prefix, Tape),
}

/// A trace whose lines are read: those so far, what is left of the text, and the number of the next
/// line, from 1.
#[derive(Drop)]
pub(crate) struct Reading<'a> {
    pub(crate) building: Building,
    pub(crate) rest: &'a [u8],
    pub(crate) line: u32,
}

// The items with one more.
fn with<T: Drop>(items: Items<T>, item: T) -> Result<Items<T>, Fault>
    ensures { Gives result (Some (items ++ item ∷ [])) }
{
    let mut items = items.into_vec();
    items.push(item)?;
    Ok(Items::new(items))
}

// No items.
fn none<T>(alloc: Global) -> Items<T>
    ensures { result ≡ [] }
{
    Items::new(Vec::new(alloc))
}

// No calls, with room for one for each of these arrivals that may trigger it, as far as there is
// memory.
fn room_for_calls(alloc: Global, roles: &[u8]) -> Calls
    ensures { result ≡ [] }
{
    let most = roles.iter().filter(|role| **role == 0).count();
    Calls::with_room(alloc, most)
}

// The most messages that a tape has behind these components, of which each call puts out one at
// most.
fn most_taped(played: u32, components: &[TraceComponent]) -> usize {
    let mut most = played as usize;
    for component in components {
        most = most.saturating_add(component.calls.count());
    }
    most
}

impl Prefix {
    // The same with one more component.
    fn with(self, component: TraceComponent) -> Result<Prefix, Fault>
        ensures { Gives result (Some (with_components self (component ∷ []))) }
    {
        let Prefix {
            version,
            played,
            shadowed,
            components,
        } = self;
        let components = with(components, component)?;
        Ok(Prefix {
            version,
            played,
            shadowed,
            components,
        })
    }

    // The lines with one more message of the tape.
    fn taped(self, alloc: Global, tape: Tape, entry: TapeEntry) -> Result<Building, Fault>
        requires { length tape < 4294967295 }
        ensures { Gives result (Some (building.Taped self (tape ++ entry ∷ []))) }
    {
        match tape.with(alloc, entry) {
            Ok(tape) => Ok(Building::Taped(self, tape)),
            Err(AllocError) => {
                drop(self);
                Err(Fault::Memory)
            }
        }
    }

    // The lines with one more call of a component.
    fn called(
        self,
        name: Text,
        overflow: Overflow,
        roles: Items<u8>,
        calls: Calls,
        call: TraceCall,
    ) -> Result<Building, Fault>
        ensures { Gives result (Some
            (building.Called self name overflow roles (calls ++ call ∷ []))) }
    {
        match calls.with(call) {
            Ok(calls) => Ok(Building::Called(self, name, overflow, roles, calls)),
            Err(AllocError) => {
                drop(roles);
                drop(name);
                drop(self);
                Err(Fault::Memory)
            }
        }
    }

    // The lines with the name of one more component, of which this is told.
    fn named(self, name: Text, told: Option<Overflow>) -> Result<Building, Fault>
        ensures { Gives result (option_map (λ overflow. building.Named self name overflow)
            (overflow_by self.version told)) }
    {
        match overflow_by(self.version, told) {
            Some(overflow) => Ok(Building::Named(self, name, overflow)),
            None => {
                drop(name);
                drop(self);
                Err(Fault::Bad)
            }
        }
    }

    // The trace with this tape.
    fn finish(self, tape: Tape) -> Trace
        ensures { result ≡ trace_with self tape }
    {
        let Prefix {
            version,
            played,
            shadowed,
            components,
        } = self;
        Trace {
            version,
            played,
            shadowed,
            components,
            tape,
        }
    }
}

// The overflow of a component of whose line this is told, in a text of a version.
fn overflow_by(version: u32, told: Option<Overflow>) -> Option<Overflow>
    ensures { result ≡ overflow_by version told }
{
    match told {
        None if version == 1 => Some(Overflow::Newest),
        Some(overflow) if version != 1 => Some(overflow),
        _ => None,
    }
}

// What a line is behind each of those before it. Where it may not come next, all is given back by
// calls: at the end of a scope each part would be taken on its own.

#[tactic(auto, unfolding(crate::specs::LineOrder::after_line))]
fn behind_none(line: Line) -> Result<Building, Fault>
    ensures { Gives result (after_line building.Start line) }
{
    match line {
        Line::Title(version) => Ok(Building::Titled(version)),
        line => {
            drop(line);
            Err(Fault::Bad)
        }
    }
}

#[tactic(auto, unfolding(crate::specs::LineOrder::after_line))]
fn behind_title(alloc: Global, version: u32, line: Line) -> Result<Building, Fault>
    ensures { Gives result (after_line (building.Titled version) line) }
{
    match line {
        Line::Played(played, shadowed) => Ok(Building::Between(Prefix {
            version,
            played,
            shadowed,
            components: none(alloc),
        })),
        line => {
            drop(line);
            Err(Fault::Bad)
        }
    }
}

#[tactic(auto, unfolding(crate::specs::LineOrder::after_line))]
fn behind_component(alloc: Global, prefix: Prefix, line: Line) -> Result<Building, Fault>
    ensures { Gives result (after_line (building.Between prefix) line) }
{
    match line {
        Line::Component(name, told) => prefix.named(name, told),
        Line::Tape(entry) => {
            let most = most_taped(prefix.played, prefix.components.as_slice());
            prefix.taped(alloc, Tape::with_room(alloc, most), entry)
        }
        line => {
            drop(prefix);
            drop(line);
            Err(Fault::Bad)
        }
    }
}

#[tactic(auto, unfolding(crate::specs::LineOrder::after_line))]
fn behind_name(
    alloc: Global,
    prefix: Prefix,
    name: Text,
    overflow: Overflow,
    line: Line,
) -> Result<Building, Fault>
    ensures { Gives result (after_line (building.Named prefix name overflow) line) }
{
    match line {
        Line::Roles(roles) => {
            let calls = room_for_calls(alloc, roles.as_slice());
            Ok(Building::Called(prefix, name, overflow, roles, calls))
        }
        line => {
            drop(prefix);
            drop(name);
            drop(line);
            Err(Fault::Bad)
        }
    }
}

#[tactic(auto, unfolding(crate::specs::LineOrder::after_line))]
fn behind_call(
    prefix: Prefix,
    name: Text,
    overflow: Overflow,
    roles: Items<u8>,
    calls: Calls,
    line: Line,
) -> Result<Building, Fault>
    ensures { Gives result (after_line (building.Called prefix name overflow roles calls) line) }
{
    match line {
        Line::Call(call) => prefix.called(name, overflow, roles, calls, call),
        Line::End(finished, next) => {
            let component = TraceComponent {
                name,
                overflow,
                roles,
                calls,
                finished,
                next,
            };
            Ok(Building::Between(prefix.with(component)?))
        }
        line => {
            drop(prefix);
            drop(name);
            drop(roles);
            drop(calls);
            drop(line);
            Err(Fault::Bad)
        }
    }
}

#[tactic(auto, unfolding(crate::specs::LineOrder::after_line))]
fn behind_message(alloc: Global, prefix: Prefix, tape: Tape, line: Line) -> Result<Building, Fault>
    requires { length tape < 4294967295 }
    ensures { Gives result (after_line (building.Taped prefix tape) line) }
{
    match line {
        Line::Tape(entry) => prefix.taped(alloc, tape, entry),
        line => {
            drop(prefix);
            drop(tape);
            drop(line);
            Err(Fault::Bad)
        }
    }
}

impl Building {
    // The same with one more line, where it may come next.
    fn after_line(self, alloc: Global, line: Line) -> Result<Building, Fault>
        requires { HasRoom self }
        ensures { Gives result (after_line self line) }
    {
        match self {
            Building::Start => behind_none(line),
            Building::Titled(version) => behind_title(alloc, version, line),
            Building::Between(prefix) => behind_component(alloc, prefix, line),
            Building::Named(prefix, name, overflow) => {
                behind_name(alloc, prefix, name, overflow, line)
            }
            Building::Called(prefix, name, overflow, roles, calls) => {
                behind_call(prefix, name, overflow, roles, calls, line)
            }
            Building::Taped(prefix, tape) => behind_message(alloc, prefix, tape, line),
        }
    }

    /// The same with one more line, of which these are the bytes.
    #[tactic(auto, unfolding(crate::specs::LineOrder::next))]
    pub(crate) fn next(self, alloc: Global, bytes: &[u8]) -> Result<Building, Fault>
        requires { HasRoom self }
        ensures { Gives result (next self bytes.now) }
    {
        match line_of(alloc, bytes) {
            Ok(line) => self.after_line(alloc, line),
            Err(fault) => {
                drop(self);
                Err(fault)
            }
        }
    }

    /// Reads on where the next lines are calls or messages of the tape, as most lines of a trace
    /// are: those that are found so are taken as they stand.
    pub(crate) fn read_on<'a>(self, bytes: &'a [u8], line: u32) -> Reading<'a>
        requires { line + length bytes.now ≤ 4294967295 }
        ensures { ReadsOn self bytes.now line result.building result.rest.now result.line }
    {
        match self {
            Building::Called(prefix, name, overflow, roles, mut calls) => {
                let (rest, line) = take_calls(&mut calls, bytes, line);
                let building = Building::Called(prefix, name, overflow, roles, calls);
                Reading {
                    building,
                    rest,
                    line,
                }
            }
            Building::Taped(prefix, mut tape) => {
                let (rest, line) = tape.take_lines(bytes, line);
                let building = Building::Taped(prefix, tape);
                Reading {
                    building,
                    rest,
                    line,
                }
            }
            building => Reading {
                building,
                rest: bytes,
                line,
            },
        }
    }

    /// The trace, where its last line may have been read.
    #[tactic(auto, unfolding(crate::specs::LineOrder::finish))]
    pub(crate) fn finish(self, alloc: Global) -> Option<Trace>
        ensures { result ≡ finish self }
    {
        match self {
            Building::Between(prefix) => Some(prefix.finish(Tape::new(alloc))),
            Building::Taped(prefix, tape) => Some(prefix.finish(tape)),
            building => {
                drop(building);
                None
            }
        }
    }
}
