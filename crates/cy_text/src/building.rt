// The messages that are open, with their fields so far.
ghost use Rattle.std.specs.Prelude.{◌≡◌, ◌∷◌, Ok};
ghost use Rattle.cy_text.specs.Entries.{held_of};
ghost use Rattle.cy_text.specs.Form.{after_item, after_colon, after_name, after_sign, after_string};
ghost use Rattle.cy_text.specs.Form.{after_value, all_closed, at_field, at_first_item, at_item};
ghost use Rattle.cy_text.specs.Form.{at_message, at_value, begun, closed, ends_value, finish};
ghost use Rattle.cy_text.specs.Form.{items_of, opened, placed, same_bracket, after_token, start_of};
ghost use Rattle.cy_msg.specs.Answer.{AnswersFault};
ghost use Rattle.cy_text.specs.Fault.{fault_in};
ghost use Rattle.cy_text.specs.Views.{view_building, view_reading};
ghost use Rattle.cy_text.specs.declared.fault.Failure.TheVariants as failures;
ghost use Rattle.cy_text.specs.declared.fault.Fault.TheVariants as faults;

use crate::expected::{Expected, Frame, Place, Slot};
use crate::fault::{Failure, Fault};
use crate::token::Bracket;
use crate::{BadKind, Entry, Span, Tree, Value};
use cy_msg::Text;
use std::alloc::Global;

// How many messages a message may stand in.
const MOST_OPEN: usize = 64;

/// The messages that are open, the outermost first, and the fields of the innermost so far.
#[derive(Drop)]
pub(crate) struct Building {
    pub(crate) frames: Vec<Frame>,
    pub(crate) fields: Tree,
}

/// What is read, and what may stand next.
#[derive(Drop)]
pub(crate) struct Reading {
    pub(crate) building: Building,
    pub(crate) next: Expected,
}

/// A fault as an answer.
pub(crate) fn bad(kind: BadKind, at: u32) -> Failure
    ensures { result ≡ failures.Fault (faults.Bad kind at) }
{
    Failure::Fault(Fault::Bad(kind, at))
}

// Whether two brackets are of one kind.
fn same_bracket(one: Bracket, other: Bracket) -> bool
    ensures { result ≡ same_bracket one other }
{
    match (one, other) {
        (Bracket::Brace, Bracket::Brace) => true,
        (Bracket::Brace, Bracket::Angle) => false,
        (Bracket::Angle, Bracket::Brace) => false,
        (Bracket::Angle, Bracket::Angle) => true,
    }
}

impl Slot {
    /// The slot of a value whose first token stands at `at`.
    pub(crate) fn begun(self, at: u32) -> Slot
        ensures { result ≡ begun self at }
    {
        let Slot { name, start, place } = self;
        let start = match place {
            Place::Field => start,
            Place::Item | Place::MessageItem => at,
        };
        Slot { name, start, place }
    }

    /// The slot of a list's items.
    pub(crate) fn items(self, place: Place) -> Slot
        ensures { result ≡ items_of self place }
    {
        let Slot {
            name,
            start,
            place: _,
        } = self;
        Slot { name, start, place }
    }
}

impl Building {
    /// Adds a value to the innermost message. What may stand next is what may stand behind it.
    #[tactic(auto, unfolding(crate::specs::Form::placed))]
    pub(crate) fn placed(
        self,
        alloc: Global,
        slot: Slot,
        end: u32,
        value: Value,
    ) -> Result<Reading, Failure>
        ensures { AnswersFault fault_in view_reading result
            (Ok (placed (view_building self) slot end (held_of value))) }
    {
        let Building { frames, mut fields } = self;
        let span = Span {
            start: slot.start,
            end,
        };
        let (name, next) = match slot.place {
            Place::Field => {
                let Slot { name, .. } = slot;
                (name, Expected::Field(true))
            }
            Place::Item | Place::MessageItem => {
                let name = Text::new(alloc, slot.name.as_str())?;
                (name, Expected::AfterItem(slot))
            }
        };
        fields.push(Entry { name, span, value })?;
        let building = Building { frames, fields };
        Ok(Reading { building, next })
    }

    /// Begins a message, whose bracket stands at `at`.
    #[tactic(auto, unfolding(crate::specs::Form::opened))]
    pub(crate) fn opened(
        self,
        alloc: Global,
        slot: Slot,
        bracket: Bracket,
        at: u32,
    ) -> Result<Reading, Failure>
        ensures { AnswersFault fault_in view_reading result
            (opened (view_building self) slot bracket at) }
    {
        let Building { mut frames, fields } = self;
        if frames.len() >= MOST_OPEN {
            return Err(Failure::Fault(Fault::TooDeep(at)));
        }
        frames.push(Frame {
            fields,
            slot,
            bracket,
        })?;
        Ok(Reading {
            building: Building {
                frames,
                fields: Tree::new(alloc),
            },
            next: Expected::Field(false),
        })
    }

    /// Ends the innermost message by a bracket that stands at `span`.
    #[tactic(auto, unfolding(crate::specs::Form::closed))]
    pub(crate) fn closed(
        self,
        alloc: Global,
        bracket: Bracket,
        span: Span,
    ) -> Result<Reading, Failure>
        ensures { AnswersFault fault_in view_reading result
            (closed (view_building self) bracket span.start span.end) }
    {
        let Building { mut frames, fields } = self;
        let Some(frame) = frames.pop() else {
            return Err(bad(BadKind::Close, span.start));
        };
        if !same_bracket(frame.bracket, bracket) {
            return Err(bad(BadKind::Close, span.start));
        }
        let Frame {
            fields: outer,
            slot,
            ..
        } = frame;
        let building = Building {
            frames,
            fields: outer,
        };
        building.placed(alloc, slot, span.end, Value::Message(fields))
    }
}
