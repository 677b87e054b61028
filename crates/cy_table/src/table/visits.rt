// Behind the door of a visitor.
ghost use Rattle.std.specs.Prelude.{◌≡◌, option_map};
ghost use Rattle.cy_table.specs.Hold.{as_found};

use crate::boxed_visitor::BoxedVisitor;
use crate::hold::{Found, Hold};
use crate::laws;
use crate::part::Part;
use crate::pass::Pass;
use crate::rule::{Fill, Find, Visit};
use crate::table::FlagTable;
use crossbeam_utils::Backoff;
use cy_msg::{Token, Tuple};
use std::sync::Wait;

impl FlagTable {
    ghost use Rattle.std.specs.Prelude.{ℕ, ◌≡◌, ◌≤◌, List, ◌∷◌, [], IfSome, IfNone};
    ghost use Rattle.cy_table.specs.Deeds as deed;
    ghost use Rattle.cy_table.specs.declared.part.Part.TheVariants as part;
    ghost use Rattle.cy_table.specs.Layout.{visitor_slot};
    ghost use Rattle.cy_table.specs.Steps.{visiting, filling};
    ghost use Rattle.cy_table.specs.Shown.{roles_at};
    ghost use Rattle.cy_table.specs.Plays.{later_fills};
    ghost use Rattle.cy_table.specs.Calls.{seat_of, thread_of, knowing, Stays, NotedSince};
    ghost use Rattle.cy_table.specs.Calls.{CanVisit, CanFill, component_of};
    ghost use Rattle.cy_table.specs.Calls.{Visiting, CanFetch, Fetched};

    /// A message comes to a reader of a component, the first of those that the pass owes it to. It
    /// may wait until no other thread is behind the door.
    pub fn fill<R: Wait>(&self, rt: &R, pass: &mut Pass, component: u32, role: u8, token: Token)
        requires { CanFill self.now pass.old component role token }
        ensures same { Stays self.now pass.old pass.new }
        ensures noted { NotedSince (deed.Fill component role ∷ []) pass.old pass.new }
        ensures thread { thread_of pass.new ≡ knowing pass.old (filling (seat_of pass.old)
            component role (later_fills (seat_of pass.old).fills)) }
    {
        laws::fill_stores();
        let c = component as usize;
        let mut visitor = self.visit_at_last(rt, pass, component);
        visitor.arrive(role, token);
        let shared = &self.table.shared;
        let left = shared.exchange(&mut pass.seat, 2 * c + 2, Part::Visitor(visitor));
        let Part::Away = left else { unreachable!() };
        shared.store::<Fill>(&mut pass.seat, 4 * c + 7, 0);
    }

    /// Fetches a tuple for the croutine in hand by the fetch rule, and calls its component on it;
    /// the component is then to be stepped on the tuple. `None` comes exactly where the rule finds
    /// nothing at the component's visitor while its door is held. It may wait until no other thread
    /// is behind the door.
    pub fn fetch<R: Wait>(&self, rt: &R, pass: &mut Pass, hold: &mut Hold) -> Option<Tuple>
        requires { CanFetch self.now pass.old hold.old }
        ensures same { Stays self.now pass.old pass.new }
        ensures noted { NotedSince (deed.Fetch (component_of hold.old) ∷ []) pass.old pass.new }
        ensures fetched { Fetched self.now pass.old hold.old result pass.new hold.new }
    {
        laws::fetch_stores();
        laws::rooms_left();
        let c = hold.component as usize;
        let visitor = self.visit_at_last(rt, pass, hold.component);
        let mut cursor = hold.routine.cursor();
        let found = visitor.try_fetch(&mut cursor);
        let shared = &self.table.shared;
        let left = shared.exchange(&mut pass.seat, 2 * c + 2, Part::Visitor(visitor));
        let Part::Away = left else { unreachable!() };
        shared.store::<Find>(&mut pass.seat, 4 * c + 7, 0);
        hold.found = kept(found);
        tuple_in(found)
    }

    // Takes a visitor, by swaps of its door until one finds it open.
    fn visit_at_last<R: Wait>(&self, rt: &R, pass: &mut Pass, component: u32) -> BoxedVisitor
        requires { CanVisit self.now pass.old component }
        ensures same { Stays self.now pass.old pass.new }
        ensures noted { NotedSince [] pass.old pass.new }
        ensures visiting { Visiting pass.old component result pass.new }
    {
        let backoff = Backoff::new();
        for _ in rt.forever() {
            if let Some(visitor) = self.visit(pass, component) {
                return visitor;
            }
            backoff.snooze();
        }
        unreachable!()
    }

    // Takes a visitor, by one swap of its door, where no other thread is behind it.
    fn visit(&self, pass: &mut Pass, component: u32) -> Option<BoxedVisitor>
        requires { CanVisit self.now pass.old component }
        ensures same { Stays self.now pass.old pass.new }
        ensures noted { NotedSince [] pass.old pass.new }
        ensures visiting { IfSome result (λ x. Visiting pass.old component x pass.new) }
        ensures shut { IfNone result (thread_of pass.new ≡ thread_of pass.old) }
    {
        laws::visitor_door_swaps();
        laws::rooms_left();
        let c = component as usize;
        let shared = &self.table.shared;
        let found = shared.swap::<Visit>(&mut pass.seat, 4 * c + 7, 1);
        if found == 0 {
            let taken = shared.exchange(&mut pass.seat, 2 * c + 2, Part::Away);
            let Part::Visitor(visitor) = taken else {
                unreachable!()
            };
            Some(visitor)
        } else {
            None
        }
    }
}

// What a fetch found, as it is kept until the component is stepped.
fn kept(found: Option<(Tuple, u64, u64)>) -> Option<Found>
    ensures { result ≡ option_map as_found found }
{
    let (tuple, position, tail) = found?;
    Some(Found {
        tuple,
        position,
        tail,
    })
}

// The tuple that a fetch found.
fn tuple_in(found: Option<(Tuple, u64, u64)>) -> Option<Tuple>
    ensures { result ≡ option_map (λ f. f.0) found }
{
    Some(found?.0)
}
