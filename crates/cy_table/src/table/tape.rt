// Behind the door of the tape.
use crate::hold::Hold;
use crate::laws;
use crate::part::{Part, Tape};
use crate::pass::Pass;
use crate::rule::{Enter, Output, Played};
use crate::table::FlagTable;
use crossbeam_utils::Backoff;
use cy_msg::Token;
use std::sync::Wait;

impl FlagTable {
    ghost use Rattle.std.specs.Prelude.{◌≡◌, ◌∷◌, [], IfSome, IfNone};
    ghost use Rattle.cy_table.specs.Deeds as deed;
    ghost use Rattle.cy_table.specs.Steps.{taping, phase_sent};
    ghost use Rattle.cy_table.specs.Plays.{in_hand};
    ghost use Rattle.cy_table.specs.Calls.{seat_of, thread_of, knowing, Stays, NotedSince, CanTape};
    ghost use Rattle.cy_table.specs.Calls.{CanSend, component_of};
    ghost use Rattle.cy_table.specs.Calls.{Sent, CanEnter, Entered};

    /// The player puts a message onto the tape, the next one of its channel, and owes it to the
    /// readers of that channel. It may wait until no other thread is behind the door.
    pub fn tape<R: Wait>(&self, rt: &R, pass: &mut Pass, token: Token)
        requires { CanTape self.now pass.old token }
        ensures same { Stays self.now pass.old pass.new }
        ensures noted { NotedSince (deed.Tape token ∷ []) pass.old pass.new }
        ensures thread { thread_of pass.new ≡ knowing pass.old (taping (seat_of pass.old) token) }
    {
        laws::tape_stores();
        let mut tape = self.enter_at_last(rt, pass);
        tape.put(token);
        let shared = &self.table.shared;
        let left = shared.exchange(&mut pass.seat, 0, Part::Tape(tape));
        let Part::Away = left else { unreachable!() };
        shared.store::<Played>(&mut pass.seat, 3, 0);
    }

    /// Puts the output of the croutine in hand onto the tape, the one that `Hold::token` shows, and
    /// owes it to the readers of its channel. It may wait until no other thread is behind the door.
    pub fn send<R: Wait>(&self, rt: &R, pass: &mut Pass, hold: &mut Hold) -> Token
        requires { CanSend self.now pass.old hold.old }
        ensures same { Stays self.now pass.old pass.new }
        ensures noted { NotedSince (deed.Send (component_of hold.old)
            (phase_sent (in_hand (seat_of pass.old)).phase) result ∷ []) pass.old pass.new }
        ensures sent { Sent self.now pass.old hold.old result pass.new hold.new }
    {
        laws::tape_stores();
        let Some(token) = hold.token() else {
            unreachable!()
        };
        hold.routine.sent();
        let mut tape = self.enter_at_last(rt, pass);
        tape.put(token);
        let shared = &self.table.shared;
        let left = shared.exchange(&mut pass.seat, 0, Part::Tape(tape));
        let Part::Away = left else { unreachable!() };
        shared.store::<Output>(&mut pass.seat, 3, 0);
        token
    }

    // Takes the tape for a message, by swaps of its door until one finds it open.
    fn enter_at_last<R: Wait>(&self, rt: &R, pass: &mut Pass) -> Tape
        requires { CanEnter self.now pass.old }
        ensures same { Stays self.now pass.old pass.new }
        ensures noted { NotedSince [] pass.old pass.new }
        ensures entered { Entered pass.old result pass.new }
    {
        let backoff = Backoff::new();
        for _ in rt.forever() {
            if let Some(tape) = self.enter(pass) {
                return tape;
            }
            backoff.snooze();
        }
        unreachable!()
    }

    // Takes the tape, by one swap of its door, where no other thread is behind it.
    fn enter(&self, pass: &mut Pass) -> Option<Tape>
        requires { CanEnter self.now pass.old }
        ensures same { Stays self.now pass.old pass.new }
        ensures noted { NotedSince [] pass.old pass.new }
        ensures entered { IfSome result (λ x. Entered pass.old x pass.new) }
        ensures shut { IfNone result (thread_of pass.new ≡ thread_of pass.old) }
    {
        laws::tape_door_swaps();
        laws::rooms_left();
        let shared = &self.table.shared;
        let found = shared.swap::<Enter>(&mut pass.seat, 3, 1);
        if found == 0 {
            let taken = shared.exchange(&mut pass.seat, 0, Part::Away);
            let Part::Tape(tape) = taken else {
                unreachable!()
            };
            Some(tape)
        } else {
            None
        }
    }
}
