// Threads come to the table and leave it.
use crate::laws;
use crate::pass::{Pass, TableError};
use crate::rule::{Into, Off};
use crate::table::FlagTable;

impl FlagTable {
    ghost use Rattle.std.specs.Prelude.{◌≡◌, [], IfOk, IfErr};
    ghost use Rattle.cy_table.specs.Steps.{splitting, split_off, joining};
    ghost use Rattle.cy_table.specs.Calls.{seat_of, thread_of, knowing, IsAt, Stays, NotedSince};
    ghost use Rattle.cy_table.specs.Calls.{CanSplit};
    ghost use Rattle.cy_table.specs.Calls.{CanJoin, sight_of};
    ghost use Rattle.cy_table.specs.Sights.{leaving, uniting};

    /// A pass for one thread more, split off the player's. It has nothing in hand, owes nothing and
    /// has seen no calls. Its only error is `Memory`, and then the player's pass is as it was.
    pub fn split(&self, pass: &mut Pass) -> Result<Pass, TableError>
        requires { CanSplit self.now pass.old }
        ensures same { Stays self.now pass.old pass.new }
        ensures noted { NotedSince [] pass.old pass.new }
        ensures split { IfOk result (λ q. IsAt self.now q
            × (thread_of q ≡ (split_off (seat_of pass.old), []))
            × (thread_of pass.new ≡ knowing pass.old (splitting (seat_of pass.old)))) }
        ensures apart { IfOk result (λ q. sight_of q ≡ leaving (sight_of pass.old)) }
        ensures refused { IfErr result (λ _. thread_of pass.new ≡ thread_of pass.old) }
    {
        laws::bench_steps();
        let shared = &self.table.shared;
        let seat = shared.split_seat::<Off>(&mut pass.seat);
        pass.split_off += 1;
        Ok(Pass { seat, split_off: 0 })
    }

    /// Takes a pass in that was split off, with the calls that it has seen. What it noted is handed
    /// on to the player's pass, with its numbers and in its order, as a note of its own. What the
    /// player notes then is behind the last step of both.
    pub fn join(&self, pass: &mut Pass, other: Pass)
        requires { CanJoin self.now pass.old other }
        ensures same { Stays self.now pass.old pass.new }
        ensures thread { thread_of pass.new
            ≡ knowing pass.old (joining (seat_of pass.old) (seat_of other)) }
        ensures handed { sight_of pass.new ≡ uniting (sight_of pass.old) (sight_of other) }
    {
        laws::bench_steps();
        let Pass { seat, split_off: _ } = other;
        pass.split_off = pass.split_off.saturating_sub(1);
        let shared = &self.table.shared;
        shared.join_seat::<Into>(&mut pass.seat, seat);
    }
}
