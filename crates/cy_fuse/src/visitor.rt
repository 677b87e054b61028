// What arrives at a component, and the tuples that it makes.
ghost use Rattle.std.specs.Prelude.{◌≡◌, ◌≤◌, ◌<◌, ◌-◌, ◌↔◌, ◌++◌, ◌∷◌, [], IfOk};
ghost use Rattle.std.specs.Prelude.{IsNone, is_some, Some, vec_capacity, length, map};
ghost use Rattle.std.specs.Prelude.{option_map};
ghost use Rattle.cy_msg.specs.declared.token.Tuple.TheVariants.{One};
ghost use Rattle.cy_fuse.specs.Fusion.{Arrival};
ghost use Rattle.cy_fuse.specs.Visitor.{prepared, arrived, visited, position_at, index_after};

use crate::came::Came;
use crate::tuples::{MOST_ROLES, TupleBuffer};
use crate::{Arrived, Cursor, FuseError, Overflow, fetch_at};
use cy_msg::{Token, Tuple};
use std::alloc::Global;
use std::marker::Model;

/// The arrivals at a component, and the last tuples that they make. Contracts see it as a
/// `VisitorView`: how many tuples it keeps, how many readers it has, where a fetch goes on whose
/// tuple isn't kept any more, for how many more arrivals it has room, and all that arrived. Of most
/// arrivals it keeps the number of the reader alone.
#[derive(Drop)]
pub struct Visitor {
    overflow: Overflow,
    spare: u32,
    // The reader of each arrival.
    readers: Vec<u8>,
    came: Came,
    // The last message of each reader but the first.
    last: [Option<Token>; MOST_ROLES],
    tuples: TupleBuffer,
}

impl Model for Visitor {
    ghost use Rattle.std.specs.Prelude.{vec_capacity};
    ghost use Rattle.cy_fuse.specs.Visitor.{VisitorView};

    ghost Value = { VisitorView };

    ghost use Rattle.cy_fuse.specs.private.Visiting.{IsVisitor};

    ghost view = { λ v. record {
      queue = v.tuples.cache.size;
      roles = v.tuples.roles;
      overflow = v.overflow;
      spare = v.spare;
      arrivals = v.came.list;
    } };

    ghost invariant = { λ v. IsVisitor v.tuples.roles v.spare (vec_capacity v.readers)
        v.readers.items v.came.list v.last v.tuples.cache };
}

impl Visitor {
    /// A visitor of a component with so many readers, which keeps so many tuples; `overflow` says
    /// where a fetch goes on whose tuple isn't kept any more. It takes the memory for so many
    /// arrivals; its only error is `Memory`.
    pub fn prepare(
        alloc: Global,
        queue: u32,
        roles: u8,
        overflow: Overflow,
        spare: u32,
    ) -> Result<Self, FuseError>
        requires queue { 1 ≤ queue }
        requires roles { (1 ≤ roles) × (roles ≤ 4) }
        ensures { IfOk result (λ v. v ≡ prepared queue roles overflow spare) }
    {
        Ok(Visitor {
            overflow,
            spare,
            readers: Vec::with_capacity(alloc, spare as usize)?,
            came: Came::nothing(),
            last: [None; MOST_ROLES],
            tuples: TupleBuffer::with_size(alloc, roles, queue)?,
        })
    }

    /// For how many more arrivals there is room.
    pub fn spare(&self) -> u32
        ensures { result ≡ self.now.spare }
    {
        self.spare
    }

    /// How many messages arrived.
    pub fn arrival_count(&self) -> usize
        ensures { result ≡ length self.now.arrivals }
    {
        self.readers.len()
    }

    /// The number of the reader that each message came to, in order.
    pub fn arrival_roles(&self) -> &[u8]
        ensures { result.now ≡ map (λ (a : Arrival). a.0) self.now.arrivals }
    {
        self.readers.as_slice()
    }

    /// A message comes to a reader. One of the first reader is joined with the last message of each
    /// other one.
    pub fn arrive(&mut self, role: u8, token: Token)
        requires role { role < self.old.roles }
        requires room { 1 ≤ self.old.spare }
        ensures { self.new ≡ arrived self.old role token }
    {
        self.readers.push_reserved(role);
        self.came = self.came.then(&Arrived::new(role, token));
        self.spare -= 1;
        if role == 0 {
            self.tuples.join(token, &self.last);
        } else {
            self.last[role as usize] = Some(token);
        }
    }

    /// Fetches a tuple by the fetch rule: the tuple, its position from 1, and how many tuples there
    /// are. The cursor is then behind it; where nothing is found it stays.
    #[inline(always)]
    pub fn try_fetch(&self, cursor: &mut Cursor) -> Option<(Tuple, u64, u64)>
        ensures found { result ≡ visited cursor.old self.now }
        ensures next { cursor.new ≡ index_after cursor.old result }
        ensures none { IsNone result ↔ IsNone (position_at cursor.old self.now) }
    {
        let (tuple, position) = self.tuples.fetch(cursor, self.overflow)?;
        Some((tuple, position, self.tuples.tail()))
    }

    /// The same at a component of one reader, of which each tuple is one message: that message, its
    /// position, and how many there are. A tuple has room for four, which cost time to copy.
    #[inline(always)]
    pub fn try_fetch_one(&self, cursor: &mut Cursor) -> Option<(Token, u64, u64)>
        requires { self.now.roles ≡ 1 }
        ensures found { option_map (λ x. (One x.0, x.1, x.2)) result
            ≡ visited cursor.old self.now }
        ensures next { cursor.new ≡ index_after cursor.old (visited cursor.old self.now) }
    {
        let (only, position) = self.tuples.fetch_one(cursor, self.overflow)?;
        Some((only, position, self.tuples.tail()))
    }

    /// How many readers the component has.
    pub fn roles(&self) -> u8
        ensures { result ≡ self.now.roles }
    {
        self.tuples.roles()
    }

    /// Whether a fetch finds anything, without the fetch.
    pub fn finds(&self, cursor: Cursor) -> bool
        ensures { result ≡ is_some (position_at cursor self.now) }
    {
        let (tail, queue) = (self.tuples.tail(), self.tuples.size());
        fetch_at(cursor.next(), tail, queue, self.overflow).is_some()
    }
}
