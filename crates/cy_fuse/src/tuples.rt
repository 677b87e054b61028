// The last tuples of a component, in little memory.
ghost use Rattle.std.specs.Prelude.{◌≡◌, ◌≤◌, ◌<◌, ◌-◌, ◌^◌, ◌↔◌, [], IfOk, IsNone};
ghost use Rattle.std.specs.Prelude.{option_map};
ghost use Rattle.cy_msg.specs.declared.token.Tuple.TheVariants.{One};
ghost use Rattle.cy_fuse.specs.Fetch.{fetch};
ghost use Rattle.cy_fuse.specs.Cache.{cache_of, fetched, next_index};
ghost use Rattle.cy_fuse.specs.private.Joining.{fills, joined_to, tuple_with};
ghost use Rattle.cy_fuse.specs.private.Holding.{pair_of, triple_of, quad_of};

use crate::{Arrived, CacheBuffer, Cursor, FuseError, Overflow};
use cy_msg::{Token, Tuple};
use std::alloc::Global;
use std::marker::Model;

// The most readers that a component has.
pub(crate) const MOST_ROLES: usize = 4;

// The messages of a tuple of two readers.
#[derive(Clone, Copy)]
pub(crate) struct Pair {
    first: Arrived,
    second: Arrived,
}

// Of three.
#[derive(Clone, Copy)]
pub(crate) struct Triple {
    first: Arrived,
    second: Arrived,
    third: Arrived,
}

// Of four.
#[derive(Clone, Copy)]
pub(crate) struct Quad {
    first: Arrived,
    second: Arrived,
    third: Arrived,
    fourth: Arrived,
}

// The tuples of a component of one, two, three or four readers.
#[derive(Drop)]
pub(crate) enum Kept {
    Ones(CacheBuffer<Arrived>),
    Pairs(CacheBuffer<Pair>),
    Triples(CacheBuffer<Triple>),
    Quads(CacheBuffer<Quad>),
}

// The last tuples of a component. Contracts see them as a `TuplesView`: how many readers the
// component has, and the buffer of its tuples.
#[derive(Drop)]
pub(crate) struct TupleBuffer {
    kept: Kept,
}

impl Model for TupleBuffer {
    ghost use Rattle.cy_fuse.specs.private.Joining.{TuplesView};

    ghost Value = { TuplesView };

    ghost use Rattle.cy_fuse.specs.private.Holding.{tuples_in};

    ghost view = { λ t. tuples_in t.kept };
}

impl TupleBuffer {
    // A buffer that keeps so many tuples of so many readers. Its only error is `Memory`.
    pub(crate) fn with_size(alloc: Global, roles: u8, size: u32) -> Result<Self, FuseError>
        requires roles { (1 ≤ roles) × (roles ≤ 4) }
        requires size { 1 ≤ size }
        ensures { IfOk result (λ t. t ≡ record { roles = roles; cache = cache_of size [] }) }
    {
        Ok(TupleBuffer {
            kept: match roles {
                1 => Kept::Ones(CacheBuffer::with_size(alloc, size)?),
                2 => Kept::Pairs(CacheBuffer::with_size(alloc, size)?),
                3 => Kept::Triples(CacheBuffer::with_size(alloc, size)?),
                _ => Kept::Quads(CacheBuffer::with_size(alloc, size)?),
            },
        })
    }

    // How many readers the component has.
    pub(crate) fn roles(&self) -> u8
        ensures { result ≡ self.now.roles }
    {
        match &self.kept {
            Kept::Ones(_) => 1,
            Kept::Pairs(_) => 2,
            Kept::Triples(_) => 3,
            Kept::Quads(_) => 4,
        }
    }

    // The number of the last tuple; 0 where there is none.
    pub(crate) fn tail(&self) -> u64
        ensures { result ≡ self.now.cache.tail }
    {
        match &self.kept {
            Kept::Ones(tuples) => tuples.tail(),
            Kept::Pairs(tuples) => tuples.tail(),
            Kept::Triples(tuples) => tuples.tail(),
            Kept::Quads(tuples) => tuples.tail(),
        }
    }

    // How many tuples it keeps.
    pub(crate) fn size(&self) -> u32
        ensures { result ≡ self.now.cache.size }
    {
        match &self.kept {
            Kept::Ones(tuples) => tuples.size(),
            Kept::Pairs(tuples) => tuples.size(),
            Kept::Triples(tuples) => tuples.size(),
            Kept::Quads(tuples) => tuples.size(),
        }
    }

    // Joins a message of the first reader with the last message of each other one, where each has
    // one.
    pub(crate) fn join(&mut self, first: Token, last: &[Option<Token>; MOST_ROLES])
        requires { self.old.cache.tail < 2 ^ 64 - 2 }
        ensures { self.new ≡ joined_to first last.now self.old }
    {
        match &mut self.kept {
            Kept::Ones(tuples) => tuples.fill(Arrived::new(0, first)),
            Kept::Pairs(tuples) => fill(tuples, pair_with(first, last)),
            Kept::Triples(tuples) => fill(tuples, triple_with(first, last)),
            Kept::Quads(tuples) => fill(tuples, quad_with(first, last)),
        }
    }

    // Fetches a tuple by the fetch rule, and its position. The cursor is then behind it; where
    // nothing is found it stays.
    #[tactic(auto, using(crate::proofs::Mapped::mapped_fetched))]
    #[inline(always)]
    pub(crate) fn fetch(&self, cursor: &mut Cursor, overflow: Overflow) -> Option<(Tuple, u64)>
        ensures found { result ≡ fetched cursor.old self.now.cache overflow }
        ensures next { cursor.new ≡ next_index cursor.old result }
        ensures none { IsNone result
            ↔ IsNone (fetch cursor.old self.now.cache.tail self.now.cache.size overflow) }
    {
        match &self.kept {
            Kept::Ones(tuples) => {
                let (one, position) = cursor.fetch(tuples, overflow)?;
                Some((Tuple::One(one.message()), position))
            }
            Kept::Pairs(tuples) => {
                let (pair, position) = cursor.fetch(tuples, overflow)?;
                Some((pair.tuple(), position))
            }
            Kept::Triples(tuples) => {
                let (triple, position) = cursor.fetch(tuples, overflow)?;
                Some((triple.tuple(), position))
            }
            Kept::Quads(tuples) => {
                let (quad, position) = cursor.fetch(tuples, overflow)?;
                Some((quad.tuple(), position))
            }
        }
    }

    // The same at a component of one reader: the message of the tuple, and its position.
    #[tactic(auto, using(crate::proofs::Mapped::mapped_fetched))]
    #[inline(always)]
    pub(crate) fn fetch_one(&self, cursor: &mut Cursor, overflow: Overflow) -> Option<(Token, u64)>
        requires { self.now.roles ≡ 1 }
        ensures found { option_map (λ x. (One x.0, x.1)) result
            ≡ fetched cursor.old self.now.cache overflow }
        ensures next { cursor.new
            ≡ next_index cursor.old (fetched cursor.old self.now.cache overflow) }
        ensures none { IsNone result
            ↔ IsNone (fetch cursor.old self.now.cache.tail self.now.cache.size overflow) }
    {
        match &self.kept {
            Kept::Ones(tuples) => {
                let (one, position) = cursor.fetch(tuples, overflow)?;
                Some((one.message(), position))
            }
            _ => unreachable!(),
        }
    }
}

// Fills an item where there is one.
fn fill<T: Copy>(tuples: &mut CacheBuffer<T>, item: Option<T>)
    requires { tuples.old.tail < 2 ^ 64 - 2 }
    ensures { tuples.new ≡ fills tuples.old item }
{
    if let Some(item) = item {
        tuples.fill(item);
    }
}

impl Pair {
    ghost use Rattle.std.specs.Prelude.{◌≡◌};
    ghost use Rattle.cy_fuse.specs.private.Holding.{pair_of};

    // The tuple of these messages.
    #[inline(always)]
    fn tuple(&self) -> Tuple
        ensures { result ≡ pair_of self.now }
    {
        Tuple::Two(self.first.message(), self.second.message())
    }
}

impl Triple {
    ghost use Rattle.std.specs.Prelude.{◌≡◌};
    ghost use Rattle.cy_fuse.specs.private.Holding.{triple_of};

    // The tuple of these messages.
    #[inline(always)]
    fn tuple(&self) -> Tuple
        ensures { result ≡ triple_of self.now }
    {
        Tuple::Three(
            self.first.message(),
            self.second.message(),
            self.third.message(),
        )
    }
}

impl Quad {
    ghost use Rattle.std.specs.Prelude.{◌≡◌};
    ghost use Rattle.cy_fuse.specs.private.Holding.{quad_of};

    // The tuple of these messages.
    #[inline(always)]
    fn tuple(&self) -> Tuple
        ensures { result ≡ quad_of self.now }
    {
        Tuple::Four(
            self.first.message(),
            self.second.message(),
            self.third.message(),
            self.fourth.message(),
        )
    }
}

// A message with the last one of the other reader, where it has one.
fn pair_with(first: Token, last: &[Option<Token>; MOST_ROLES]) -> Option<Pair>
    ensures { option_map pair_of result ≡ tuple_with 2 first last.now }
{
    Some(Pair {
        first: Arrived::new(0, first),
        second: Arrived::new(1, last[1]?),
    })
}

// The same with two others.
fn triple_with(first: Token, last: &[Option<Token>; MOST_ROLES]) -> Option<Triple>
    ensures { option_map triple_of result ≡ tuple_with 3 first last.now }
{
    Some(Triple {
        first: Arrived::new(0, first),
        second: Arrived::new(1, last[1]?),
        third: Arrived::new(2, last[2]?),
    })
}

// The same with three others.
fn quad_with(first: Token, last: &[Option<Token>; MOST_ROLES]) -> Option<Quad>
    ensures { option_map quad_of result ≡ tuple_with 4 first last.now }
{
    Some(Quad {
        first: Arrived::new(0, first),
        second: Arrived::new(1, last[1]?),
        third: Arrived::new(2, last[2]?),
        fourth: Arrived::new(3, last[3]?),
    })
}
