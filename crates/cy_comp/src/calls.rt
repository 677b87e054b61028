// The calls of a component, in little memory.
ghost use Rattle.std.specs.Prelude.{ℕ, ◌≡◌, ◌≤◌, ◌+◌, ◌++◌, length, filter, vec_len, vec_capacity};
ghost use Rattle.cy_msg.specs.Tuple.{messages_of};
ghost use Rattle.cy_comp.specs.Summary.{numbers_of, seqs_of};
ghost use Rattle.cy_comp.specs.private.Rows.{seqs_in};

use crate::made::{Made, Part};
use crate::{Call, CallSummary, Out, TupleSeqs};
use cy_msg::Tuple;
use std::alloc::{AllocError, Global};
use std::marker::Model;

// The most messages of a tuple.
const MOST_MESSAGES: usize = 4;

// What a call has beside the numbers of its messages, which stand among those of the other calls.
#[derive(Drop)]
pub(crate) struct Row {
    position: u64,
    tail: u64,
    // The place of the first number.
    start: usize,
    time: u64,
    whole: i64,
    origin: u32,
    // How many messages it has.
    count: u8,
    has_out: bool,
    has_whole: bool,
    has_origin: bool,
}

impl Row {
    ghost use Rattle.std.specs.Prelude.{◌≡◌};
    ghost use Rattle.cy_comp.specs.private.Rows.{out_in, summary_in, IsWithin};

    // A call, the numbers of whose messages begin at a place.
    fn new(call: &Call, start: usize, count: u8) -> Self
        ensures position { result.position ≡ call.now.position }
        ensures tail { result.tail ≡ call.now.tail }
        ensures start { result.start ≡ start }
        ensures count { result.count ≡ count }
        ensures out { out_in result ≡ call.now.out }
    {
        let out = call.out.unwrap_or(NO_OUT);
        Row {
            position: call.position,
            tail: call.tail,
            start,
            time: out.time,
            whole: out.whole.unwrap_or(0),
            origin: out.origin.unwrap_or(0),
            count,
            has_out: call.out.is_some(),
            has_whole: out.whole.is_some(),
            has_origin: out.origin.is_some(),
        }
    }

    // What the call put out.
    #[inline(always)]
    fn out(&self) -> Option<Out>
        ensures { result ≡ out_in self.now }
    {
        if !self.has_out {
            return None;
        }
        Some(Out {
            time: self.time,
            whole: if self.has_whole {
                Some(self.whole)
            } else {
                None
            },
            origin: if self.has_origin {
                Some(self.origin)
            } else {
                None
            },
        })
    }

    // What is kept of the call, whose numbers stand among these.
    #[inline(always)]
    fn summary(&self, seqs: &[u32]) -> CallSummary
        requires { IsWithin seqs.now self.now }
        ensures { result ≡ summary_in seqs.now self.now }
    {
        CallSummary {
            position: self.position,
            tail: self.tail,
            seqs: seqs_at(seqs, self.start, self.count),
            out: self.out(),
        }
    }
}

// What stands for an output where there is none.
const NO_OUT: Out = Out {
    time: 0,
    whole: None,
    origin: None,
};

// So many numbers from a place on.
#[inline(always)]
fn seqs_at(seqs: &[u32], start: usize, count: u8) -> TupleSeqs
    requires some { 1 ≤ count }
    requires few { count ≤ 4 }
    requires within { start + count ≤ length seqs.now }
    ensures { result ≡ seqs_in seqs.now start count }
{
    let first = seqs[start];
    match count {
        1 => TupleSeqs::One(first),
        2 => TupleSeqs::Two(first, seqs[start + 1]),
        3 => TupleSeqs::Three(first, seqs[start + 1], seqs[start + 2]),
        _ => TupleSeqs::Four(first, seqs[start + 1], seqs[start + 2], seqs[start + 3]),
    }
}

// Appends the numbers of the messages of a tuple: how many there are.
#[inline(always)]
fn push_seqs(seqs: &mut Vec<u32>, tuple: &Tuple) -> u8
    requires { vec_len seqs.old + 4 ≤ vec_capacity seqs.old }
    ensures items { seqs.new.items ≡ seqs.old.items ++ numbers_of (seqs_of tuple.now) }
    ensures capacity { vec_capacity seqs.new ≡ vec_capacity seqs.old }
    ensures count { result ≡ length (messages_of tuple.now) }
{
    match tuple {
        Tuple::One(a) => {
            seqs.push_reserved(a.seq);
            1
        }
        Tuple::Two(a, b) => {
            seqs.push_reserved(a.seq);
            seqs.push_reserved(b.seq);
            2
        }
        Tuple::Three(a, b, c) => {
            seqs.push_reserved(a.seq);
            seqs.push_reserved(b.seq);
            seqs.push_reserved(c.seq);
            3
        }
        Tuple::Four(a, b, c, d) => {
            seqs.push_reserved(a.seq);
            seqs.push_reserved(b.seq);
            seqs.push_reserved(c.seq);
            seqs.push_reserved(d.seq);
            4
        }
    }
}

// Calls, with room for so many more. Of their messages only the numbers are kept. Contracts see
// them as a `CallsView`.
#[derive(Drop)]
pub(crate) struct CallList {
    rows: Vec<Row>,
    seqs: Vec<u32>,
    made: Made,
    spare: u32,
}

impl Model for CallList {
    ghost use Rattle.std.specs.Prelude.{vec_capacity};
    ghost use Rattle.cy_comp.specs.private.CallsView.{CallsView};

    ghost Value = { CallsView };

    ghost use Rattle.cy_comp.specs.private.Rows.{IsCallList};

    ghost view = { λ l. record { made = l.made.list; spare = l.spare } };

    ghost invariant = { λ l. IsCallList l.seqs.items l.rows.items l.made.list l.spare
        (vec_capacity l.seqs) (vec_capacity l.rows) };
}

impl CallList {
    ghost use Rattle.std.specs.Prelude.{◌≡◌, ◌≤◌, ◌-◌, ◌++◌, ◌∷◌, [], IfOk};

    // No calls. It takes the memory for so many; the only error is want of it.
    pub(crate) fn with_room(alloc: Global, spare: u32) -> Result<Self, AllocError>
        ensures { IfOk result (λ l. l ≡ record { made = []; spare = spare }) }
    {
        Ok(CallList {
            rows: Vec::with_capacity(alloc, spare as usize)?,
            seqs: Vec::with_capacity(alloc, MOST_MESSAGES * spare as usize)?,
            made: Made::nothing(),
            spare,
        })
    }

    // Appends a call.
    #[inline(always)]
    pub(crate) fn push(&mut self, call: &Call)
        requires { 1 ≤ self.old.spare }
        ensures { self.new ≡ record {
          made = self.old.made ++ call.now ∷ [];
          spare = self.old.spare - 1;
        } }
    {
        let start = self.seqs.len();
        let count = push_seqs(&mut self.seqs, &call.tuple);
        self.rows.push_reserved(Row::new(call, start, count));
        self.made = self.made.then(call);
        self.spare -= 1;
    }

    // The calls, in order.
    pub(crate) fn calls(&self) -> Calls<'_>
        ensures { result ≡ self.now.made }
    {
        Calls {
            rows: self.rows.as_slice(),
            seqs: self.seqs.as_slice(),
            made: self.made.part(&Part::Others(0)),
        }
    }
}

/// Calls of a component, in order, from the first on that was not taken. Contracts see them as
/// their list; what is kept of each is a `CallSummary`.
#[derive(Drop)]
pub struct Calls<'a> {
    rows: &'a [Row],
    seqs: &'a [u32],
    made: Made,
}

impl<'a> Model for Calls<'a> {
    ghost use Rattle.std.specs.Prelude.{List};
    ghost use Rattle.cy_comp.specs.declared.call.Call.{Call};

    ghost Value = { List Call };

    ghost use Rattle.cy_comp.specs.private.Rows.{Keep};

    ghost view = { λ c. c.made.list };

    ghost invariant = { λ c. Keep c.seqs.now c.rows.now c.made.list };
}

impl<'a> Calls<'a> {
    ghost use Rattle.std.specs.Prelude.{◌≡◌, ◌≤◌, ◌+◌, ◌==◌, length, take, drop, filter, is_some};
    ghost use Rattle.cy_comp.specs.Calls.{cursor_after};

    /// How many there are.
    pub fn len(&self) -> usize
        ensures { result ≡ length self.now }
    {
        self.rows.len()
    }

    /// Whether there are none.
    pub fn is_empty(&self) -> bool
        ensures { result ≡ (length self.now == 0) }
    {
        self.rows.is_empty()
    }

    /// The first so many, and the others.
    pub fn split_at(self, count: usize) -> (Calls<'a>, Calls<'a>)
        requires { count ≤ length self }
        ensures first { result.0 ≡ take count self.entry }
        ensures others { result.1 ≡ drop count self.entry }
    {
        let (first, others) = self.rows.split_at(count);
        (
            Calls {
                rows: first,
                seqs: self.seqs,
                made: self.made.part(&Part::First(count)),
            },
            Calls {
                rows: others,
                seqs: self.seqs,
                made: self.made.part(&Part::Others(count)),
            },
        )
    }

    /// How many of them put something out, at once or held back.
    pub fn outputs(&self) -> usize
        ensures count { result ≡ length (filter (λ x. is_some x.out) self.now) }
        ensures few { result ≤ length self.now }
    {
        outputs_in(self.rows)
    }

    /// Where the next fetch after these calls begins: at 0 before the first call, then behind the
    /// last one's position.
    pub fn next_cursor(&self) -> u128
        ensures { result ≡ cursor_after self.now }
    {
        match self.rows.last() {
            None => 0,
            Some(last) => position_after(last.position),
        }
    }
}

// How many rows have an output.
fn outputs_in(rows: &[Row]) -> usize
    ensures { result ≡ length (filter (λ r. r.has_out) rows.now) }
{
    rows.iter().filter(|row| row.has_out).count()
}

// The position after one.
fn position_after(position: u64) -> u128
    ensures { result ≡ position + 1 }
{
    u128::from(position) + 1
}

impl<'a> Iterator for Calls<'a> {
    ghost use Rattle.std.specs.Iterator.{item_count};
    ghost use Rattle.cy_comp.specs.Summary.{SumsUpFirst};

    type Item = CallSummary;

    ghost next_gives = { SumsUpFirst };

    ghost remaining = { item_count (λ s. s) };

    #[inline(always)]
    fn next(&mut self) -> Option<CallSummary> {
        let (first, others) = self.rows.split_first()?;
        self.rows = others;
        self.made = self.made.part(&Part::Others(1));
        Some(first.summary(self.seqs))
    }
}
