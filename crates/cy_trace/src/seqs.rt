// The numbers of the messages of a call.
ghost use Rattle.std.specs.Prelude.{◌≡◌, ◌≤◌, ◌++◌, ◌∷◌, [], true, length};

use std::marker::Model;

/// The most messages that a call takes.
pub const MOST_MESSAGES: usize = 4;

/// The numbers of the messages of a call, at most four, in the order of the readers. Contracts see
/// them as a list.
#[derive(Drop)]
pub struct Seqs {
    count: u8,
    // The numbers, and any others behind them.
    numbers: [u32; MOST_MESSAGES],
}

impl Model for Seqs {
    ghost use Rattle.std.specs.Prelude.{ℕ, List, ◌≤◌, take};

    ghost Value = { List ℕ };

    ghost view = { λ s. take s.count s.numbers };

    ghost invariant = { λ s. s.count ≤ 4 };
}

impl Seqs {
    // None yet.
    #[inline(always)]
    pub(crate) fn new() -> Self
        ensures { result ≡ [] }
    {
        Seqs {
            count: 0,
            numbers: [0; MOST_MESSAGES],
        }
    }

    /// These numbers.
    pub fn of(numbers: &[u32]) -> Self
        requires { length numbers.now ≤ 4 }
        ensures { result ≡ numbers.now }
    {
        let mut kept = [0; MOST_MESSAGES];
        kept[..numbers.len()].copy_from_slice(numbers);
        Seqs {
            count: numbers.len() as u8,
            numbers: kept,
        }
    }

    // Adds a number, where there is room for one more.
    #[inline(always)]
    pub(crate) fn push(&mut self, number: u32) -> bool
        ensures { result ≡ true → self.new ≡ self.old ++ number ∷ [] }
    {
        let count = self.count as usize;
        if count >= MOST_MESSAGES {
            return false;
        }
        self.numbers[count] = number;
        self.count += 1;
        true
    }

    /// The numbers.
    #[inline(always)]
    pub fn as_slice(&self) -> &[u32]
        ensures value { result.now ≡ self.now }
        ensures few { length self.now ≤ 4 }
    {
        &self.numbers[..self.count as usize]
    }
}
