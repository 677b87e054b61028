// The last values and their sum.
ghost use Rattle.std.specs.Int.{w64};
ghost use Rattle.std.specs.Prelude.{◌≡◌, ◌<◌, ◌≤◌, ◌^◌, ◌+ℤ◌, ◌-ℤ◌, ◌∷◌, ◌++◌, ℕ, ℤ, Some, length};
ghost use Rattle.std.specs.Prelude.{slice_get, FitsSigned, IfOk, []};
ghost use Rattle.circular_buffer.specs.Buffer.{buffer, keep_last};
ghost use Rattle.cy_comp.specs.Step.{sum_of, held_sum, held_within};
ghost use Rattle.cy_comp.specs.private.Sums.{IsNear};

use crate::CompError;
use circular_buffer::HeapCircularBuffer;
use std::alloc::Global;

/// The last values that came, and their sum, so that no call goes through them all.
#[derive(Drop)]
pub(crate) struct Window {
    n: u32,
    sum: i128,
    values: HeapCircularBuffer<i64, Global>,
    ghost in_range: { n < 2 ^ 32 },
    ghost sized: { values.capacity ≡ n },
    ghost few: { length values.items ≤ n },
    ghost summed: { sum ≡ sum_of values.items },
    ghost small: { (k : ℕ) (v : ℤ) → slice_get values.items k ≡ Some v → FitsSigned w64 v },
}

impl Window {
    /// A window over so many values, of which none came yet.
    pub(crate) fn new(alloc: Global, n: u32) -> Result<Self, CompError>
        ensures n { IfOk result (λ w. w.n ≡ n) }
        ensures empty { IfOk result (λ w. w.values.items ≡ []) }
    {
        Ok(Window {
            n,
            sum: 0,
            values: HeapCircularBuffer::with_capacity(alloc, n as usize)?,
        })
    }

    /// Takes a value in and answers the sum of the last ones, held within its type.
    pub(crate) fn sum_with(&mut self, value: i64) -> i64
        ensures last { self.new.values.items
            ≡ keep_last self.old.n (self.old.values.items ++ value ∷ []) }
        ensures sum { result ≡ held_sum self.new.values.items }
        ensures n { self.new.n ≡ self.old.n }
    {
        let left = self.values.push_back(value).unwrap_or(0);
        self.sum = moved(self.sum, left, value);
        held(self.sum)
    }
}

/// A sum after one value left and another came.
fn moved(sum: i128, left: i64, value: i64) -> i128
    requires { IsNear (2 ^ 32) sum }
    ensures { result ≡ sum -ℤ left +ℤ value }
{
    sum - i128::from(left) + i128::from(value)
}

/// A sum, held within the numbers of its type.
pub(crate) fn held(sum: i128) -> i64
    ensures { result ≡ held_within sum }
{
    sum.clamp(i128::from(i64::MIN), i128::from(i64::MAX)) as i64
}
