// Component classes.
ghost use Rattle.std.specs.Prelude.{◌≡◌, IfOk};

use crate::Answers;
use std::alloc::AllocError;

/// The most values that a window sums.
pub const MOST_WINDOW: u32 = 4_096;

/// The class of a component, with its parameters.
#[derive(Drop)]
pub enum Kind {
    /// Passes each message on.
    Pass,
    /// Passes a message on where its value is in a range.
    Filter {
        /// The least value that passes.
        lo: i64,
        /// The greatest value that passes.
        hi: i64,
    },
    /// Sums the values of its readers' messages.
    Sum,
    /// Counts its calls.
    Count,
    /// Puts out the greatest value so far.
    Max,
    /// Sums the last values.
    Window {
        /// How many values, from 1 to [`MOST_WINDOW`].
        n: u32,
    },
    /// Passes a message on where its value differs from the last one that passed.
    Change,
    /// Passes the message of its second reader on where the value of the first is 0, and else that
    /// of the third.
    Select,
    /// Passes each message on, but later.
    Hold {
        /// How much later, in nanoseconds.
        delay: u64,
    },
    /// Passes so many messages on, and ends.
    Take {
        /// How many messages, at least 1.
        n: u32,
    },
    /// Puts out what a file says for each call.
    External {
        /// What it says.
        answers: Answers,
    },
}

impl Kind {
    ghost use Rattle.std.specs.Prelude.{◌≡◌, IfOk};
    ghost use Rattle.cy_comp.specs.Kind.{holds_outputs};

    /// A copy, which shares the answers. The only error is want of memory.
    pub fn copy(&self) -> Result<Self, AllocError>
        ensures { IfOk result (λ kind. kind ≡ self.now) }
    {
        Ok(match self {
            Kind::Pass => Kind::Pass,
            Kind::Filter { lo, hi } => Kind::Filter { lo: *lo, hi: *hi },
            Kind::Sum => Kind::Sum,
            Kind::Count => Kind::Count,
            Kind::Max => Kind::Max,
            Kind::Window { n } => Kind::Window { n: *n },
            Kind::Change => Kind::Change,
            Kind::Select => Kind::Select,
            Kind::Hold { delay } => Kind::Hold { delay: *delay },
            Kind::Take { n } => Kind::Take { n: *n },
            Kind::External { answers } => Kind::External {
                answers: answers.copy()?,
            },
        })
    }

    /// Whether components of the class hold their outputs back.
    pub fn holds_outputs(&self) -> bool
        ensures { result ≡ holds_outputs self.now }
    {
        matches!(self, Kind::Hold { .. })
    }
}
