// Why a record has no answers for a component.
ghost use Rattle.std.specs.Prelude.{◌≡◌, ◌++◌, OnOk};
ghost use Rattle.cy_answers.specs.FaultText.{answers_text, is_answers_limit};
ghost use Rattle.cy_answers.specs.declared.error.AnswersError.TheVariants as answers_error;

use cy_msg::{NamesError, push_limit, push_number};
use std::alloc::{AllocError, AllocFailed};

/// What [`read_answers`](crate::read_answers) may answer in place of answers.
#[derive(Drop)]
pub enum AnswersError {
    /// Two answers are of one call.
    AnswerTwice {
        /// The number of the call.
        time: u64,
    },
    /// An answer stands behind one of a later call.
    AnswersFall {
        /// The number of its call.
        time: u64,
    },
    /// There are more answers than there can be calls.
    TooManyAnswers {
        /// Their number.
        count: u64,
    },
    /// There is no memory.
    Memory,
}

impl AnswersError {
    /// Adds its text to others. The only error is want of memory.
    pub fn push_to(&self, to: &mut Vec<u8>) -> Result<(), AllocError>
        ensures { OnOk result (to.new.items ≡ to.old.items ++ answers_text self.now) }
    {
        match self {
            AnswersError::AnswerTwice { time } => push_number(to, "AnswerTwice ", *time),
            AnswersError::AnswersFall { time } => push_number(to, "AnswersFall ", *time),
            AnswersError::TooManyAnswers { count } => push_limit(to, "TooManyAnswers", *count),
            AnswersError::Memory => to.extend_from_slice(b"out of memory"),
        }
    }

    /// Whether it is a limit that was passed.
    pub fn is_limit(&self) -> bool
        ensures { result ≡ is_answers_limit self.now }
    {
        matches!(self, AnswersError::TooManyAnswers { .. })
    }
}

impl From<AllocError> for AnswersError {
    ghost from_gives = { λ _ e. e ≡ answers_error.Memory };

    fn from(_: AllocError) -> Self {
        AnswersError::Memory
    }
}

impl<T: Drop> From<AllocFailed<T>> for AnswersError {
    ghost from_gives = { λ _ e. e ≡ answers_error.Memory };

    fn from(_: AllocFailed<T>) -> Self {
        AnswersError::Memory
    }
}

impl From<NamesError> for AnswersError {
    ghost from_gives = { λ _ e. e ≡ answers_error.Memory };

    fn from(_: NamesError) -> Self {
        AnswersError::Memory
    }
}
