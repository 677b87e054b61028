// What calls put out whose answers come from a file.
ghost use Rattle.std.specs.Prelude.{◌≡◌, IfOk, IfErr};
ghost use Rattle.cy_comp.specs.Answers.{CallsRise};
ghost use Rattle.cy_comp.specs.private.Searches.{IsAt, IsGapFor};

use cy_msg::Bytes;
use std::alloc::{AllocError, Global};
use std::marker::Model;
use std::sync::ArcSlice;

/// What one call puts out, of a component whose answers come from a file.
#[derive(Drop)]
pub struct Answer {
    /// The number of the call, from 1.
    pub call: u64,
    /// The whole number that its content stands for, where it stands for one.
    pub whole: Option<i64>,
    /// Where messages with its content come from, as in a token.
    pub origin: u32,
    /// Its content.
    pub content: Bytes,
}

/// Answers, in the order of their calls. Copies share their memory.
#[derive(Drop)]
pub struct Answers {
    items: ArcSlice<Answer, Global>,
}

impl Model for Answers {
    ghost use Rattle.std.specs.Prelude.{List};
    ghost use Rattle.cy_comp.specs.declared.answers.Answer.{Answer};
    ghost use Rattle.std.specs.Arc.{arc_slice_items};
    ghost use Rattle.cy_comp.specs.Answers.{CallsRise};

    ghost Value = { List Answer };

    ghost view = { λ a. arc_slice_items a.items };

    ghost invariant = { λ a. CallsRise (arc_slice_items a.items) };
}

impl Answers {
    ghost use Rattle.std.specs.Prelude.{◌≡◌, IfOk, [], option_map};
    ghost use Rattle.cy_comp.specs.Answers.{answered, CallsRise};

    /// These answers, whose calls rise. The only error is want of memory.
    pub fn new(answers: Vec<Answer>) -> Result<Self, AllocError>
        requires { CallsRise answers.items }
        ensures { IfOk result (λ a. a ≡ answers.items) }
    {
        Ok(Answers {
            items: ArcSlice::from_vec(answers)?,
        })
    }

    /// No answers. The only error is want of memory.
    pub fn none(alloc: Global) -> Result<Self, AllocError>
        ensures { IfOk result (λ a. a ≡ []) }
    {
        Answers::new(Vec::new(alloc))
    }

    /// A copy, which shares its memory. The only error is want of memory.
    pub fn copy(&self) -> Result<Self, AllocError>
        ensures { IfOk result (λ a. a ≡ self.now) }
    {
        Ok(Answers {
            items: self.items.clone()?,
        })
    }

    /// The answers, whose calls rise.
    pub fn as_slice(&self) -> &[Answer]
        ensures answers { result.now ≡ self.now }
        ensures rise { CallsRise self.now }
    {
        self.items.as_slice()
    }

    /// The answer of a call, by its number.
    pub fn to_call(&self, call: u64) -> Option<&Answer>
        ensures { option_map (λ a. a.now) result ≡ answered self.now call }
    {
        match search(self.items.as_slice(), call) {
            Ok(place) => Some(&self.items.as_slice()[place]),
            Err(_) => None,
        }
    }
}

// Where the answer of a call is, or where it would be.
fn search(answers: &[Answer], call: u64) -> Result<usize, usize>
    requires { CallsRise answers.now }
    ensures found { IfOk result (IsAt answers.now call) }
    ensures absent { IfErr result (IsGapFor answers.now call) }
{
    answers.binary_search_by_key(&call, |answer| answer.call)
}
