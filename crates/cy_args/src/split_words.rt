// The words of `split`.
ghost use Rattle.std.specs.Prelude.{◌≡◌, IfOk, option_map};
ghost use Rattle.cy_args.specs.SplitWords.{split_asked, split_known};
ghost use Rattle.cy_args.specs.Views.{split_words_of};
ghost use Rattle.cy_args.specs.private.OptionViews.{values_of};

use crate::filter_words::{FilterWords, filter_asked};
use crate::options::{Kind, Known, Values};
use crate::recover_words::files_of;
use cy_msg::Filter;
use std::alloc::{AllocError, Global};

/// What `split` knows.
pub(crate) const SPLIT: [Known; 6] = [
    ("in", Kind::Place),
    ("out", Kind::Place),
    ("channels", Kind::Value),
    ("drop", Kind::Value),
    ("begin", Kind::Value),
    ("end", Kind::Value),
];

/// The words of `split`.
#[derive(Clone, Copy)]
pub struct Split<'a> {
    /// The record that is read.
    pub input: &'a str,
    /// The record that is written, of another name.
    pub output: &'a str,
    /// Which messages it has of the other one.
    pub wanted: FilterWords<'a>,
}

impl Split<'_> {
    /// Which messages are kept, with names in memory of their own. Its only error is want of
    /// memory.
    pub fn filter(&self, alloc: Global) -> Result<Filter, AllocError>
        ensures { IfOk result (λ f. f ≡ (split_words_of self.now).filter) }
    {
        self.wanted.filter(alloc)
    }
}

/// What the words ask for.
#[tactic(auto, unfolding(crate::specs::SplitWords::split_asked))]
pub(crate) fn split_asked<'a>(values: Values<'_, 'a>) -> Option<Split<'a>>
    ensures { option_map split_words_of result ≡ split_asked (values_of split_known values.entry) }
{
    let files = files_of(&SPLIT, values)?;
    let wanted = filter_asked(&SPLIT, values)?;
    Some(Split {
        input: files.input,
        output: files.output,
        wanted,
    })
}
