// The words of `merge`.
ghost use Rattle.std.specs.Prelude.{◌≡◌, map, option_map, IfOk};
ghost use Rattle.cy_args.specs.MergeWords.{are_inputs, merge_asked, merge_known, merged_by};
ghost use Rattle.cy_args.specs.Views.{merge_words_of};
ghost use Rattle.cy_args.specs.private.OptionViews.{values_of};

use crate::filter_words::parts_of;
use crate::options::{Kind, Known, Values};
use std::alloc::{AllocError, Global};

/// What `merge` knows.
pub(crate) const MERGE: [Known; 2] = [("list", Kind::Place), ("out", Kind::Place)];

/// The words of `merge`: names of files. None of the inputs is empty or the output.
#[derive(Clone, Copy)]
pub struct Merge<'a> {
    /// The records that are read, with commas between.
    pub list: &'a str,
    /// The record that is written.
    pub output: &'a str,
}

impl<'a> Merge<'a> {
    /// The names of the records that are read, in the order of the list. Its only error is want of
    /// memory.
    pub fn inputs(&self, alloc: Global) -> Result<Vec<&'a str>, AllocError>
        ensures { IfOk result (λ names. map (λ n. n.now) names.items
            ≡ (merge_words_of self.now).inputs) }
    {
        parts_of(alloc, self.list)
    }
}

// Whether no name of a list is empty or that of the output.
#[tactic(auto, unfolding(crate::specs::MergeWords::are_inputs))]
fn are_inputs(output: &str, list: &str) -> bool
    ensures { result ≡ are_inputs output.now list.now }
{
    list.split(',')
        .all(|name| !name.is_empty() && name != output)
}

// What a list and a name ask for.
fn merged_by<'a>(list: &'a str, output: &'a str) -> Option<Merge<'a>>
    ensures { option_map merge_words_of result ≡ merged_by list.now output.now }
{
    if are_inputs(output, list) {
        Some(Merge { list, output })
    } else {
        None
    }
}

/// What the words ask for.
#[tactic(auto, unfolding(crate::specs::MergeWords::merge_asked))]
pub(crate) fn merge_asked<'a>(values: Values<'_, 'a>) -> Option<Merge<'a>>
    ensures { option_map merge_words_of result ≡ merge_asked (values_of merge_known values.entry) }
{
    let list = values.of(&MERGE, "list")?;
    let output = values.of(&MERGE, "out")?;
    merged_by(list, output)
}
