// The words of `check`.
ghost use Rattle.std.specs.Prelude.{◌≡◌, option_map};
ghost use Rattle.cy_args.specs.CheckWords.{check_asked, check_known};
ghost use Rattle.cy_args.specs.private.OptionViews.{values_of};
ghost use Rattle.cy_args.specs.Views.{check_words_of};

use crate::options::{Kind, Known, Values};

/// What `check` knows.
pub(crate) const CHECK: [Known; 2] = [("dag", Kind::Value), ("sched", Kind::Value)];

/// The words of `check`: names of files.
#[derive(Clone, Copy)]
pub struct Check<'a> {
    /// The DAG file.
    pub dag: &'a str,
    /// The scheduler file, where one is given.
    pub sched: Option<&'a str>,
}

/// What the options ask for.
pub(crate) fn check_asked<'a>(values: Values<'_, 'a>) -> Option<Check<'a>>
    ensures { option_map check_words_of result ≡ check_asked (values_of check_known values.entry) }
{
    let dag = values.of(&CHECK, "dag")?;
    Some(Check {
        dag,
        sched: values.of(&CHECK, "sched"),
    })
}
