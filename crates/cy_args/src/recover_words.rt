// The words of `recover`.
ghost use Rattle.std.specs.Prelude.{◌≡◌, ◌≤◌, length, option_map};
ghost use Rattle.cy_args.specs.RecoverWords.{apart_from, recover_asked, recover_known};
ghost use Rattle.cy_args.specs.Views.{recover_words_of};
ghost use Rattle.cy_args.specs.private.OptionViews.{table_of, values_of};

use crate::options::{Kind, Known, Values};

/// What `recover` knows.
pub(crate) const RECOVER: [Known; 2] = [("in", Kind::Place), ("out", Kind::Place)];

/// The words of `recover`: names of files, which differ.
#[derive(Clone, Copy)]
pub struct Recover<'a> {
    /// The file that is read.
    pub input: &'a str,
    /// The record that is written.
    pub output: &'a str,
}

// What two names ask for.
fn apart_from<'a>(input: &'a str, output: &'a str) -> Option<Recover<'a>>
    ensures { option_map recover_words_of result ≡ apart_from input.now output.now }
{
    if input == output {
        return None;
    }
    Some(Recover { input, output })
}

/// The two files that words name, of which a command knows these.
#[tactic(auto, unfolding(crate::specs::RecoverWords::recover_asked))]
pub(crate) fn files_of<'a>(known: &[Known], values: Values<'_, 'a>) -> Option<Recover<'a>>
    requires { length known.now ≤ 16 }
    ensures { option_map recover_words_of result
        ≡ recover_asked (values_of (table_of known.now) values.entry) }
{
    let input = values.of(known, "in")?;
    let output = values.of(known, "out")?;
    apart_from(input, output)
}

/// What the words ask for.
pub(crate) fn recover_asked<'a>(values: Values<'_, 'a>) -> Option<Recover<'a>>
    ensures { option_map recover_words_of result
        ≡ recover_asked (values_of recover_known values.entry) }
{
    files_of(&RECOVER, values)
}
