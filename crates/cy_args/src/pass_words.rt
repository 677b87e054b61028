// The words of `pass`.
ghost use Rattle.std.specs.Prelude.{◌≡◌, option_map};
ghost use Rattle.cy_args.specs.private.OptionViews.{values_of};
ghost use Rattle.cy_args.specs.PassWords.{pass_asked, pass_known, passed_by};
ghost use Rattle.cy_args.specs.PlayViews.{play_words_of};

use crate::options::{Kind, Known, Values};
use crate::play_words::Play;
use cy_msg::Components;

/// What `pass` knows.
pub(crate) const PASS: [Known; 5] = [
    ("record", Kind::Place),
    ("out", Kind::Place),
    ("trace", Kind::Place),
    ("from", Kind::Place),
    ("to", Kind::Place),
];

// A serial play that passes messages on from one channel to another, where its names are in form.
fn passing<'a>(
    input: &'a str,
    output: &'a str,
    trace: &'a str,
    from: &'a str,
    to: &'a str,
) -> Option<Play<'a>>
    ensures { option_map play_words_of result
        ≡ passed_by input.now output.now trace.now from.now to.now }
{
    if from == to {
        return None;
    }
    let components = Components::Pass { from, to };
    Play::of_all(components, input, output, trace).where_in_form()
}

/// What the words ask for.
pub(crate) fn pass_asked<'a>(values: Values<'_, 'a>) -> Option<Play<'a>>
    ensures { option_map play_words_of result ≡ pass_asked (values_of pass_known values.entry) }
{
    let input = values.of(&PASS, "record")?;
    let output = values.of(&PASS, "out")?;
    let trace = values.of(&PASS, "trace")?;
    let from = values.of(&PASS, "from")?;
    let to = values.of(&PASS, "to")?;
    passing(input, output, trace, from, to)
}
