// The words of `verify`.
ghost use Rattle.std.specs.Prelude.{◌≡◌, option_map};
ghost use Rattle.cy_args.specs.PlayViews.{play_words_of};
ghost use Rattle.cy_args.specs.VerifyWords.{verify_asked, verify_known};
ghost use Rattle.cy_args.specs.private.OptionViews.{values_of};

use crate::options::{Kind, Known, Values};
use crate::play_words::{Play, play_of};

/// What `verify` knows.
pub(crate) const VERIFY: [Known; 9] = [
    ("dag", Kind::Value),
    ("record", Kind::Value),
    ("out", Kind::Value),
    ("trace", Kind::Value),
    ("channels", Kind::Value),
    ("drop", Kind::Value),
    ("begin", Kind::Value),
    ("end", Kind::Value),
    ("stop", Kind::Value),
];

/// What the options ask for.
#[tactic(auto, unfolding(crate::specs::VerifyWords::verify_asked))]
pub(crate) fn verify_asked<'a>(values: Values<'_, 'a>) -> Option<Play<'a>>
    ensures { option_map play_words_of result ≡ verify_asked (values_of verify_known values.entry) }
{
    play_of(&VERIFY, values)?.where_apart()
}
