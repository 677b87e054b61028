// The words of `make`.
ghost use Rattle.std.specs.Prelude.{◌≡◌, option_map};
ghost use Rattle.cy_args.specs.MakeWords.{count_of, made_by, make_asked, make_known};
ghost use Rattle.cy_args.specs.private.OptionViews.{values_of};
ghost use Rattle.cy_args.specs.Views.{make_words_of};

use crate::filter_words::spelled_number;
use crate::options::{Kind, Known, Values};

/// What `make` knows.
pub(crate) const MAKE: [Known; 2] = [("count", Kind::Place), ("prefix", Kind::Place)];

/// The most messages of a record that is made.
const MOST_MADE: u64 = 1_048_576;

/// The longest prefix, in bytes: with it the DAG file is within the limit of configuration files.
const LONGEST_PREFIX: usize = 1_000_000;

/// The words of `make`.
#[derive(Clone, Copy)]
pub struct Make<'a> {
    /// How many messages the record has.
    pub count: u32,
    /// With what the names of all files begin.
    pub prefix: &'a str,
}

// How many messages are asked for.
fn count_of(text: &str) -> Option<u32>
    ensures { result ≡ count_of text.now }
{
    let count = spelled_number(text)?;
    if count < 1 || MOST_MADE < count {
        None
    } else {
        Some(count as u32)
    }
}

// What a number and a prefix ask for.
fn making<'a>(count: &str, prefix: &'a str) -> Option<Make<'a>>
    ensures { option_map make_words_of result ≡ made_by count.now prefix.now }
{
    if prefix.len() > LONGEST_PREFIX {
        return None;
    }
    Some(Make {
        count: count_of(count)?,
        prefix,
    })
}

/// What the words ask for.
pub(crate) fn make_asked<'a>(values: Values<'_, 'a>) -> Option<Make<'a>>
    ensures { option_map make_words_of result ≡ make_asked (values_of make_known values.entry) }
{
    let count = values.of(&MAKE, "count")?;
    let prefix = values.of(&MAKE, "prefix")?;
    making(count, prefix)
}
