// Words behind the name of a command, by a table of what it knows.
ghost use Rattle.std.specs.Prelude.{◌≡◌, ◌<◌, ◌≤◌, ◌==◌, Some, None, length, option_map, slice_set};
ghost use Rattle.std.specs.List.{position};
ghost use Rattle.std.specs.Str.{bytes_eq};
ghost use Rattle.clap.specs.Words.{found_of, rows_of};
ghost use Rattle.cy_args.specs.Options.{kind_of};
ghost use Rattle.cy_args.specs.private.OptionViews.{kind_as, options_of, place_in, reading_of};
ghost use Rattle.cy_args.specs.private.OptionViews.{table_of};
ghost use Rattle.cy_args.specs.private.OptionViews.{values_of};
ghost use Rattle.cy_args.specs.private.Kept.{options_in};
ghost use Rattle.cy_args.specs.Options.{Apart, Filled};
ghost use Rattle.cy_args.specs.private.Scan.{behind_hyphens, given_met, is_full, name_met};
ghost use Rattle.cy_args.specs.private.Scan.{no_options};
ghost use Rattle.cy_args.specs.private.Scan.{option_met, read_options, parts_met, place_met};
ghost use Rattle.cy_args.specs.private.Scan.{put_known};
ghost use Rattle.cy_args.specs.private.Scan.{read_word, read_words};

use crate::matches::value_of;
use crate::words::names_something;
use clap::ArgMatches;
use cy_msg::Text;

/// How a command knows a word.
#[derive(Clone, Copy)]
pub(crate) enum Kind {
    /// By its place.
    Place,
    /// As an option with a value.
    Value,
    /// As an option without one.
    Flag,
}

/// A row of what a command knows: a name, and how. The places stand first.
pub(crate) type Known = (&'static str, Kind);

/// The most rows of a command.
pub(crate) const MOST_KNOWN: usize = 16;

/// The values that are given, in the order of the rows. That of a flag is empty.
#[derive(Clone, Copy)]
pub(crate) struct Options<'a> {
    values: [Option<&'a str>; MOST_KNOWN],
}

// What words gave so far, the name whose value is the next word, and the rows from the next place
// on.
#[derive(Clone, Copy)]
struct Reading<'k, 'a> {
    options: Options<'a>,
    pending: Option<&'a str>,
    left: &'k [Known],
}

/// Where values are from.
#[derive(Clone, Copy)]
pub(crate) enum Values<'v, 'a> {
    /// The words, one after another.
    Met(&'v Options<'a>),
    /// `clap`, which keeps them.
    Kept(&'v ArgMatches<'a>),
}

// The first place of a name.
fn first_place(known: &[Known], name: &str) -> Option<usize>
    ensures { result ≡ position (λ k. bytes_eq k.0.now name.now) known.now }
{
    known.iter().position(|k| k.0 == name)
}

// The row of a name.
fn place_of(known: &[Known], name: &str) -> Option<usize>
    ensures { result ≡ place_in (table_of known.now) name.now }
{
    first_place(known, name)
}

// What a name is, where the command knows it.
fn kind_of(known: &[Known], name: &str) -> Option<Kind>
    ensures { option_map kind_as result ≡ kind_of (table_of known.now) name.now }
{
    let place = place_of(known, name)?;
    Some(known[place].1)
}

// What stands behind two hyphens.
fn behind_hyphens(word: &str) -> Option<&str>
    ensures { option_map (λ rest. rest.now) result ≡ behind_hyphens word.now }
{
    word.strip_prefix("--")
}

// The values with another one at a place.
fn with_value_at<'a>(
    mut values: [Option<&'a str>; MOST_KNOWN],
    place: usize,
    value: &'a str,
) -> [Option<&'a str>; MOST_KNOWN]
    requires { place < 16 }
    ensures values { result ≡ slice_set values.entry place (Some value.entry) }
    ensures within { place < length values.entry }
{
    values[place] = Some(value);
    values
}

impl<'a> Options<'a> {
    // These and one more, where none of its name is given.
    fn with(self, known: &[Known], name: &str, value: &'a str) -> Option<Self>
        requires { length known.now ≤ 16 }
        ensures { option_map (options_of (table_of known.now)) result ≡ put_known
            (table_of known.now) name.now value.now (options_of (table_of known.now) self.entry) }
    {
        let place = place_of(known, name)?;
        let values = self.values;
        if values[place].is_some() {
            return None;
        }
        Some(Options {
            values: with_value_at(values, place, value),
        })
    }

    // The same for an option with a value.
    #[tactic(auto, unfolding(crate::specs::private::Scan::given_met, crate::specs::private::Scan::put_known))]
    fn with_value(self, known: &[Known], name: &str, value: &'a str) -> Option<Self>
        requires { length known.now ≤ 16 }
        ensures { option_map (options_of (table_of known.now)) result ≡ given_met
            (table_of known.now) (Apart name.now value.now)
            (options_of (table_of known.now) self.entry) }
    {
        match kind_of(known, name) {
            Some(Kind::Value) if names_something(value) => self.with(known, name, value),
            _ => None,
        }
    }

    // The same for a word at a place.
    #[tactic(auto, unfolding(crate::specs::private::Scan::given_met, crate::specs::private::Scan::put_known))]
    fn with_place(self, known: &[Known], name: &str, value: &'a str) -> Option<Self>
        requires { length known.now ≤ 16 }
        ensures { option_map (options_of (table_of known.now)) result ≡ given_met
            (table_of known.now) (Filled name.now value.now)
            (options_of (table_of known.now) self.entry) }
    {
        match kind_of(known, name) {
            Some(Kind::Place) if names_something(value) => self.with(known, name, value),
            _ => None,
        }
    }

    // Once a name was met with no value in its word.
    #[tactic(auto, unfolding(crate::specs::private::Scan::name_met, crate::specs::private::Scan::given_met, crate::specs::private::Scan::put_known))]
    fn named<'k>(self, known: &[Known], name: &'a str, left: &'k [Known]) -> Option<Reading<'k, 'a>>
        requires { length known.now ≤ 16 }
        ensures { option_map (reading_of (table_of known.now)) result ≡ name_met
            (table_of known.now) name.now (table_of left.now)
            (options_of (table_of known.now) self.entry) }
    {
        match kind_of(known, name)? {
            Kind::Place => None,
            Kind::Value => Some(Reading {
                options: self,
                pending: Some(name),
                left,
            }),
            Kind::Flag => Some(Reading {
                options: self.with(known, name, "")?,
                pending: None,
                left,
            }),
        }
    }

    // Once what stands behind the hyphens of an option was met.
    #[tactic(auto, unfolding(crate::specs::private::Scan::given_met))]
    fn parted<'k>(
        self,
        known: &[Known],
        rest: &'a str,
        left: &'k [Known],
    ) -> Option<Reading<'k, 'a>>
        requires { length known.now ≤ 16 }
        ensures { option_map (reading_of (table_of known.now)) result ≡ parts_met
            (table_of known.now) rest.now (position (λ b. b == 61) rest.now) (table_of left.now)
            (options_of (table_of known.now) self.entry) }
    {
        match rest.split_once('=') {
            Some((name, value)) => Some(Reading {
                options: self.with_value(known, name, value)?,
                pending: None,
                left,
            }),
            None => self.named(known, rest, left),
        }
    }

    // Once a word was met that is no option.
    #[tactic(auto, unfolding(crate::specs::private::Scan::place_met))]
    fn placed<'k>(
        self,
        known: &[Known],
        word: &'a str,
        left: &'k [Known],
    ) -> Option<Reading<'k, 'a>>
        requires { length known.now ≤ 16 }
        ensures { option_map (reading_of (table_of known.now)) result ≡ place_met
            (table_of known.now) word.now (table_of left.now)
            (options_of (table_of known.now) self.entry) }
    {
        let [(name, kind), left @ ..] = left else {
            return None;
        };
        match kind {
            Kind::Place => Some(Reading {
                options: self.with_place(known, name, word)?,
                pending: None,
                left,
            }),
            _ => None,
        }
    }

    // Once a word was met that is no value of an option.
    #[tactic(auto, unfolding(crate::specs::private::Scan::option_met))]
    fn met<'k>(self, known: &[Known], word: &'a str, left: &'k [Known]) -> Option<Reading<'k, 'a>>
        requires { length known.now ≤ 16 }
        ensures { option_map (reading_of (table_of known.now)) result ≡ option_met
            (table_of known.now) word.now (table_of left.now)
            (options_of (table_of known.now) self.entry) }
    {
        match behind_hyphens(word) {
            Some(rest) if is_full(left) => self.parted(known, rest, left),
            Some(_) => None,
            None => self.placed(known, word, left),
        }
    }
}

// Once one more word was met.
fn read_word<'k, 'a>(
    known: &[Known],
    word: &'a str,
    before: Reading<'k, 'a>,
) -> Option<Reading<'k, 'a>>
    requires { length known.now ≤ 16 }
    ensures { option_map (reading_of (table_of known.now)) result ≡ read_word (table_of known.now)
        word.now (options_of (table_of known.now) before.entry.options)
        (option_map (λ name. name.now) before.entry.pending) (table_of before.entry.left.now) }
{
    match before.pending {
        None => before.options.met(known, word, before.left),
        Some(name) => Some(Reading {
            options: before.options.with_value(known, name, word)?,
            pending: None,
            left: before.left,
        }),
    }
}

// What words give.
fn read_words<'k, 'a>(known: &'k [Known], words: &'a [Text]) -> Option<Reading<'k, 'a>>
    requires { length known.now ≤ 16 }
    ensures { option_map (reading_of (table_of known.now)) result ≡ read_words (table_of known.now)
        words.now (record {
          options = no_options;
          pending = None;
          left = table_of known.now;
        }) }
{
    let mut reading = Reading {
        options: Options {
            values: [None; MOST_KNOWN],
        },
        pending: None,
        left: known,
    };
    for word in words {
        reading = read_word(known, word.as_str(), reading)?;
    }
    Some(reading)
}

// Whether no place is left.
fn is_full(left: &[Known]) -> bool
    ensures { result ≡ is_full (table_of left.now) }
{
    let [(_, kind), ..] = left else {
        return true;
    };
    match kind {
        Kind::Place => false,
        _ => true,
    }
}

/// What the words give, where they are what a command knows.
pub(crate) fn read_options<'a>(known: &[Known], words: &'a [Text]) -> Option<Options<'a>>
    requires { length known.now ≤ 16 }
    ensures { option_map (options_of (table_of known.now)) result
        ≡ read_options (table_of known.now) words.now }
{
    let reading = read_words(known, words)?;
    if reading.pending.is_some() {
        return None;
    }
    if is_full(reading.left) {
        Some(reading.options)
    } else {
        None
    }
}

// The value of a name.
fn met_value<'a>(options: &Options<'a>, known: &[Known], name: &str) -> Option<&'a str>
    requires { length known.now ≤ 16 }
    ensures { option_map (λ v. v.now) result
        ≡ options_of (table_of known.now) options.now name.now }
{
    let place = place_of(known, name)?;
    let values = options.values;
    values[place]
}

// The value that `clap` keeps: of a flag that is given an empty one.
#[tactic(auto, unfolding(crate::specs::private::Kept::options_in))]
fn kept<'a>(matches: &ArgMatches<'a>, known: &[Known], name: &str) -> Option<&'a str>
    ensures { option_map (λ v. v.now) result
        ≡ options_in (table_of known.now) (rows_of (found_of matches.now)) name.now }
{
    let text = value_of(matches, name)?;
    match kind_of(known, name) {
        Some(Kind::Flag) if text == "true" => Some(""),
        Some(Kind::Flag) => None,
        _ => Some(text),
    }
}

impl<'v, 'a> Values<'v, 'a> {
    /// The value of a name, where it is given.
    pub(crate) fn of(self, known: &[Known], name: &str) -> Option<&'a str>
        requires { length known.now ≤ 16 }
        ensures { option_map (λ v. v.now) result
            ≡ values_of (table_of known.now) self.entry name.now }
    {
        match self {
            Values::Met(options) => met_value(options, known, name),
            Values::Kept(matches) => kept(matches, known, name),
        }
    }
}
