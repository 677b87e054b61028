// The words of `play`.
ghost use Rattle.std.specs.Prelude.{◌≡◌, ◌≤◌, IfOk, length, is_some, option_map};
ghost use Rattle.cy_msg.specs.Request.{components_of, stop_at_of};
ghost use Rattle.cy_args.specs.PlayWords.{is_no_config, is_other, is_play, is_some_of};
ghost use Rattle.cy_args.specs.PlayWords.{play_asked, play_given, play_known, play_of_all};
ghost use Rattle.cy_args.specs.PlayWords.{stop_at, stop_or_none, where_play};
ghost use Rattle.cy_args.specs.PlayViews.{play_words_of};
ghost use Rattle.cy_args.specs.VerifyWords.{is_apart, where_apart};
ghost use Rattle.cy_args.specs.private.OptionViews.{table_of, values_of};

use crate::filter_words::{FilterWords, filter_asked, spelled_number};
use crate::options::{Kind, Known, Values};
use cy_msg::{Components, Filter, StopAt};
use std::alloc::{AllocError, Global};

/// What `play` knows.
pub(crate) const PLAY: [Known; 11] = [
    ("dag", Kind::Value),
    ("sched", Kind::Value),
    ("record", Kind::Value),
    ("out", Kind::Value),
    ("trace", Kind::Value),
    ("channels", Kind::Value),
    ("drop", Kind::Value),
    ("begin", Kind::Value),
    ("end", Kind::Value),
    ("stop", Kind::Value),
    ("serial", Kind::Flag),
];

/// What is asked of a play: its components, names of files, which messages are let through, and the
/// stop.
#[derive(Clone, Copy)]
pub struct Play<'a> {
    /// The components, or the files that name them.
    pub components: Components<'a>,
    /// The record that is played.
    pub input: &'a str,
    /// The record that is written.
    pub output: &'a str,
    /// The trace that is written.
    pub trace: &'a str,
    /// Which messages are let through.
    pub wanted: FilterWords<'a>,
    /// The stop, where one is asked for.
    pub stop: Option<StopAt<'a>>,
    /// Whether one thread plays all.
    pub serial: bool,
}

// A stop, of the name of a component, `@` and a time.
fn stop_at(text: &str) -> Option<StopAt<'_>>
    ensures { option_map stop_at_of result ≡ stop_at text.now }
{
    let (component, time) = text.rsplit_once('@')?;
    let time = spelled_number(time)?;
    if component.is_empty() {
        return None;
    }
    Some(StopAt { component, time })
}

// The same where there is one.
fn stop_or_none(text: Option<&str>) -> Option<Option<StopAt<'_>>>
    ensures { option_map (option_map stop_at_of) result
        ≡ stop_or_none (option_map (λ v. v.now) text.entry) }
{
    match text {
        Some(text) => Some(Some(stop_at(text)?)),
        None => Some(None),
    }
}

// Whether a name is the other one, where there is another.
fn is_some_of(name: &str, other: Option<&str>) -> bool
    ensures { result ≡ is_some_of name.now (option_map (λ v. v.now) other.entry) }
{
    match other {
        Some(other) => name == other,
        None => false,
    }
}

// Whether a name is none of the files that say which components there are.
fn is_no_config(name: &str, components: &Components) -> bool
    ensures { result ≡ is_no_config name.now (components_of components.now) }
{
    match *components {
        Components::Files { dag, sched } => name != dag && !is_some_of(name, sched),
        Components::Pass { .. } => true,
    }
}

impl<'a> Play<'a> {
    /// A serial play of all messages, with no stop.
    pub fn of_all(
        components: Components<'a>,
        input: &'a str,
        output: &'a str,
        trace: &'a str,
    ) -> Self
        ensures { play_words_of result
            ≡ play_of_all (components_of components.entry) input.now output.now trace.now }
    {
        Play {
            components,
            input,
            output,
            trace,
            wanted: FilterWords::of_all(),
            stop: None,
            serial: true,
        }
    }

    /// Which messages of the record are played, with names in memory of their own. Its only error
    /// is want of memory.
    pub fn filter(&self, alloc: Global) -> Result<Filter, AllocError>
        ensures { IfOk result (λ f. f ≡ (play_words_of self.now).request.filter) }
    {
        self.wanted.filter(alloc)
    }
}

#[tactic(auto, unfolding(crate::specs::PlayWords::is_play))]
impl<'a> Play<'a> {
    // Whether a name is none of those that are read.
    fn is_other(&self, name: &str) -> bool
        ensures { result ≡ is_other name.now (play_words_of self.now) }
    {
        name != self.input && is_no_config(name, &self.components)
    }

    // Whether the names that are written differ from each other and from those that are read.
    fn is_in_form(&self) -> bool
        ensures { result ≡ is_play (play_words_of self.now) }
    {
        self.output != self.trace && self.is_other(self.output) && self.is_other(self.trace)
    }

    // The play, where its names are in form.
    pub(crate) fn where_in_form(self) -> Option<Self>
        ensures { option_map play_words_of result ≡ where_play (play_words_of self.entry) }
    {
        if self.is_in_form() { Some(self) } else { None }
    }

    // Whether, beside that, the record that is read is none of those that say which components
    // there are.
    #[tactic(auto, unfolding(crate::specs::VerifyWords::is_apart))]
    fn is_apart(&self) -> bool
        ensures { result ≡ is_apart (play_words_of self.now) }
    {
        self.is_in_form() && is_no_config(self.input, &self.components)
    }

    // The play, where its names are apart.
    pub(crate) fn where_apart(self) -> Option<Self>
        ensures { option_map play_words_of result ≡ where_apart (play_words_of self.entry) }
    {
        if self.is_apart() { Some(self) } else { None }
    }
}

// The value of an option.
fn value<'a>(known: &[Known], values: Values<'_, 'a>, name: &str) -> Option<&'a str>
    requires { length known.now ≤ 16 }
    ensures { option_map (λ v. v.now) result
        ≡ values_of (table_of known.now) values.entry name.now }
{
    values.of(known, name)
}

// Whether an option is given.
fn is_given(known: &[Known], values: Values, name: &str) -> bool
    requires { length known.now ≤ 16 }
    ensures { result ≡ is_some (values_of (table_of known.now) values.entry name.now) }
{
    value(known, values, name).is_some()
}

// The stop that the option of this name gives, if it is given.
fn stop_asked<'a>(known: &[Known], values: Values<'_, 'a>, name: &str) -> Option<Option<StopAt<'a>>>
    requires { length known.now ≤ 16 }
    ensures { option_map (option_map stop_at_of) result
        ≡ stop_or_none (values_of (table_of known.now) values.entry name.now) }
{
    stop_or_none(value(known, values, name))
}

/// What the options say of a play, where those are given that every play has.
#[tactic(auto, unfolding(crate::specs::PlayWords::play_given))]
pub(crate) fn play_of<'a>(known: &[Known], values: Values<'_, 'a>) -> Option<Play<'a>>
    requires { length known.now ≤ 16 }
    ensures { option_map play_words_of result
        ≡ play_given (values_of (table_of known.now) values.entry) }
{
    let dag = value(known, values, "dag")?;
    let input = value(known, values, "record")?;
    let output = value(known, values, "out")?;
    let trace = value(known, values, "trace")?;
    let wanted = filter_asked(known, values)?;
    let stop = stop_asked(known, values, "stop")?;
    let sched = value(known, values, "sched");
    let serial = is_given(known, values, "serial");
    Some(Play {
        components: Components::Files { dag, sched },
        input,
        output,
        trace,
        wanted,
        stop,
        serial,
    })
}

/// What the options ask for.
#[tactic(auto, unfolding(crate::specs::PlayWords::play_asked))]
pub(crate) fn play_asked<'a>(values: Values<'_, 'a>) -> Option<Play<'a>>
    ensures { option_map play_words_of result ≡ play_asked (values_of play_known values.entry) }
{
    play_of(&PLAY, values)?.where_in_form()
}
