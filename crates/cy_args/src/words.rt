// The words that the program takes, form by form.
ghost use Rattle.std.specs.Prelude.{◌≡◌, ◌≤◌, length, find, IfSome, map, option_map};
ghost use Rattle.std.specs.Str.{bytes_eq};
ghost use Rattle.cy_args.specs.Command.{form_of, info_asked, info_known};
ghost use Rattle.cy_args.specs.private.OptionViews.{head_as, table_of, values_of};
ghost use Rattle.cy_args.specs.private.Scan.{asked_of, command_of, still_command_of};
ghost use Rattle.cy_args.specs.Views.{command_asked, info_words_of};
ghost use Rattle.cy_args.specs.Words.{is_word};

use crate::check_words::{CHECK, Check, check_asked};
use crate::make_words::{MAKE, Make, make_asked};
use crate::merge_words::{MERGE, Merge, merge_asked};
use crate::options::{Kind, Known, Values, read_options};
use crate::pass_words::{PASS, pass_asked};
use crate::play_words::{PLAY, Play, play_asked};
use crate::recover_words::{RECOVER, Recover, recover_asked};
use crate::split_words::{SPLIT, Split, split_asked};
use crate::verify_words::{VERIFY, verify_asked};
use cy_msg::Text;

/// The most bytes of a word.
const LONGEST_WORD: usize = 16_777_216;

/// The words of `info`.
#[derive(Clone, Copy)]
pub struct Info<'a> {
    /// The record.
    pub file: &'a str,
}

// What `info` knows.
const INFO: [Known; 1] = [("file", Kind::Place)];

// What the words ask for.
fn info_asked<'a>(values: Values<'_, 'a>) -> Option<Info<'a>>
    ensures { option_map info_words_of result ≡ info_asked (values_of info_known values.entry) }
{
    let file = values.of(&INFO, "file")?;
    Some(Info { file })
}

/// What the words ask for.
#[derive(Clone, Copy)]
pub enum Command<'a> {
    /// To print what configuration files say.
    Check(Check<'a>),
    /// To print what a record is.
    Info(Info<'a>),
    /// To play a record through components.
    Play(Play<'a>),
    /// To make the files of a play, and to play them.
    Make(Make<'a>),
    /// To judge a trace and a record that are said to be of a play.
    Verify(Play<'a>),
    /// To make a whole record of what stands before the first fault of a file.
    Recover(Recover<'a>),
    /// To write a record of some messages of another one.
    Split(Split<'a>),
    /// To write one record of all messages of several.
    Merge(Merge<'a>),
}

/// A form of words: the name that stands first, and what is known of the words behind it.
pub(crate) type Form = (&'static str, &'static [Known]);

/// The forms that there are.
pub(crate) const FORMS: [Form; 9] = [
    ("play", &PLAY),
    ("pass", &PASS),
    ("check", &CHECK),
    ("info", &INFO),
    ("make", &MAKE),
    ("verify", &VERIFY),
    ("recover", &RECOVER),
    ("split", &SPLIT),
    ("merge", &MERGE),
];

/// What values ask for behind the name of a form.
#[tactic(auto, unfolding(crate::specs::Command::form_of))]
pub(crate) fn asked_of<'a>(name: &str, values: Values<'_, 'a>) -> Option<Command<'a>>
    ensures { option_map command_asked result
        ≡ asked_of name.now (λ known. values_of known values.entry) }
{
    match name {
        "play" => Some(Command::Play(play_asked(values)?)),
        "pass" => Some(Command::Play(pass_asked(values)?)),
        "check" => Some(Command::Check(check_asked(values)?)),
        "info" => Some(Command::Info(info_asked(values)?)),
        "make" => Some(Command::Make(make_asked(values)?)),
        "verify" => Some(Command::Verify(verify_asked(values)?)),
        "recover" => Some(Command::Recover(recover_asked(values)?)),
        "split" => Some(Command::Split(split_asked(values)?)),
        "merge" => Some(Command::Merge(merge_asked(values)?)),
        _ => None,
    }
}

/// Whether a text may stand as a name.
pub(crate) fn names_something(text: &str) -> bool
    ensures { result ≡ is_word text.now }
{
    match text.as_bytes() {
        [] => false,
        [first, ..] => *first != b'-' && text.len() <= LONGEST_WORD,
    }
}

// The first form of a name.
fn first_form<'f>(forms: &'f [Form], name: &str) -> Option<&'f Form>
    ensures { option_map (λ f. f.now) result ≡ find (λ f. bytes_eq name.now f.0.now) forms.now }
{
    forms.iter().find(|form| name == form.0)
}

// The form of a name.
fn form_in<'f>(forms: &'f [Form], name: &str) -> Option<&'f Form>
    ensures { option_map (λ f. head_as f.now) result
        ≡ find (λ h. bytes_eq name.now h.name) (map head_as forms.now) }
{
    first_form(forms, name)
}

// What is known of the words behind a name.
fn known_behind(name: &str) -> Option<&'static [Known]>
    ensures known { option_map (λ k. table_of k.now) result
        ≡ option_map (λ f. f.known) (form_of name.now) }
    ensures few { IfSome result (λ k. length k.now ≤ 16) }
{
    let form = form_in(&FORMS, name)?;
    Some(form.1)
}

/// What the words ask for; None where they are of no known form. It takes no memory.
pub(crate) fn command_of<'a>(words: &'a [Text]) -> Option<Command<'a>>
    ensures { option_map command_asked result ≡ command_of words.now }
{
    let [name, words @ ..] = words else {
        return None;
    };
    let name = name.as_str();
    let options = read_options(known_behind(name)?, words)?;
    asked_of(name, Values::Met(&options))
}

/// What the words ask for where there are no threads; None where they are of no known form, or ask
/// for a play that is not serial.
pub(crate) fn still_command_of<'a>(words: &'a [Text]) -> Option<Command<'a>>
    ensures { option_map command_asked result ≡ still_command_of words.now }
{
    match command_of(words)? {
        Command::Play(play) if !play.serial => None,
        command => Some(command),
    }
}
