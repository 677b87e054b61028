// How the program's commands are told to `clap`.
ghost use Rattle.std.specs.Prelude.{◌≡◌, Some, true, is_some, IfOk, fold, map, option_map};
ghost use Rattle.std.specs.Prelude.{false};
ghost use Rattle.clap.specs.Words.{App, app_of, found_of, rows_of, rule_of};
ghost use Rattle.clap.specs.declared.builder.command.Command.TheViews.{out-Command};
ghost use Rattle.clap.specs.Words.{subcommand_of, takes, with_subcommand};
ghost use Rattle.clap.specs.Walk.{texts};
ghost use Rattle.cy_args.specs.private.OptionViews.{head_as, known_as, table_of};
ghost use Rattle.cy_args.specs.Options.{flagged, placed, valued};
ghost use Rattle.cy_args.specs.private.Program.{IsCommand, app_for, program, rule_of_known};
ghost use Rattle.cy_args.specs.private.Program.{with_head, with_known};

use crate::WordsError;
use crate::options::{Kind, Known};
use crate::words::{FORMS, Form};
use clap::{Arg, ArgAction, ArgMatches, Command};
use std::alloc::{AllocError, Global};

// A word at a place.
fn place<'a>(alloc: Global, name: &'a str) -> Arg<'a>
    ensures rule { rule_of result ≡ rule_of_known (placed name.entry.now) }
    ensures local { result.global ≡ false }
{
    Arg::new(alloc, name)
}

// An option with a value.
fn value_option<'a>(alloc: Global, name: &'a str) -> Arg<'a>
    ensures rule { rule_of result ≡ rule_of_known (valued name.entry.now) }
    ensures local { result.global ≡ false }
{
    Arg::new(alloc, name).long(name)
}

// An option without one.
fn flag<'a>(alloc: Global, name: &'a str) -> Arg<'a>
    ensures rule { rule_of result ≡ rule_of_known (flagged name.entry.now) }
    ensures local { result.global ≡ false }
{
    Arg::new(alloc, name).long(name).action(ArgAction::SetTrue)
}

// A word that a command knows.
fn argument<'a>(alloc: Global, known: Known) -> Arg<'a>
    ensures rule { rule_of result ≡ rule_of_known (known_as known.entry) }
    ensures local { result.global ≡ false }
{
    let (name, kind) = known;
    match kind {
        Kind::Place => place(alloc, name),
        Kind::Value => value_option(alloc, name),
        Kind::Flag => flag(alloc, name),
    }
}

// A command with all words that it knows.
fn with_words<'a>(
    alloc: Global,
    mut command: Command<'a>,
    known: &[Known],
) -> Result<Command<'a>, AllocError>
    ensures app { IfOk result (λ c. app_of c
        ≡ fold with_known (app_of command.entry) (table_of known.now)) }
    ensures local { IfOk result (λ c. (out-Command c).has_globals
        ≡ (out-Command command.entry).has_globals) }
{
    for one in known {
        command = command.arg(argument(alloc, *one))?;
    }
    Ok(command)
}

// The command of a form.
fn command_for<'a>(alloc: Global, form: Form) -> Result<Command<'a>, AllocError>
    ensures { IfOk result (IsCommand (app_for (head_as form.entry))) }
{
    let (name, known) = form;
    with_words(alloc, Command::new(alloc, name), known)
}

// A program with a further command.
fn with_command<'a>(
    program: Command<'a>,
    command: Result<Command<'a>, AllocError>,
) -> Result<Command<'a>, AllocError>
    ensures { (app : App) → IfOk command.entry (IsCommand app) → IfOk result (λ c. app_of c
        ≡ with_subcommand (app_of program.entry) app.top) }
{
    match command {
        Ok(command) => program.subcommand(command),
        Err(error) => {
            drop(program);
            Err(error)
        }
    }
}

// A program with the commands of all forms.
fn with_forms<'a>(
    alloc: Global,
    mut program: Command<'a>,
    forms: &[Form],
) -> Result<Command<'a>, AllocError>
    ensures { IfOk result (λ c. app_of c
        ≡ fold with_head (app_of program.entry) (map head_as forms.now)) }
{
    for form in forms {
        program = with_command(program, command_for(alloc, *form))?;
    }
    Ok(program)
}

// The program: its words are those behind its name, a command stands first, and it has no help.
fn program<'a>(alloc: Global) -> Result<Command<'a>, AllocError>
    ensures { IfOk result (λ c. app_of c ≡ program) }
{
    let bare = Command::new(alloc, "cyber")
        .no_binary_name(true)
        .disable_help_flag(true)
        .disable_help_subcommand(true);
    with_forms(alloc, bare, &FORMS)
}

/// The matches of the command that the words name, which `clap` takes.
pub(crate) fn matches_of<'w, 'a>(
    alloc: Global,
    words: &'w [&'a str],
) -> Result<ArgMatches<'w>, WordsError>
    requires taken { takes program (texts words.now) ≡ true }
    requires named { is_some (subcommand_of program (texts words.now)) ≡ true }
    ensures { IfOk result (λ found. Some (rows_of (found_of found))
        ≡ option_map (λ p. p.1) (subcommand_of program (texts words.now))) }
{
    match program(alloc)?.try_get_matches_from(words) {
        Ok(mut matches) => {
            let (_, found) = matches.remove_subcommand().unwrap();
            Ok(found)
        }
        Err(error) => Err(WordsError::of_taken(error)),
    }
}
