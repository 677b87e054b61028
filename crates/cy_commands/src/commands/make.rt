// The command `make`.
ghost use Rattle.std.specs.Prelude.{◌≡◌, ◌≤◌, ◌++◌, ℕ, List, map, codes, IfOk};
ghost use Rattle.std.specs.Str.{IsUtf8};
ghost use Rattle.cy_store.specs.Memory.{shows_of};
ghost use Rattle.cy_make.specs.Inputs.{IsAtFile};
ghost use Rattle.cy_make.specs.Texts.{suffix_of};
ghost use Rattle.cy_setup.specs.declared.error.Refusal.{Refusal};
ghost use Rattle.cy_args.specs.Command as command;
ghost use Rattle.cy_commands.specs.Due.{IsDueFor};
ghost use Rattle.cy_commands.specs.Line.{bytes_of_line};
ghost use Rattle.cy_commands.specs.Lines.{store_line};
ghost use Rattle.cy_commands.specs.private.MakeEnds.{AreOwn, IsMade, IsDueUnmade, names_of, told};
ghost use Rattle.cy_commands.specs.private.MakeEnds.{IsDueUnplayed, play_named, result_suffix};
ghost use Rattle.cy_commands.specs.Commands.MakeWork.{made_files, names_behind, play_made};
ghost use Rattle.cy_commands.specs.PlayEnds.{HasRun};
ghost use Rattle.cy_args.specs.MakeWords.{CanBeMade};
ghost use Rattle.cy_args.specs.PlayViews.{play_words_of};
ghost use Rattle.cy_args.specs.Views.{make_words_of};
ghost use Rattle.wake_core.specs.WorldOf.{plain_of};

use crate::due::{Due, out_of_memory};
use crate::failure::{Failure, File};
use crate::line::Line;
use crate::play::{played_world, read_files, write_both};
use crate::status::Status;
use crate::unset::due_after_failed_setup;
use cy_args::{Make, Play};
use cy_made::made_files_are_accepted;
use cy_make::{Config, Drafts, MakeError, name_with, write_inputs};
use cy_msg::{Components, Text};
use cy_setup::{Replay, STANDARD_OUTPUT, SetupError, test_apart};
use cy_store::Store;
use std::alloc::{AllocError, Global};
use std::thread::Threads;
use wake_core::World;

// The names of the files that are played, and of those that are written for it.
#[derive(Drop)]
struct Names {
    dag: Text,
    input: Text,
    output: Text,
    trace: Text,
}

// A prefix with each of two suffixes behind it.
fn names_with(
    alloc: Global,
    prefix: &str,
    first: &str,
    second: &str,
) -> Result<(Text, Text), AllocError>
    ensures { IfOk result (λ names. (names.0 ≡ prefix.now ++ first.now)
        × (names.1 ≡ prefix.now ++ second.now)) }
{
    let first = name_with(alloc, prefix, first)?;
    Ok((first, name_with(alloc, prefix, second)?))
}

impl Names {
    // Those of a prefix.
    fn of(alloc: Global, prefix: &str) -> Result<Self, AllocError>
        ensures { IfOk result (λ n. n ≡ names_of prefix.now) }
    {
        let (dag, input) = names_with(alloc, prefix, ".dag", ".record")?;
        let (output, trace) = names_with(alloc, prefix, ".out", ".trace")?;
        Ok(Names {
            dag,
            input,
            output,
            trace,
        })
    }

    // A play of all messages by these names.
    fn play(&self) -> Play<'_>
        ensures { play_words_of result ≡ play_named self.now }
    {
        let dag = self.dag.as_str();
        Play::of_all(
            Components::Files { dag, sched: None },
            self.input.as_str(),
            self.output.as_str(),
            self.trace.as_str(),
        )
    }
}

// Want of memory, where no file can be in the way.
fn memory_for_files(error: MakeError) -> AllocError
    requires { IsAtFile error → ⊥ }
{
    match error {
        MakeError::Memory => AllocError,
        MakeError::Config(_) => unreachable!(),
        MakeError::Record => unreachable!(),
    }
}

// Want of memory, where no file can be refused or missed.
fn memory_for_set_up(error: SetupError) -> AllocError
    requires refused { (refusal : Refusal) → error ≡ SetupError.Refused refusal → ⊥ }
    requires failed { (file : List ℕ) → error ≡ SetupError.Store file → ⊥ }
{
    match error {
        SetupError::Memory => AllocError,
        SetupError::Refused(_) => unreachable!(),
        SetupError::Store { .. } => unreachable!(),
    }
}

// Makes the files in memory. No call of drafts fails.
fn draft(alloc: Global, make: &Make) -> Result<Drafts, AllocError>
    requires { make.now.count ≤ 1048576 }
    ensures { IfOk result (λ drafts. shows_of drafts
        ≡ told (made_files (make_words_of make.now))) }
{
    let mut drafts = Drafts::new(alloc);
    let written = write_inputs(alloc, &mut drafts, make.count, make.prefix);
    drafts.have_no_faults();
    match written {
        Ok(()) => Ok(drafts),
        Err(error) => {
            drop(drafts);
            Err(memory_for_files(error))
        }
    }
}

// A prefix is a text.
fn is_text(prefix: &str)
    ensures { IsUtf8 prefix.now }
{}

// Makes the files in memory, and sets up a replay of them.
fn set_up_made<R: Threads + Sync>(
    rt: &R,
    alloc: Global,
    make: &Make,
    play: &Play,
) -> Result<Replay, AllocError>
    requires asked { CanBeMade (make_words_of make.now) }
    requires play { play_words_of play.now ≡ play_made (make_words_of make.now) }
    ensures made { IfOk result (IsMade (make_words_of make.now)) }
{
    let mut drafts = draft(alloc, make)?;
    let replay = read_files(rt, alloc, &mut drafts, play);
    drafts.have_no_faults();
    drop(drafts);
    is_text(make.prefix);
    made_files_are_accepted();
    match replay {
        Ok(replay) => Ok(replay),
        // None of these texts is refused, and no call of drafts fails.
        Err(error) => Err(memory_for_set_up(error)),
    }
}

// What stands behind the prefix in the line that tells of a configuration file.
fn config_failed(config: Config) -> &'static str
    ensures { result.now ≡ suffix_of config ++ codes ": the store failed\n" }
{
    match config {
        Config::Adder => ".adder.conf: the store failed\n",
        Config::Band => ".band.conf: the store failed\n",
        Config::Last8 => ".last8.conf: the store failed\n",
        Config::Late => ".late.conf: the store failed\n",
        Config::Dag => ".dag: the store failed\n",
    }
}

// The same of a file that is written for the play.
fn result_failed(file: File) -> &'static str
    ensures { result.now ≡ result_suffix file ++ codes ": the store failed\n" }
{
    match file {
        File::Output => ".out: the store failed\n",
        File::Trace => ".trace: the store failed\n",
    }
}

// A call of the store failed at a file, of which the line tells with what stands behind the prefix.
fn file_failed<'a>(make: &Make<'a>, told: &'static str) -> Due<'a>
    ensures status { result.status ≡ Status.StoreFault }
    ensures line { (suffix : List ℕ) → told.now ≡ suffix ++ codes ": the store failed\n"
        → bytes_of_line result.line ≡ store_line (make.now.prefix.now ++ suffix) }
{
    Due {
        status: Status::StoreFault,
        line: Line::Named(make.prefix, told),
    }
}

// What is due where a file of the play was not made.
fn due_unmade<'a>(make: &Make<'a>, error: MakeError) -> Due<'a>
    ensures { IsDueUnmade (make_words_of make.now) error result.status (bytes_of_line result.line) }
{
    match error {
        MakeError::Config(config) => file_failed(make, config_failed(config)),
        MakeError::Record => file_failed(make, ".record: the store failed\n"),
        MakeError::Memory => out_of_memory(),
    }
}

// What is due where the play was not written.
fn due_unplayed<'a>(make: &Make<'a>, failure: Failure) -> Due<'a>
    ensures { IsDueUnplayed (make_words_of make.now) failure result.status
        (bytes_of_line result.line) }
{
    match failure {
        Failure::Store(file) => file_failed(make, result_failed(file)),
        Failure::Memory => out_of_memory(),
    }
}

// What is due once a replay of the files that are made was played: these files are written, and
// behind them its record and its trace.
fn due_made<'a, S: Store, R: Threads + Sync>(
    rt: &R,
    alloc: Global,
    make: &Make<'a>,
    play: &Play,
    store: &mut S,
    replay: Replay,
    world: &World,
) -> Due<'a>
    requires asked { CanBeMade (make_words_of make.now) }
    requires play { play_words_of play.now ≡ play_made (make_words_of make.now) }
    requires made { IsMade (make_words_of make.now) replay }
    requires run { HasRun (play_words_of play.now).serial replay (plain_of world.now) }
    ensures { IsDueFor (command.Make (make_words_of make.now)) (S.shows store.old)
        (S.shows store.new) result.status (bytes_of_line result.line) }
{
    if let Err(error) = write_inputs(alloc, store, make.count, make.prefix) {
        drop(replay);
        return due_unmade(make, error);
    }
    match write_both(rt, alloc, store, play, replay, world) {
        Ok(line) => Due {
            status: Status::Done,
            line: Line::Made(line),
        },
        Err(failure) => due_unplayed(make, failure),
    }
}

// What is due for `make` with these words, by a play of the files that it makes.
fn make_and_play<'a, S: Store, R: Threads + Sync>(
    rt: &R,
    alloc: Global,
    make: &Make<'a>,
    play: &Play,
    store: &mut S,
) -> Due<'a>
    requires asked { CanBeMade (make_words_of make.now) }
    requires play { play_words_of play.now ≡ play_made (make_words_of make.now) }
    ensures { IsDueFor (command.Make (make_words_of make.now)) (S.shows store.old)
        (S.shows store.new) result.status (bytes_of_line result.line) }
{
    let Ok(replay) = set_up_made(rt, alloc, make, play) else {
        return out_of_memory();
    };
    let Ok(world) = played_world(alloc, play, &replay) else {
        drop(replay);
        return out_of_memory();
    };
    let due = due_made(rt, alloc, make, play, store, replay, &world);
    drop(world);
    due
}

// The names that begin with a prefix and end with each of these.
fn names_ending(alloc: Global, prefix: &str, suffixes: &[&str]) -> Result<Vec<Text>, AllocError>
    ensures { IfOk result (λ names. names.items
        ≡ map (λ suffix. prefix.now ++ suffix.now) suffixes.now) }
{
    let mut names = Vec::new(alloc);
    for suffix in suffixes {
        names.push(name_with(alloc, prefix, suffix)?)?;
    }
    Ok(names)
}

// The names of all files that `make` writes.
fn names_made(alloc: Global, prefix: &str) -> Result<Vec<Text>, AllocError>
    ensures { IfOk result (λ names. names.items ≡ names_behind prefix.now) }
{
    let suffixes = [
        ".adder.conf",
        ".band.conf",
        ".last8.conf",
        ".late.conf",
        ".dag",
        ".record",
        ".out",
        ".trace",
    ];
    names_ending(alloc, prefix, &suffixes)
}

// Tests that none of them is another one's file, or standard output.
fn test_names<S: Store>(
    alloc: Global,
    store: &mut S,
    names: &[Text],
    prefix: &str,
) -> Result<(), SetupError>
    requires { names.now ≡ names_behind prefix.now }
    ensures same { S.shows store.new ≡ S.shows store.old }
    ensures tested { AreOwn (S.shows store.old).files names.now result }
{
    let mut others = vec![in alloc; STANDARD_OUTPUT]?;
    for name in names {
        if let Err(error) = test_apart(alloc, store, name.as_str(), others.as_slice()) {
            return Err(error);
        }
        others.push(name.as_str())?;
    }
    Ok(())
}

// The same of the names for a prefix.
fn test_made<S: Store>(alloc: Global, store: &mut S, prefix: &str) -> Result<(), SetupError>
    ensures same { S.shows store.new ≡ S.shows store.old }
    ensures tested { AreOwn (S.shows store.old).files (names_behind prefix.now) result }
{
    let names = names_made(alloc, prefix)?;
    let tested = test_names(alloc, store, names.as_slice(), prefix);
    drop(names);
    tested
}

// What is due for `make` with these words, where each name is another file's.
fn make_apart<'a, S: Store, R: Threads + Sync>(
    rt: &R,
    alloc: Global,
    make: &Make<'a>,
    store: &mut S,
) -> Due<'a>
    requires asked { CanBeMade (make_words_of make.now) }
    ensures { IsDueFor (command.Make (make_words_of make.now)) (S.shows store.old)
        (S.shows store.new) result.status (bytes_of_line result.line) }
{
    let Ok(names) = Names::of(alloc, make.prefix) else {
        return out_of_memory();
    };
    let due = make_and_play(rt, alloc, make, &names.play(), store);
    drop(names);
    due
}

/// What is due for `make` with these words: it makes the files of a play of so many messages in
/// memory, sets the play up from these texts and plays it. Then it writes the files, and behind
/// them the record of all messages and the trace of all calls. It reads no file of the store.
pub fn run_make<'a, S: Store, R: Threads + Sync>(
    rt: &R,
    alloc: Global,
    make: &Make<'a>,
    store: &mut S,
) -> Due<'a>
    requires asked { CanBeMade (make_words_of make.now) }
    ensures { IsDueFor (command.Make (make_words_of make.now)) (S.shows store.old)
        (S.shows store.new) result.status (bytes_of_line result.line) }
{
    match test_made(alloc, store, make.prefix) {
        Ok(()) => make_apart(rt, alloc, make, store),
        Err(error) => due_after_failed_setup(alloc, error),
    }
}
