// The top calls.
ghost use Rattle.std.specs.Prelude.{ℕ, ◌≡◌, List, Option};
ghost use Rattle.cy_commands.specs.Due.{IsDue};
ghost use Rattle.cy_commands.specs.Line.{bytes_of_line};
ghost use Rattle.cy_args.specs.Asking.{IsReadAs};
ghost use Rattle.cy_args.specs.Command as asked;
ghost use Rattle.cy_args.specs.Command.{Asks, AsksStill, IsAsked};
ghost use Rattle.cyber_cli.specs.Ends.{Answers, IsComplete};

use crate::telling::tell;
use crate::threads::due_played_with_threads;
use cy_args::{CommandWords, WordsError};
use cy_commands::{
    Begun, Due, Status, begin, commands_leave_their_files, due_of, verdicts_are_one,
};
use cy_msg::Text;
use cy_run::Gate;
use cy_store::{Sink, Store};
use std::alloc::Global;
use std::sync::Wait;
use std::thread::Threads;

// Does what words that were read ask for, with threads, and says which status is due.
fn due_with_threads<'s, S: Store, G: Gate, R: Threads + Wait + Sync>(
    rt: &R,
    alloc: Global,
    read: &'s Result<Option<CommandWords<'_>>, WordsError>,
    store: &mut S,
    gate: &G,
) -> Due<'s>
    ensures { (words : List (List ℕ)) (command : Option asked.Command)
        → IsReadAs (Asks words) words read.now → IsAsked (Asks words) command
        → IsDue command (S.shows store.old) (S.shows store.new) result.status
        (bytes_of_line result.line) }
{
    match begin(rt, alloc, read, store) {
        Begun::Ended(due) => due,
        Begun::SetUp(play, replay) => {
            due_played_with_threads(rt, alloc, store, &play, replay, gate)
        }
    }
}

/// Does what the words ask for.
///
/// `play --dag F --record F --out F --trace F`, with `--sched F` and the options `--channels LIST`,
/// `--drop LIST`, `--begin N` and `--end N` that choose messages, plays a record through the
/// components of a DAG, and writes a record of all messages and a trace of all calls. Components
/// run on threads, as the placement says; with `--serial` one thread does all. `--stop NAME@N` ends
/// the component of this name once the messages up to time N are played. `pass RECORD OUT TRACE
/// FROM TO` is a serial play through one component that passes each message of the channel
/// FROM on to the channel TO.
///
/// `check --dag F [--sched F]` prints what configuration files say, and `info FILE` what a record
/// is.
///
/// `make N PREFIX` makes the files of a play of N messages, whose names begin with PREFIX, and
/// plays them.
///
/// `verify --dag F --record F --out F --trace F`, with `--stop` and the options of `play` that
/// choose messages, says whether the trace is that of a lawful run of such a play, and the record
/// that of its tape. It makes no file.
///
/// `recover IN OUT` makes a record of what stands in a file before its first fault, and `split IN
/// OUT` one of those messages of a record that the options of `play` choose. `merge INPUTS OUT`
/// makes one of all messages of several records, in the order of time.
///
/// The text or the line that tells what was done goes to `out`, and one that tells of a refusal or
/// a fault goes to `err`. The answer is one of the seven statuses; its contract says which is due,
/// what stands in the store then, and how it is told. A processor passes `gate` before each call of
/// a component. It may wait.
pub fn cyber<S: Store, O: Sink, E: Sink, G: Gate, R: Threads + Wait + Sync>(
    rt: &R,
    alloc: Global,
    words: &[Text],
    store: &mut S,
    out: &mut O,
    err: &mut E,
    gate: &G,
) -> Status
    ensures answers { (command : Option asked.Command) → IsAsked (Asks words.now) command
        → Answers command (S.shows store.old) (S.shows store.new) record {
          out = O.shows out.old;
          err = E.shows err.old;
        } record { out = O.shows out.new; err = E.shows err.new } result }
    ensures complete { (command : Option asked.Command) → IsAsked (Asks words.now) command
        → IsComplete command (S.shows store.old) (S.shows store.new) record {
          out = O.shows out.old;
          err = E.shows err.old;
        } record { out = O.shows out.new; err = E.shows err.new } result }
{
    let read = CommandWords::asking(alloc, words);
    let due = due_with_threads(rt, alloc, &read, store, gate);
    verdicts_are_one();
    commands_leave_their_files();
    tell(&due, out, err)
}

/// The same without waiting, and with all components on one thread: a `play` that is not serial is
/// of no known form here. A record's bodies may be decoded on threads, which wait for nobody.
pub fn cyber_still<S: Store, O: Sink, E: Sink, R: Threads + Sync>(
    rt: &R,
    alloc: Global,
    words: &[Text],
    store: &mut S,
    out: &mut O,
    err: &mut E,
) -> Status
    ensures answers { (command : Option asked.Command) → IsAsked (AsksStill words.now) command
        → Answers command (S.shows store.old) (S.shows store.new) record {
          out = O.shows out.old;
          err = E.shows err.old;
        } record { out = O.shows out.new; err = E.shows err.new } result }
    ensures complete { (command : Option asked.Command) → IsAsked (AsksStill words.now) command
        → IsComplete command (S.shows store.old) (S.shows store.new) record {
          out = O.shows out.old;
          err = E.shows err.old;
        } record { out = O.shows out.new; err = E.shows err.new } result }
{
    let read = CommandWords::asking_still(alloc, words);
    let due = due_of(rt, alloc, &read, store);
    verdicts_are_one();
    commands_leave_their_files();
    tell(&due, out, err)
}
