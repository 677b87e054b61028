// The command `verify`.
ghost use Rattle.std.specs.Prelude.{◌≡◌, IfOk, IfErr, IsOkUnless, length};
ghost use Rattle.cy_msg.specs.declared.play_list.PlayList.{PlayList};
ghost use Rattle.cy_msg.specs.Request.{HasReader};
ghost use Rattle.cy_setup.specs.Setup.{IsSetUp, Replayed, replayed};
ghost use Rattle.cy_report.specs.Summary.{lawful_line as line_by};
ghost use Rattle.cy_verify.specs.Verdict.{IsOfRun};
ghost use Rattle.cy_args.specs.Command as command;
ghost use Rattle.cy_args.specs.PlayViews.{play_words_of};
ghost use Rattle.cy_commands.specs.Commands.VerifyWork.{IsReadToVerify, IsSetOut};
ghost use Rattle.cy_commands.specs.Commands.VerifyWork.{IsVerified, Judged};
ghost use Rattle.cy_commands.specs.Due.{IsDueFor};
ghost use Rattle.cy_commands.specs.Line.{bytes_of_line};
ghost use Rattle.cy_commands.specs.private.VerifyEnds.{ComesBeside, Finds, IsJudgedFile};
ghost use Rattle.cy_commands.specs.private.VerifyEnds.{IsLineBeside, IsRecordIn, IsRunIn};
ghost use Rattle.cy_commands.specs.private.VerifyEnds.{IsTraceIn, IsUnlawful, IsVerifiedLine};
ghost use Rattle.cy_commands.specs.private.VerifyEnds.{task_of};

use crate::due::Due;
use crate::line::Line;
use crate::play::read_files;
use crate::status::Status;
use crate::unset::due_after_failed_setup;
use cy_args::Play;
use cy_msg::{Bytes, PlayList, Token};
use cy_recording::{Played, SameError, played_places_are_there, same_record};
use cy_report::lawful_line;
use cy_setup::{Fault, Replay, SetupError, failed, read_trace_file, refused};
use cy_store::Store;
use cy_trace::{Trace, TraceError};
use cy_trace_read::{read_trace, texts_tell_traces};
use cy_trace_text::{runs_are_traces, traces_of_runs_fit};
use cy_verify::{Told, Verdict, VerifyError, verify};
use std::alloc::Global;
use std::mem::size_of;
use std::thread::Threads;
use wake_core::{laws, planned};

// What holds of all files of a play that are accepted. Nothing runs.
fn is_set_out(play: &Play, replay: &Replay)
    requires { IsSetUp (play_words_of play.now).request replay.now }
    ensures { IsSetOut (play_words_of play.now) (replayed replay.now) replay.now.list }
{
    let list = &replay.list;
    traces_of_runs_fit(&replay.wiring, list.tokens.as_slice(), list.shadowed);
}

// How many bytes the tape of a run takes at most.
fn tape_size(play: &Play, replay: &Replay) -> usize
    requires { IsSetUp (play_words_of play.now).request replay.now }
{
    let most = planned(&replay.wiring, replay.counts.as_slice()) as usize;
    most.saturating_mul(size_of::<Token>())
}

// Takes room for a text until it has so many bytes, where there is memory: what isn't used of it is
// never touched.
fn take_room(text: &mut Vec<u8>, size: usize)
    ensures { text.new.items ≡ text.old.items }
{
    let more = size.saturating_sub(text.len());
    match text.reserve_exact(more) {
        Ok(()) | Err(_) => {}
    }
}

// Reads the trace. Its text takes as much room as the tape of the run, which gets that room once
// the text is given back; else it would need more beside it.
fn trace_of<S: Store>(
    alloc: Global,
    play: &Play,
    store: &mut S,
    tape_size: usize,
) -> Result<Trace, SetupError>
    ensures { (read : Replayed) (list : PlayList) → Finds
        (IsTraceIn (play_words_of play.now) (S.shows store.old))
        (Judged (play_words_of play.now) read list (S.shows store.old).files)
        (λ file. file ≡ (play_words_of play.now).trace)
        (S.shows store.old) (S.shows store.new) result }
{
    let mut text = read_trace_file(alloc, store, play.trace)?;
    take_room(&mut text, tape_size);
    let trace = read_trace(alloc, text.as_slice());
    drop(text);
    match trace {
        Ok(trace) => Ok(trace),
        Err(TraceError::Bad { line }) => Err(refused(alloc, play.trace, Fault::BadLine { line })),
        Err(TraceError::Memory) => Err(SetupError::Memory),
    }
}

// What a trace tells of its run, or that no lawful run has it.
fn run_of(alloc: Global, play: &Play, replay: &Replay, trace: &Trace) -> Result<Told, SetupError>
    requires { IsSetUp (play_words_of play.now).request replay.now }
    ensures told { IfOk result (IsOfRun (task_of replay.now) trace.now) }
    ensures error { IfErr result (IsUnlawful (play_words_of play.now) replay.now trace.now) }
{
    let counts = replay.counts.as_slice();
    match verify(
        alloc,
        &replay.wiring,
        counts,
        &replay.list,
        replay.stop,
        trace,
    ) {
        Ok(Verdict::Lawful(told)) => Ok(told),
        Ok(Verdict::Unlawful) => Err(refused(alloc, play.trace, Fault::Unlawful)),
        Err(VerifyError::Memory) => Err(SetupError::Memory),
    }
}

// Reads the trace: what it tells of its run.
fn judged_run<S: Store>(
    alloc: Global,
    play: &Play,
    store: &mut S,
    replay: &Replay,
) -> Result<Told, SetupError>
    requires set_up { IsSetUp (play_words_of play.now).request replay.now }
    requires set_out { IsSetOut (play_words_of play.now) (replayed replay.now) replay.now.list }
    ensures { Finds (IsRunIn (play_words_of play.now) replay.now (S.shows store.old))
        (ComesBeside (play_words_of play.now) replay.now (S.shows store.old))
        (λ file. file ≡ (play_words_of play.now).trace)
        (S.shows store.old) (S.shows store.new) result }
{
    texts_tell_traces();
    runs_are_traces();
    let trace = trace_of(alloc, play, store, tape_size(play, replay))?;
    let told = run_of(alloc, play, replay, &trace);
    drop(trace);
    told
}

// Whether the record is that of the run's tape.
fn compare<S: Store>(
    alloc: Global,
    play: &Play,
    store: &mut S,
    replay: &Replay,
    told: &Told,
) -> Result<(), SetupError>
    requires set_up { IsSetUp (play_words_of play.now).request replay.now }
    requires told { IsRunIn (play_words_of play.now) replay.now (S.shows store.old) told.now }
    ensures { Finds
        (λ _. IsRecordIn (play_words_of play.now) replay.now (S.shows store.old) told.now.tape)
        (ComesBeside (play_words_of play.now) replay.now (S.shows store.old))
        (λ file. file ≡ (play_words_of play.now).output)
        (S.shows store.old) (S.shows store.new) result }
{
    played_places_are_there();
    laws::places();
    let played = Played {
        whole: &replay.recorded,
        wiring: &replay.wiring,
        list: &replay.list,
    };
    match same_record(alloc, store, play.output, &played, told.tape.as_slice()) {
        Ok(None) => Ok(()),
        Ok(Some(place)) => Err(refused(alloc, play.output, Fault::Differs { place })),
        Err(SameError::Store) => Err(failed(alloc, play.output)),
        Err(SameError::Memory) => Err(SetupError::Memory),
    }
}

// The line that tells of the run.
fn tell(alloc: Global, list: &PlayList, told: &Told) -> Result<Bytes, SetupError>
    ensures line { IfOk result (λ line. line ≡ line_by (length list.now.tokens)
        list.now.shadowed told.now.calls (length told.now.tape)) }
    ensures only_memory { IsOkUnless result SetupError.Memory }
{
    let played = list.tokens.as_slice().len() as u64;
    let written = told.tape.as_slice().len() as u64;
    match lawful_line(alloc, played, list.shadowed, told.calls, written) {
        Ok(line) => Ok(line),
        Err(TraceError::Memory) => Err(SetupError::Memory),
        Err(TraceError::Bad { .. }) => unreachable!(),
    }
}

// The line that tells of the run, where the record is that of its tape.
fn compared<S: Store>(
    alloc: Global,
    play: &Play,
    store: &mut S,
    replay: &Replay,
    told: &Told,
) -> Result<Bytes, SetupError>
    requires set_up { IsSetUp (play_words_of play.now).request replay.now }
    requires told { IsRunIn (play_words_of play.now) replay.now (S.shows store.old) told.now }
    ensures { Finds (IsLineBeside (play_words_of play.now) replay.now (S.shows store.old))
        (ComesBeside (play_words_of play.now) replay.now (S.shows store.old))
        (λ file. file ≡ (play_words_of play.now).output)
        (S.shows store.old) (S.shows store.new) result }
{
    compare(alloc, play, store, replay, told)?;
    tell(alloc, &replay.list, told)
}

// The line that tells of the run, where the trace is that of a lawful one.
fn judged<S: Store>(
    alloc: Global,
    play: &Play,
    store: &mut S,
    replay: &Replay,
) -> Result<Bytes, SetupError>
    requires set_up { IsSetUp (play_words_of play.now).request replay.now }
    requires set_out { IsSetOut (play_words_of play.now) (replayed replay.now) replay.now.list }
    ensures { Finds (IsLineBeside (play_words_of play.now) replay.now (S.shows store.old))
        (ComesBeside (play_words_of play.now) replay.now (S.shows store.old))
        (IsJudgedFile (play_words_of play.now)) (S.shows store.old) (S.shows store.new) result }
{
    let told = judged_run(alloc, play, store, replay)?;
    let line = compared(alloc, play, store, replay, &told);
    drop(told);
    line
}

// Reads all files and judges them.
fn verified<S: Store, R: Threads + Sync>(
    rt: &R,
    alloc: Global,
    play: &Play,
    store: &mut S,
) -> Result<Bytes, SetupError>
    requires { HasReader (play_words_of play.now).request.components }
    ensures { Finds (IsVerifiedLine (play_words_of play.now) (S.shows store.old))
        (IsVerified (play_words_of play.now) (S.shows store.old).files)
        (IsReadToVerify (play_words_of play.now) (S.shows store.old).files)
        (S.shows store.old) (S.shows store.new) result }
{
    let replay = read_files(rt, alloc, store, play)?;
    is_set_out(play, &replay);
    let line = judged(alloc, play, store, &replay);
    drop(replay);
    line
}

/// What is due for `verify` of a trace and a record that are said to be of a play: the numbers of
/// the run, where a lawful one has that trace and its tape that record; or why not. Nothing is
/// written to the store.
pub fn run_verify<'a, S: Store, R: Threads + Sync>(
    rt: &R,
    alloc: Global,
    play: &Play<'a>,
    store: &mut S,
) -> Due<'a>
    requires { HasReader (play_words_of play.now).request.components }
    ensures { IsDueFor (command.Verify (play_words_of play.now)) (S.shows store.old)
        (S.shows store.new) result.status (bytes_of_line result.line) }
{
    match verified(rt, alloc, play, store) {
        Ok(line) => Due {
            status: Status::Done,
            line: Line::Made(line),
        },
        Err(error) => due_after_failed_setup(alloc, error),
    }
}
