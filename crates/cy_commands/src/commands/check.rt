// The command `check`.
ghost use Rattle.std.specs.Prelude.{◌≡◌, IfOk, IsOkUnless};
ghost use Rattle.cy_sched.specs.SchedFile.{IsPlaceable};
ghost use Rattle.cy_setup.specs.Comes.{ComesTo};
ghost use Rattle.cy_setup.specs.Configuration.{IsAsked};
ghost use Rattle.cy_setup.specs.Steps.{configured};
ghost use Rattle.cy_commands.specs.Commands.CheckWork.{checked_in, unknown_in};
ghost use Rattle.cy_args.specs.Command as command;
ghost use Rattle.cy_commands.specs.Due.{IsDueFor};
ghost use Rattle.cy_commands.specs.Line.{bytes_of_line};
ghost use Rattle.cy_commands.specs.private.CheckEnds.{IsTextOf};
ghost use Rattle.cy_args.specs.Views.{check_words_of};

use crate::due::{Due, out_of_memory};
use crate::line::Line;
use crate::status::Status;
use crate::unset::due_after_failed_setup;
use cy_args::Check;
use cy_msg::{Bytes, Text};
use cy_report::{SchedulerFile, check_text};
use cy_sched::Sched;
use cy_setup::{Configuration, SetupError, place_components, read_configuration, wire_components};
use cy_store::Store;
use std::alloc::Global;
use std::thread::Threads;

// Reads the files, and wires their components over no channels of a record.
fn read_files<S: Store, R: Threads + Sync>(
    rt: &R,
    alloc: Global,
    store: &mut S,
    check: &Check,
) -> Result<Configuration, SetupError>
    ensures comes { ComesTo configured (checked_in (check_words_of check.now))
        (IsAsked check.now.dag.now (check_words_of check.now).sched (S.shows store.old).files)
        (S.shows store.old) (S.shows store.new) result }
    ensures placeable { IfOk result (λ c. IsPlaceable c.sched) }
{
    let configuration = read_configuration(rt, alloc, store, check.dag, check.sched)?;
    match wire_components(alloc, check.dag, &configuration, &[]) {
        Ok(wiring) => {
            drop(wiring);
            Ok(configuration)
        }
        Err(error) => {
            drop(configuration);
            Err(error)
        }
    }
}

// The fields of a scheduler file that aren't known.
fn unknown_in(sched: &Sched) -> &[Text]
    ensures { result.now ≡ unknown_in sched.now }
{
    match sched {
        Sched::Classic { unknown, .. } => unknown.as_slice(),
        Sched::Choreography { unknown, .. } => unknown.as_slice(),
    }
}

// The text of what was read.
fn text_of(alloc: Global, check: &Check, configuration: &Configuration) -> Result<Bytes, SetupError>
    requires { IsPlaceable configuration.now.sched }
    ensures text { IfOk result
        (IsTextOf (check_words_of check.now) (configured configuration.now)) }
    ensures only_memory { IsOkUnless result SetupError.Memory }
{
    let placement = place_components(alloc, configuration)?;
    let scheduler = SchedulerFile {
        file: check.sched.unwrap_or(""),
        unknown: unknown_in(&configuration.sched),
    };
    let configs = configuration.configs.as_slice();
    match check_text(
        alloc,
        check.dag,
        &configuration.dag,
        configs,
        &placement,
        scheduler,
    ) {
        Ok(text) => Ok(text),
        Err(_) => Err(SetupError::Memory),
    }
}

/// What is due for `check` of a DAG file and a scheduler file: the text of what they say, or why
/// they are not accepted. Nothing is written to the store.
pub fn run_check<'a, S: Store, R: Threads + Sync>(
    rt: &R,
    alloc: Global,
    check: &Check<'a>,
    store: &mut S,
) -> Due<'a>
    ensures { IsDueFor (command.Check (check_words_of check.now)) (S.shows store.old)
        (S.shows store.new) result.status (bytes_of_line result.line) }
{
    let configuration = match read_files(rt, alloc, store, check) {
        Ok(configuration) => configuration,
        Err(error) => return due_after_failed_setup(alloc, error),
    };
    let text = text_of(alloc, check, &configuration);
    drop(configuration);
    match text {
        Ok(text) => Due {
            status: Status::Done,
            line: Line::Made(text),
        },
        Err(error) => {
            drop(error);
            out_of_memory()
        }
    }
}
