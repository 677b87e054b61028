// What holds of all that is asked for: proved here, and nothing to run.
ghost use Rattle.cy_commands.specs.Commands.MakeWork.{AskedTextsAreShort};
ghost use Rattle.cy_commands.specs.Commands.VerifyWork.{VerdictsAreOne};
ghost use Rattle.cy_commands.specs.Stands.{LeavesItsFiles};

use cy_args::play_files_differ;
use cy_make::made_texts_are_short;
use cy_trace_read::{first_bad_is_one, texts_tell_traces};
use cy_trace_text::{runs_are_traces, traces_tell_runs};
use cy_writer::{
    record_writes_leave_the_record, stopped_writes_leave_a_front, stopped_writes_leave_other_files,
};

/// Whatever words ask for a `make`, each configuration file that it plays is short enough to be
/// read.
pub fn asked_texts_are_short()
    ensures { AskedTextsAreShort }
{
    made_texts_are_short();
}

/// Whatever the files are, `verify` comes to one status of them.
pub fn verdicts_are_one()
    ensures { VerdictsAreOne }
{
    traces_tell_runs();
    texts_tell_traces();
    runs_are_traces();
    first_bad_is_one();
}

/// Whatever is due, every file but those that the command makes is as it was, and each record among
/// these is as far as its writing had come.
pub fn commands_leave_their_files()
    ensures { LeavesItsFiles }
{
    play_files_differ();
    record_writes_leave_the_record();
    stopped_writes_leave_a_front();
    stopped_writes_leave_other_files();
}
