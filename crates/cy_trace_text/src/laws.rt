// What holds of runs and of the texts of their traces.
ghost use Rattle.cy_trace_text.specs.Laws.{RunsAreTraces, RunsFit, RunsReadBack};
ghost use Rattle.cy_trace_text.specs.Telling.{TextsTellRuns, TracesTellRuns};

use cy_comp::outcomes_are_answers;
use wake_core::laws;

/// What `trace_text` writes of a run is the text of its trace.
pub fn runs_are_traces()
    ensures { RunsAreTraces }
{}

/// The numbers of every sound world of a wiring fit those of a trace, so that what `trace_text`
/// writes of it is read back.
pub fn runs_are_read_back()
    ensures fit { RunsFit }
    ensures back { RunsReadBack }
{
    outcomes_are_answers();
    laws::places();
    laws::bounds();
}

/// The trace of a lawful run tells the run, and so does its text: two lawful runs of one list of
/// messages over one wiring that have one trace have come to the same.
pub fn traces_tell_runs()
    ensures runs { TracesTellRuns }
    ensures texts { TextsTellRuns }
{
    outcomes_are_answers();
    laws::places();
    laws::bounds();
}
