// What holds of texts that are read.
ghost use Rattle.cy_trace_read.specs.Laws.{FirstBadIsOne, LinesAreSpelled, LinesReadBack};
ghost use Rattle.cy_trace_read.specs.Laws.{TextsOfTracesAreGood, TextsTellTraces};

/// A line that is written is read back, and whatever is read is just how a line is written.
pub fn lines_read_back()
    ensures back { LinesReadBack }
    ensures spelled { LinesAreSpelled }
{}

/// No two traces have one text.
pub fn texts_tell_traces()
    ensures { TextsTellTraces }
{}

/// A text has at most one first bad line, and the text of a trace has none.
pub fn first_bad_is_one()
    ensures one { FirstBadIsOne }
    ensures good { TextsOfTracesAreGood }
{}
