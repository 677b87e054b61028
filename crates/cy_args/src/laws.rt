// What holds of all words: proved here, and nothing to run.
ghost use Rattle.cy_args.specs.Command.{AskForOne, PlayFilesDiffer, RecoverFilesDiffer};
ghost use Rattle.cy_args.specs.Command.{MergeFilesDiffer, SplitFilesDiffer};

/// All words ask for just one thing: for one command, or for none.
pub fn words_ask_for_one()
    ensures { AskForOne }
{}

/// A play writes two files of different names, whatever words ask for it.
pub fn play_files_differ()
    ensures { PlayFilesDiffer }
{}

/// A recovery writes another file than it reads, whatever words ask for it.
pub fn recover_files_differ()
    ensures { RecoverFilesDiffer }
{}

/// And so does a split.
pub fn split_files_differ()
    ensures { SplitFilesDiffer }
{}

/// A merge writes another file than each of those that it reads.
pub fn merge_files_differ()
    ensures { MergeFilesDiffer }
{}
