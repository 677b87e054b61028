//! The words of the program `cyber`: which commands there are, and which words ask for each.
//!
//! `specs/Command` says what is asked for: by `specs/Options`, `specs/Words` and the words of each
//! command, `specs/PlayWords`, `specs/PassWords`, `specs/CheckWords`, `specs/MakeWords`,
//! `specs/VerifyWords`, `specs/RecoverWords`, `specs/SplitWords` and `specs/MergeWords`;
//! `specs/FilterWords` says what the options of a filter are.
#![tactic(auto)]

mod check_words;
mod command_words;
mod error;
mod filter_words;
mod laws;
mod machine;
mod make_words;
mod matches;
mod merge_words;
mod options;
mod pass_words;
mod play_words;
mod program;
mod recover_words;
mod split_words;
mod verify_words;
mod words;

pub use check_words::Check;
pub use command_words::CommandWords;
pub use error::WordsError;
pub use filter_words::FilterWords;
pub use laws::{
    merge_files_differ, play_files_differ, recover_files_differ, split_files_differ,
    words_ask_for_one,
};
pub use machine::machine_words;
pub use make_words::Make;
pub use merge_words::Merge;
pub use play_words::Play;
pub use recover_words::Recover;
pub use split_words::Split;
pub use words::{Command, Info};
