// Words that ask for a command.
ghost use Rattle.std.specs.Prelude.{◌≡◌, true, is_some, IfOk};
ghost use Rattle.clap.specs.Walk.{texts};
ghost use Rattle.cy_args.specs.Asking.{IsReadAs};
ghost use Rattle.cy_args.specs.Command.{Asks, AsksStill};
ghost use Rattle.cy_args.specs.private.Scan.{command_of};
ghost use Rattle.cy_args.specs.Views.{command_asked, IsInForm};

use crate::WordsError;
use crate::options::Values;
use crate::program::matches_of;
use crate::words::{Command, asked_of, command_of, still_command_of};
use cy_msg::Text;
use std::alloc::{AllocError, Global};
use std::marker::Model;

/// Words that ask for a command. Contracts see them as their list.
#[derive(Drop)]
pub struct CommandWords<'a> {
    words: Vec<&'a str>,
    ghost asks: { is_some (command_of (texts words.items)) ≡ true },
}

impl<'a> Model for CommandWords<'a> {
    ghost use Rattle.std.specs.Prelude.{List, ℕ};
    ghost use Rattle.clap.specs.Walk.{texts};

    ghost Value = { List (List ℕ) };

    ghost view = { λ s. texts s.words.items };
}

// The texts of words.
fn texts_of<'a>(alloc: Global, words: &'a [Text]) -> Result<Vec<&'a str>, AllocError>
    ensures { IfOk result (λ v. texts v.items ≡ words.now) }
{
    let mut texts = Vec::new(alloc);
    for word in words {
        texts.push(word.as_str())?;
    }
    Ok(texts)
}

impl<'a> CommandWords<'a> {
    // Words that ask for a command.
    fn of(alloc: Global, words: &'a [Text]) -> Result<Self, WordsError>
        requires { is_some (command_of words.now) ≡ true }
        ensures { IfOk result (λ found. found ≡ words.now) }
    {
        let words = texts_of(alloc, words)?;
        Ok(CommandWords { words })
    }

    /// The words, where they ask for a command. Its only error is `Memory`, which comes of no other
    /// words.
    pub fn asking(alloc: Global, words: &'a [Text]) -> Result<Option<Self>, WordsError>
        ensures { IsReadAs (Asks words.now) words.now result }
    {
        if command_of(words).is_none() {
            return Ok(None);
        }
        Ok(Some(CommandWords::of(alloc, words)?))
    }

    /// The same where there are no threads, so that a play has to be serial.
    pub fn asking_still(alloc: Global, words: &'a [Text]) -> Result<Option<Self>, WordsError>
        ensures { IsReadAs (AsksStill words.now) words.now result }
    {
        if still_command_of(words).is_none() {
            return Ok(None);
        }
        Ok(Some(CommandWords::of(alloc, words)?))
    }

    /// The command that they ask for, with the values that `clap` finds in them. Its only error is
    /// `Memory`.
    pub fn command(&self, alloc: Global) -> Result<Command<'_>, WordsError>
        ensures asked { IfOk result (λ c. Asks self.now (command_asked c)) }
        ensures form { IfOk result IsInForm }
    {
        let found = matches_of(alloc, self.words.as_slice())?;
        Ok(asked_of(self.words[0], Values::Kept(&found)).unwrap())
    }
}
