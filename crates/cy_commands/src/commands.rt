// Each command, as far as nothing is played.
ghost use Rattle.std.specs.Prelude.{Some};
ghost use Rattle.cy_msg.specs.Request.{HasReader};
ghost use Rattle.cy_commands.specs.Begun.{HasBegun, IsReady};
ghost use Rattle.cy_args.specs.Command as asked;
ghost use Rattle.cy_args.specs.PlayViews.{play_words_of};
ghost use Rattle.cy_args.specs.Views.{command_asked, IsInForm};

mod check;
mod info;
mod make;
mod merge;
mod recover;
mod split;
mod verify;

use crate::apart::ready;
use crate::begun::Begun;
use crate::unset::due_after_failed_setup;
use check::run_check;
use cy_args::{Command, Play};
use cy_store::Store;
use info::run_info;
use make::run_make;
use merge::run_merge;
use recover::run_recover;
use split::run_split;
use std::alloc::Global;
use std::thread::Threads;
use verify::run_verify;

// Reads the files of a play, and sets up what is played.
fn begin_play<'a, S: Store, R: Threads + Sync>(
    rt: &R,
    alloc: Global,
    play: &Play<'a>,
    store: &mut S,
) -> Begun<'a>
    requires { HasReader (play_words_of play.now).request.components }
    ensures ready { IsReady result }
    ensures begun { HasBegun (Some (asked.Play (play_words_of play.now))) (S.shows store.old)
        (S.shows store.new) result }
{
    match ready(rt, alloc, store, play) {
        Ok(replay) => Begun::SetUp(*play, replay),
        Err(error) => Begun::Ended(due_after_failed_setup(alloc, error)),
    }
}

/// Begins a command.
pub fn begin_command<'a, S: Store, R: Threads + Sync>(
    rt: &R,
    alloc: Global,
    command: &Command<'a>,
    store: &mut S,
) -> Begun<'a>
    requires { IsInForm command.now }
    ensures ready { IsReady result }
    ensures begun { HasBegun (Some (command_asked command.now)) (S.shows store.old)
        (S.shows store.new) result }
{
    match command {
        Command::Check(check) => Begun::Ended(run_check(rt, alloc, check, store)),
        Command::Info(info) => Begun::Ended(run_info(rt, alloc, info, store)),
        Command::Play(play) => begin_play(rt, alloc, play, store),
        Command::Make(make) => Begun::Ended(run_make(rt, alloc, make, store)),
        Command::Verify(play) => Begun::Ended(run_verify(rt, alloc, play, store)),
        Command::Recover(recover) => Begun::Ended(run_recover(rt, alloc, recover, store)),
        Command::Split(split) => Begun::Ended(run_split(rt, alloc, split, store)),
        Command::Merge(merge) => Begun::Ended(run_merge(rt, alloc, merge, store)),
    }
}
