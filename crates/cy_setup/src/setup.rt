// Sets up a replay.
ghost use Rattle.std.specs.Prelude.{◌≡◌, ◌≤◌, length, option_map, IfOk};
ghost use Rattle.cy_sched.specs.SchedFile.{IsPlaceable};
ghost use Rattle.cy_setup.specs.Comes.{ComesTo, IsJudged};
ghost use Rattle.cy_msg.specs.Request.{HasReader, OfFiles, OfPass, request_of};
ghost use Rattle.cy_setup.specs.Setup.{IsAsked, IsAskedBy, IsSetUp};
ghost use Rattle.cy_setup.specs.Setup.{configured_in, judged_in, passed_in, replay_in, replayed};
ghost use Rattle.cy_setup.specs.private.Judged.{judged_as, judged_over, replay_of};
ghost use Rattle.cy_setup.specs.Listing.{channels_of};
ghost use Rattle.cy_setup.specs.Steps.{configured};
ghost use Rattle.cy_setup.specs.Wiring.{IsWiredBy, wired_by, wired_of, wiring_in};

use crate::counts::{counts_of, test_planned};
use crate::listing::{channel_names, list_all, read_record};
use crate::passing::pass_configuration;
use crate::stops::{stop_of, test_stop};
use crate::{Configuration, SetupError, place_components, read_configuration, wire_components};
use cy_comp::Wiring;
use cy_msg::{Components, Items, Placement, PlayList, Request, Stop};
use cy_reader::Record;
use cy_store::Store;
use std::alloc::Global;
use std::thread::Threads;
use wake_core::laws;

/// A replay that is set up: all that a run needs.
#[derive(Drop)]
pub struct Replay {
    /// What the configuration files say.
    pub configuration: Configuration,
    /// The record.
    pub recorded: Record,
    /// The components over the channels of the record, and those of their own.
    pub wiring: Wiring,
    /// The contexts in which the components run.
    pub placement: Placement,
    /// The messages and ticks that are played.
    pub list: PlayList,
    /// The stop, where one was asked for.
    pub stop: Option<Stop>,
    /// How many messages and ticks are played on each channel, by its number.
    pub counts: Items<u32>,
}

// What is judged of a configuration and a record over a wiring: all that a replay has beside them.
#[derive(Drop)]
struct Judged {
    placement: Placement,
    list: PlayList,
    stop: Option<Stop>,
    counts: Items<u32>,
}

// The wiring of a configuration's components over the channels of a record.
fn wire_recorded(
    alloc: Global,
    file: &str,
    configuration: &Configuration,
    recorded: &Record,
) -> Result<Wiring, SetupError>
    ensures { IsWiredBy (wiring_in file.now (channels_of recorded.now)
        (configured configuration.now)) result }
{
    let channels = channel_names(alloc, recorded)?;
    wire_components(alloc, file, configuration, &channels)
}

// Judges what was read, once its components are wired. A fault of a stop is one of the file that is
// named for it.
fn judge_parts(
    alloc: Global,
    file: &str,
    request: &Request,
    configuration: &Configuration,
    recorded: &Record,
    wiring: &Wiring,
) -> Result<Judged, SetupError>
    requires placeable { IsPlaceable configuration.now.sched }
    requires wired { wired_of (channels_of recorded.now) (configured configuration.now)
        ≡ wired_by wiring.now }
    ensures judged { IsJudged (judged_as configuration.now recorded.now wiring.now)
        (judged_over file.now (request_of request.now) (configured configuration.now)
        recorded.now (wired_by wiring.now)) result }
    ensures set_up { IfOk result (λ j. IsSetUp (request_of request.now)
        (replay_of configuration.now recorded.now wiring.now j)) }
{
    test_stop(alloc, file, request.stop, wiring)?;
    let list = list_all(alloc, request.input, request.filter, recorded, wiring)?;
    let counts = counts_of(alloc, wiring.names.count(), list.tokens.as_slice())?;
    test_planned(alloc, request.input, wiring, &counts)?;
    let stop = stop_of(request.stop, wiring, list.tokens.as_slice());
    let placement = place_components(alloc, configuration)?;
    laws::put();
    Ok(Judged {
        placement,
        list,
        stop,
        counts: Items::new(counts),
    })
}

// Judges what was read and wired, and makes what a run needs of it.
fn judge_wired(
    alloc: Global,
    file: &str,
    request: &Request,
    configuration: Configuration,
    recorded: Record,
    wiring: Wiring,
) -> Result<Replay, SetupError>
    requires placeable { IsPlaceable configuration.sched }
    requires wired { wired_of (channels_of recorded) (configured configuration)
        ≡ wired_by wiring }
    ensures judged { IsJudged replayed (judged_over file.now (request_of request.now)
        (configured configuration) recorded (wired_by wiring)) result }
    ensures set_up { IfOk result (IsSetUp (request_of request.now)) }
{
    match judge_parts(alloc, file, request, &configuration, &recorded, &wiring) {
        Ok(judged) => Ok(Replay {
            configuration,
            recorded,
            wiring,
            placement: judged.placement,
            list: judged.list,
            stop: judged.stop,
            counts: judged.counts,
        }),
        Err(error) => {
            drop(wiring);
            drop(recorded);
            drop(configuration);
            Err(error)
        }
    }
}

// Judges what was read, and makes what a run needs of it. A fault of the wiring or of a stop is one
// of the file that is named for it.
fn judge(
    alloc: Global,
    file: &str,
    request: &Request,
    configuration: Configuration,
    recorded: Record,
) -> Result<Replay, SetupError>
    requires { IsPlaceable configuration.sched }
    ensures judged { IsJudged replayed
        (judged_in file.now (request_of request.now) (configured configuration) recorded) result }
    ensures set_up { IfOk result (IsSetUp (request_of request.now)) }
{
    match wire_recorded(alloc, file, &configuration, &recorded) {
        Ok(wiring) => judge_wired(alloc, file, request, configuration, recorded, wiring),
        Err(error) => {
            drop(recorded);
            drop(configuration);
            Err(error)
        }
    }
}

// Sets up a replay through the components of configuration files.
fn set_up_files<S: Store, R: Threads + Sync>(
    rt: &R,
    alloc: Global,
    store: &mut S,
    dag: &str,
    sched: Option<&str>,
    request: &Request,
) -> Result<Replay, SetupError>
    ensures comes { ComesTo replayed
        (configured_in dag.now (option_map (λ n. n.now) sched.entry) (request_of request.now))
        (IsAskedBy (OfFiles dag.now (option_map (λ n. n.now) sched.entry)) request.now.input.now
        (S.shows store.old).files)
        (S.shows store.old) (S.shows store.new) result }
    ensures set_up { IfOk result (IsSetUp (request_of request.now)) }
{
    let configuration = read_configuration(rt, alloc, store, dag, sched)?;
    match read_record(rt, alloc, store, request.input) {
        Ok(recorded) => judge(alloc, dag, request, configuration, recorded),
        Err(error) => {
            drop(configuration);
            Err(error)
        }
    }
}

// Sets up a replay through one component that passes messages on. No file names it, so a fault of
// the wiring or of a stop is one of the record.
fn set_up_pass<S: Store, R: Threads + Sync>(
    rt: &R,
    alloc: Global,
    store: &mut S,
    from: &str,
    to: &str,
    request: &Request,
) -> Result<Replay, SetupError>
    requires { 1 ≤ length from.now }
    ensures comes { ComesTo replayed (passed_in from.now to.now (request_of request.now))
        (IsAskedBy (OfPass from.now to.now) request.now.input.now (S.shows store.old).files)
        (S.shows store.old) (S.shows store.new) result }
    ensures set_up { IfOk result (IsSetUp (request_of request.now)) }
{
    let recorded = read_record(rt, alloc, store, request.input)?;
    match pass_configuration(alloc, from, to, &recorded) {
        Ok(configuration) => judge(alloc, request.input, request, configuration, recorded),
        Err(error) => {
            drop(recorded);
            Err(error)
        }
    }
}

/// Sets up a replay. It reads the DAG file, the component files that it names, in the order of the
/// DAG, the scheduler file, if one is given, and the record; or the record alone, where the one
/// component passes messages on. Then it wires the components over the record's channels, looks for
/// the component of a stop, lists the messages that are played and the ticks among them, and places
/// the components. The first thing in the way is answered: a file that is refused, where a fault of
/// the wiring or of a stop is one of the DAG file, or else of the record, and too many messages,
/// ticks or entries are one of the record. No file is changed.
pub fn set_up<S: Store, R: Threads + Sync>(
    rt: &R,
    alloc: Global,
    store: &mut S,
    request: &Request,
) -> Result<Replay, SetupError>
    requires { HasReader (request_of request.now).components }
    ensures comes { ComesTo replayed (replay_in (request_of request.now))
        (IsAsked (request_of request.now) (S.shows store.old).files) (S.shows store.old)
        (S.shows store.new) result }
    ensures set_up { IfOk result (IsSetUp (request_of request.now)) }
{
    match request.components {
        Components::Files { dag, sched } => set_up_files(rt, alloc, store, dag, sched, request),
        Components::Pass { from, to } => set_up_pass(rt, alloc, store, from, to, request),
    }
}
