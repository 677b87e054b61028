// The component that passes messages on, without configuration files.
ghost use Rattle.std.specs.Prelude.{◌≡◌, ◌≤◌, [], ◌∷◌, length, IfOk, IsOkUnless};
ghost use Rattle.cy_sched.specs.SchedFile.{IsPlaceable};
ghost use Rattle.cy_setup.specs.Passing.{pass_component as component_of, pass_config as config_of};
ghost use Rattle.cy_setup.specs.Passing.{PassIsWired, passing, type_read};
ghost use Rattle.cy_setup.specs.Steps.{configured};

use crate::read::default_scheduler;
use crate::{Configuration, SetupError};
use cy_comp::{Kind, Options};
use cy_dag::{Config, Dag, DagComponent, DagReader};
use cy_fuse::Overflow;
use cy_msg::{Items, NamesError, Text};
use cy_reader::Record;
use std::alloc::Global;

// The type that a record has for a channel.
fn type_of<'a>(recorded: &'a Record, channel: &str) -> &'a str
    ensures { result.now ≡ type_read recorded.now channel.now }
{
    match recorded.channel_named(channel) {
        Some(known) => known.message_type.as_str(),
        None => "",
    }
}

// The component, as a DAG file has it.
fn pass_component(alloc: Global, from: &str) -> Result<DagComponent, NamesError>
    ensures { IfOk result (λ c. c ≡ component_of from.now) }
{
    let reader = DagReader {
        channel: Text::new(alloc, from)?,
        queue: 1,
    };
    Ok(DagComponent {
        class_name: Text::new(alloc, "PassComponent")?,
        name: Text::new(alloc, "pass")?,
        config_file_path: Text::new(alloc, "pass")?,
        readers: Items::new(vec![in alloc; reader]?),
        interval: None,
    })
}

// It alone.
#[tactic(auto, using(crate::proofs::PassTested::tested, crate::proofs::PassTested::queues, crate::proofs::PassTested::ticks,))]
fn pass_dag(alloc: Global, from: &str) -> Result<Dag, NamesError>
    requires { 1 ≤ length from.now }
    ensures components { IfOk result (λ dag. dag.components ≡ component_of from.now ∷ []) }
    ensures unknown { IfOk result (λ dag. dag.unknown ≡ []) }
{
    let component = pass_component(alloc, from)?;
    Ok(Dag {
        components: Items::new(vec![in alloc; component]?),
        unknown: Items::new(Vec::new(alloc)),
    })
}

// What a component file says of it.
fn pass_config(alloc: Global, to: &str, message_type: &str) -> Result<Config, NamesError>
    ensures { IfOk result (λ c. c ≡ config_of to.now message_type.now) }
{
    Ok(Config {
        kind: Kind::Pass,
        overflow: Overflow::Newest,
        out: Text::new(alloc, to)?,
        options: Options::with_type(alloc, message_type)?,
        unknown: Items::new(Vec::new(alloc)),
    })
}

// The component files: one, in the type that a record has for the channel that is read.
fn pass_configs(
    alloc: Global,
    from: &str,
    to: &str,
    recorded: &Record,
) -> Result<Items<Config>, NamesError>
    ensures { IfOk result (λ c. c ≡ config_of to.now (type_read recorded.now from.now) ∷ []) }
{
    let config = pass_config(alloc, to, type_of(recorded, from))?;
    Ok(Items::new(vec![in alloc; config]?))
}

/// What configuration files would say of one component that passes the messages of a channel on to
/// another, in the type that a record has for the first.
#[tactic(auto, using(crate::proofs::PassTested::fit))]
pub(crate) fn pass_configuration(
    alloc: Global,
    from: &str,
    to: &str,
    recorded: &Record,
) -> Result<Configuration, SetupError>
    requires { 1 ≤ length from.now }
    ensures is { IfOk result (λ c. configured c
        ≡ passing from.now to.now (type_read recorded.now from.now)) }
    ensures placeable { IfOk result (λ c. IsPlaceable c.sched) }
    ensures only_memory { IsOkUnless result SetupError.Memory }
{
    let sched = default_scheduler(alloc)?;
    let Ok(dag) = pass_dag(alloc, from) else {
        drop(sched);
        return Err(SetupError::Memory);
    };
    let Ok(configs) = pass_configs(alloc, from, to, recorded) else {
        drop(dag);
        drop(sched);
        return Err(SetupError::Memory);
    };
    Ok(Configuration {
        dag,
        configs,
        sched,
    })
}

/// The component that passes messages on is wired over the channels of any record, where its two
/// channels differ; nothing but too many channels refuses it. Proved here, and nothing to run.
pub fn pass_is_wired()
    ensures { PassIsWired }
{}
