// Reads the configuration files of a replay.
ghost use Rattle.std.specs.Prelude.{◌≡◌, ◌≤◌, ◌<◌, Some, length, option_map, IfOk, IsOkUnless};
ghost use Rattle.cy_setup.specs.Comes.{ComesTo};
ghost use Rattle.cy_setup.specs.Configuration.{dag_in, config_in, configs_in, said_in, sched_in};
ghost use Rattle.cy_setup.specs.Configuration.{configuration_in, IsAsked, IsAskedFor, IsAskedOf};
ghost use Rattle.cy_wiring.specs.Wiring.{AreConfigs};
ghost use Rattle.cy_dag.specs.Classes.{IsOfClass};
ghost use Rattle.cy_sched.specs.SchedFile.{IsPlaceable, default_sched};
ghost use Rattle.cy_setup.specs.Steps.{dag_says, configured, scheduled_in};
ghost use Rattle.cy_setup.specs.Values.{valued_configs};

use crate::answers::with_answers;
use crate::error::{dag_fault, sched_fault};
use crate::text::read_text;
use crate::values::valued_configs;
use crate::{Configuration, SetupError};
use cy_dag::{Config, Dag, DagComponent, read_component_config, read_dag};
use cy_msg::Items;
use cy_sched::{Sched, read_sched};
use cy_store::Store;
use std::alloc::Global;
use std::thread::Threads;

// Reads a DAG file.
fn read_dag_file<S: Store>(alloc: Global, store: &mut S, name: &str) -> Result<Dag, SetupError>
    ensures { ComesTo dag_says (dag_in name.now) (λ file. file ≡ name.now)
        (S.shows store.old) (S.shows store.new) result }
{
    let tree = read_text(alloc, store, name)?;
    match read_dag(alloc, &tree) {
        Ok(dag) => Ok(dag),
        Err(fault) => Err(dag_fault(alloc, name, fault)),
    }
}

// Reads the file of the component of a number, without its answers.
fn read_said<S: Store>(
    alloc: Global,
    store: &mut S,
    number: u32,
    component: &DagComponent,
) -> Result<Config, SetupError>
    ensures comes { ComesTo (λ config. config) (said_in number component.now)
        (λ file. file ≡ component.now.config_file_path) (S.shows store.old) (S.shows store.new)
        result }
    ensures of_class { IfOk result (IsOfClass component.now.class_name) }
{
    let name = component.config_file_path.as_str();
    let tree = read_text(alloc, store, name)?;
    match read_component_config(alloc, &tree, number, component.class_name.as_str()) {
        Ok(config) => Ok(config),
        Err(fault) => Err(dag_fault(alloc, name, fault)),
    }
}

// Reads the file of the component of a number, and behind it its answers.
fn read_config<S: Store, R: Threads + Sync>(
    rt: &R,
    alloc: Global,
    store: &mut S,
    number: u32,
    component: &DagComponent,
) -> Result<Config, SetupError>
    requires { number < 64 }
    ensures comes { ComesTo (λ config. config) (config_in number component.now)
        (IsAskedFor number component.now (S.shows store.old).files) (S.shows store.old)
        (S.shows store.new) result }
    ensures of_class { IfOk result (IsOfClass component.now.class_name) }
{
    let config = read_said(alloc, store, number, component)?;
    with_answers(rt, alloc, store, number, config)
}

// Reads the files of components, in their order.
fn read_configs<S: Store, R: Threads + Sync>(
    rt: &R,
    alloc: Global,
    store: &mut S,
    components: &[DagComponent],
) -> Result<Vec<Config>, SetupError>
    requires { length components.now ≤ 64 }
    ensures comes { ComesTo (λ configs. configs.items) (configs_in components.now)
        (IsAskedOf components.now (S.shows store.old).files) (S.shows store.old)
        (S.shows store.new) result }
    ensures fit { IfOk result (λ configs. AreConfigs components.now configs.items) }
{
    let mut configs = Vec::new(alloc);
    for (number, component) in components.iter().enumerate() {
        configs.push(read_config(rt, alloc, store, number as u32, component)?)?;
    }
    Ok(configs)
}

// Reads a scheduler file.
fn read_sched_file<S: Store>(alloc: Global, store: &mut S, name: &str) -> Result<Sched, SetupError>
    ensures comes { ComesTo (λ sched. sched) (sched_in (Some name.now)) (λ file. file ≡ name.now)
        (S.shows store.old) (S.shows store.new) result }
    ensures placeable { IfOk result IsPlaceable }
{
    let tree = read_text(alloc, store, name)?;
    match read_sched(alloc, &tree) {
        Ok(sched) => Ok(sched),
        Err(fault) => Err(sched_fault(alloc, name, fault)),
    }
}

/// The scheduler where no file is given.
pub(crate) fn default_scheduler(alloc: Global) -> Result<Sched, SetupError>
    ensures sched { IfOk result (λ s. s ≡ default_sched) }
    ensures placeable { IfOk result IsPlaceable }
    ensures only_memory { IsOkUnless result SetupError.Memory }
{
    match Sched::default_grp(alloc) {
        Ok(sched) => Ok(sched),
        Err(_) => Err(SetupError::Memory),
    }
}

// Reads a scheduler file, or makes the default scheduler where no file is given.
fn read_scheduler<S: Store>(
    alloc: Global,
    store: &mut S,
    name: Option<&str>,
) -> Result<Sched, SetupError>
    ensures comes { ComesTo (λ sched. sched) (sched_in (option_map (λ n. n.now) name.entry))
        (λ file. option_map (λ n. n.now) name.entry ≡ Some file) (S.shows store.old)
        (S.shows store.new) result }
    ensures placeable { IfOk result IsPlaceable }
{
    match name {
        Some(name) => read_sched_file(alloc, store, name),
        None => default_scheduler(alloc),
    }
}

// Reads the scheduler file of a configuration, whose other files were read.
fn with_scheduler<S: Store>(
    alloc: Global,
    store: &mut S,
    dag: Dag,
    configs: Items<Config>,
    sched: Option<&str>,
) -> Result<Configuration, SetupError>
    requires { AreConfigs dag.components configs }
    ensures comes { ComesTo configured (scheduled_in (dag_says dag) configs
        (option_map (λ n. n.now) sched.entry))
        (λ file. option_map (λ n. n.now) sched.entry ≡ Some file) (S.shows store.old)
        (S.shows store.new) result }
    ensures placeable { IfOk result (λ c. IsPlaceable c.sched) }
{
    match read_scheduler(alloc, store, sched) {
        Ok(sched) => Ok(Configuration {
            dag,
            configs,
            sched,
        }),
        Err(error) => {
            drop(configs);
            drop(dag);
            Err(error)
        }
    }
}

// The same, once the answers of the components have their values.
fn with_values<S: Store>(
    alloc: Global,
    store: &mut S,
    dag: Dag,
    configs: Vec<Config>,
    sched: Option<&str>,
) -> Result<Configuration, SetupError>
    requires { AreConfigs dag.components configs.items }
    ensures comes { ComesTo configured (scheduled_in (dag_says dag) (valued_configs configs.items)
        (option_map (λ n. n.now) sched.entry))
        (λ file. option_map (λ n. n.now) sched.entry ≡ Some file) (S.shows store.old)
        (S.shows store.new) result }
    ensures placeable { IfOk result (λ c. IsPlaceable c.sched) }
{
    match valued_configs(alloc, configs) {
        Ok(valued) => with_scheduler(alloc, store, dag, Items::new(valued), sched),
        Err(_) => {
            drop(dag);
            Err(SetupError::Memory)
        }
    }
}

/// Reads the configuration files of a replay: a DAG file, the component files that it names, in the
/// order of the DAG, each followed by the record of its answers, if it names one, and a scheduler
/// file, if one is given. Answers have the values that the component files say. The first thing in
/// the way is answered.
pub fn read_configuration<S: Store, R: Threads + Sync>(
    rt: &R,
    alloc: Global,
    store: &mut S,
    dag: &str,
    sched: Option<&str>,
) -> Result<Configuration, SetupError>
    ensures comes { ComesTo configured
        (configuration_in dag.now (option_map (λ n. n.now) sched.entry))
        (IsAsked dag.now (option_map (λ n. n.now) sched.entry) (S.shows store.old).files)
        (S.shows store.old) (S.shows store.new) result }
    ensures placeable { IfOk result (λ c. IsPlaceable c.sched) }
{
    let dag = read_dag_file(alloc, store, dag)?;
    match read_configs(rt, alloc, store, dag.components.as_slice()) {
        Ok(configs) => with_values(alloc, store, dag, configs, sched),
        Err(error) => {
            drop(dag);
            Err(error)
        }
    }
}
