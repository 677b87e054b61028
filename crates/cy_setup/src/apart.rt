// A file that is to be written is another one than those that the same command reads or writes.
ghost use Rattle.std.specs.Prelude.{◌≡◌, ◌⊎◌, ◌++◌, map, find, IfOk, IfSome, OnOk};
ghost use Rattle.std.specs.List.{Contains};
ghost use Rattle.std.specs.Option.{option_map};
ghost use Rattle.std.specs.Str.{bytes_eq};
ghost use Rattle.cy_msg.specs.Request.{components_of};
ghost use Rattle.cy_setup.specs.Apart.{IsApart, also, answers_read, configs_read, files_read};
ghost use Rattle.cy_setup.specs.Apart.{maybe};
ghost use Rattle.cy_setup.specs.Configuration.{files_of};
ghost use Rattle.cy_setup.specs.Steps.{configured};

use crate::answers::answers_file;
use crate::error::refused;
use crate::{Configuration, Fault, SetupError};
use cy_dag::{Config, DagComponent};
use cy_msg::{Components, Text};
use cy_store::Store;
use std::alloc::{AllocError, Global};

/// The name of standard output among the files of the machine.
pub const STANDARD_OUTPUT: &str = "/dev/stdout";

// The first of some names that is known to be one of the same file.
fn find_same<'a, S: Store>(store: &mut S, name: &str, others: &[&'a str]) -> Option<&'a str>
    ensures same { S.shows store.new ≡ S.shows store.old }
    ensures among { IfSome result (λ other. Contains (map (λ o. o.now) others.now) other.now) }
    ensures told { IfSome (S.shows store.old).files (λ _. option_map (λ o. o.now) result
        ≡ find (bytes_eq name.now) (map (λ o. o.now) others.now)) }
{
    for other in others {
        if store.same(name, other) {
            return Some(*other);
        }
    }
    None
}

// The refusal of a file that is also one of another name, or want of memory.
fn refused_as(alloc: Global, name: &str, other: &str) -> SetupError
    ensures { (result ≡ SetupError.Memory) ⊎ (result ≡ SetupError.Refused
        (also name.now other.now)) }
{
    match Text::new(alloc, other) {
        Ok(other) => refused(alloc, name, Fault::Also { name: other }),
        Err(_) => SetupError::Memory,
    }
}

/// Tests that a file which is to be written is none of these others: by what the store says of
/// their names, which is that they are equal where it tells its files. The first that is the same
/// file is told. The store is as it was.
pub fn test_apart<S: Store>(
    alloc: Global,
    store: &mut S,
    name: &str,
    others: &[&str],
) -> Result<(), SetupError>
    ensures same { S.shows store.new ≡ S.shows store.old }
    ensures apart { IsApart (S.shows store.old).files name.now (map (λ o. o.now) others.now)
        result }
{
    match find_same(store, name, others) {
        Some(other) => Err(refused_as(alloc, name, other)),
        None => Ok(()),
    }
}

// Adds the names of the files of components to others.
fn push_files<'a>(
    names: &mut Vec<&'a str>,
    components: &'a [DagComponent],
) -> Result<(), AllocError>
    ensures { OnOk result (map (λ n. n.now) names.new.items
        ≡ map (λ n. n.now) names.old.items ++ files_of components.now) }
{
    for component in components {
        names.push(component.config_file_path.as_str())?;
    }
    Ok(())
}

// Adds a name to others, if there is one.
fn push_name<'a>(names: &mut Vec<&'a str>, name: Option<&'a str>) -> Result<(), AllocError>
    ensures { OnOk result (map (λ n. n.now) names.new.items
        ≡ map (λ n. n.now) names.old.items ++ maybe (option_map (λ n. n.now) name.entry)) }
{
    if let Some(name) = name {
        names.push(name)?;
    }
    Ok(())
}

// Adds the names of the records that have the answers of components to others.
fn push_answers<'a>(names: &mut Vec<&'a str>, configs: &'a [Config]) -> Result<(), AllocError>
    ensures { OnOk result (map (λ n. n.now) names.new.items
        ≡ map (λ n. n.now) names.old.items ++ answers_read configs.now) }
{
    for config in configs {
        push_name(names, answers_file(config))?;
    }
    Ok(())
}

// Adds the names of configuration files to others.
fn push_configs<'a>(
    names: &mut Vec<&'a str>,
    components: Components<'a>,
    configuration: &'a Configuration,
) -> Result<(), AllocError>
    ensures { OnOk result (map (λ n. n.now) names.new.items ≡ map (λ n. n.now) names.old.items
        ++ configs_read (components_of components.entry) (configured configuration.now)) }
{
    match components {
        Components::Pass { .. } => Ok(()),
        Components::Files { dag, sched } => {
            names.push(dag)?;
            if let Some(sched) = sched {
                names.push(sched)?;
            }
            push_files(names, configuration.dag.components.as_slice())?;
            push_answers(names, configuration.configs.as_slice())
        }
    }
}

/// The names of the files that are read for components over a record. The only error is want of
/// memory.
pub fn files_read<'a>(
    alloc: Global,
    components: Components<'a>,
    input: &'a str,
    configuration: &'a Configuration,
) -> Result<Vec<&'a str>, AllocError>
    ensures { IfOk result (λ names. map (λ n. n.now) names.items
        ≡ files_read (components_of components.entry) input.now (configured configuration.now)) }
{
    let mut names = Vec::new(alloc);
    names.push(input)?;
    push_configs(&mut names, components, configuration)?;
    Ok(names)
}
