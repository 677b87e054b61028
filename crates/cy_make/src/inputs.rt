// All files that are made, in their order.
ghost use Rattle.std.specs.Prelude.{◌≡◌, ◌≤◌, ◌<◌};
ghost use Rattle.std.specs.List.{flat_map};
ghost use Rattle.cy_make.specs.Inputs.{MakesFiles, config_writes, input_writes};
ghost use Rattle.cy_make.specs.Inputs.{made_record_writes};

use crate::dag::name_with;
use crate::record::write_made_record;
use crate::{Config, MakeError};
use cy_store::Store;
use cy_writer::{WriteError, write_file};
use std::alloc::Global;

// A file that was not written, or the want of memory.
fn blamed(file: MakeError, error: WriteError) -> MakeError
    ensures failed { (error ≡ WriteError.Memory → ⊥) → result ≡ file }
    ensures memory { error ≡ WriteError.Memory → result ≡ MakeError.Memory }
{
    match error {
        WriteError::Failed | WriteError::Broken => file,
        WriteError::Memory => MakeError::Memory,
    }
}

// Makes a configuration file.
fn write_config<S: Store>(
    alloc: Global,
    store: &mut S,
    prefix: &str,
    config: Config,
) -> Result<(), MakeError>
    ensures { MakesFiles prefix.now (config_writes prefix.now config) (S.shows store.old)
        (S.shows store.new) result }
{
    let name = name_with(alloc, prefix, config.suffix())?;
    let text = config.text(alloc, prefix)?;
    match write_file(store, name.as_str(), text.as_slice()) {
        Ok(()) => Ok(()),
        Err(error) => Err(blamed(MakeError::Config(config), error)),
    }
}

// Makes configuration files, in their order.
fn write_configs<S: Store>(
    alloc: Global,
    store: &mut S,
    prefix: &str,
    configs: &[Config],
) -> Result<(), MakeError>
    ensures { MakesFiles prefix.now (flat_map (config_writes prefix.now) configs.now)
        (S.shows store.old) (S.shows store.new) result }
{
    for config in configs {
        write_config(alloc, store, prefix, *config)?;
    }
    Ok(())
}

// Makes the record.
fn write_record<S: Store>(
    alloc: Global,
    store: &mut S,
    prefix: &str,
    count: u32,
) -> Result<(), MakeError>
    requires { count ≤ 1048576 }
    ensures { MakesFiles prefix.now (made_record_writes count prefix.now) (S.shows store.old)
        (S.shows store.new) result }
{
    let name = name_with(alloc, prefix, ".record")?;
    match write_made_record(alloc, store, name.as_str(), count) {
        Ok(()) => Ok(()),
        Err(error) => Err(blamed(MakeError::Record, error)),
    }
}

/// Makes the files of a play of so many messages, whose names begin with a prefix: the component
/// files, the DAG and then the record. After an error the writes before the one that failed, or
/// that wanted memory, are done.
pub fn write_inputs<S: Store>(
    alloc: Global,
    store: &mut S,
    count: u32,
    prefix: &str,
) -> Result<(), MakeError>
    requires { count ≤ 1048576 }
    ensures { MakesFiles prefix.now (input_writes count prefix.now) (S.shows store.old)
        (S.shows store.new) result }
{
    let configs = [
        Config::Adder,
        Config::Band,
        Config::Last8,
        Config::Late,
        Config::Dag,
    ];
    write_configs(alloc, store, prefix, &configs)?;
    write_record(alloc, store, prefix, count)
}
