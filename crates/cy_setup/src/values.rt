// The values of a play's channels, and answers by them.
ghost use Rattle.std.specs.Prelude.{◌≡◌, ◌++◌, option_map, IfOk, IfErr, OnOk, IsOkUnless};
ghost use Rattle.cy_setup.specs.Values.{valued_config, valued_configs, valued_kind};
ghost use Rattle.cy_wiring.specs.Given.{values_of};
ghost use Rattle.cy_setup.specs.Values.{values_in};

use cy_answers::value_answers;
use cy_comp::{Kind, Plan};
use cy_dag::Config;
use cy_msg::NamesError;
use cy_value::{ChannelValue, ValueForm, form_of};
use std::alloc::Global;

// Adds values to others.
fn push_values(
    alloc: Global,
    to: &mut Vec<ChannelValue>,
    values: &[ChannelValue],
) -> Result<(), NamesError>
    ensures values { OnOk result (to.new.items ≡ to.old.items ++ values.now) }
    ensures memory { IfErr result (λ e. e ≡ NamesError.Memory) }
{
    for value in values {
        to.push(value.copy(alloc)?)?;
    }
    Ok(())
}

// The values that component files say.
fn values_of(alloc: Global, configs: &[Config]) -> Result<Vec<ChannelValue>, NamesError>
    ensures values { IfOk result (λ values. values.items ≡ values_of configs.now) }
    ensures memory { IfErr result (λ e. e ≡ NamesError.Memory) }
{
    let mut values = Vec::new(alloc);
    for config in configs {
        push_values(alloc, &mut values, config.options.values.as_slice())?;
    }
    Ok(values)
}

/// The values of a wiring's channels.
pub(crate) fn values_in(alloc: Global, plans: &[Plan]) -> Result<Vec<ChannelValue>, NamesError>
    ensures values { IfOk result (λ values. values.items ≡ values_in plans.now) }
    ensures memory { IfErr result (λ e. e ≡ NamesError.Memory) }
{
    let mut values = Vec::new(alloc);
    for plan in plans {
        push_values(alloc, &mut values, plan.options.values.as_slice())?;
    }
    Ok(values)
}

// A class, whose answers have their values by a form, if it has answers.
fn valued_kind(alloc: Global, kind: &Kind, form: Option<&ValueForm>) -> Result<Kind, NamesError>
    ensures kind { IfOk result (λ k.
        k ≡ valued_kind (option_map (λ f. f.now) form.entry) kind.now) }
    ensures memory { IfErr result (λ e. e ≡ NamesError.Memory) }
{
    match kind {
        Kind::External { answers } => Ok(Kind::External {
            answers: value_answers(alloc, answers, form)?,
        }),
        other => Ok(other.copy()?),
    }
}

// What a component file says, with this class.
fn with_kind(config: Config, kind: Kind) -> Config
    ensures { result ≡ record config { kind = kind } }
{
    let Config {
        kind: _,
        overflow,
        out,
        options,
        unknown,
    } = config;
    Config {
        kind,
        overflow,
        out,
        options,
        unknown,
    }
}

// What a component file says, whose answers have their values.
fn valued_config(
    alloc: Global,
    config: Config,
    values: &[ChannelValue],
) -> Result<Config, NamesError>
    ensures config { IfOk result (λ c. c ≡ valued_config values.now config) }
    ensures memory { IfErr result (λ e. e ≡ NamesError.Memory) }
{
    let form = form_of(values, config.out.as_str());
    match valued_kind(alloc, &config.kind, form) {
        Ok(kind) => Ok(with_kind(config, kind)),
        Err(error) => {
            drop(config);
            Err(error)
        }
    }
}

/// What component files say, once all are read: their answers have the values that any of the files
/// says for their channels. The only error is `Memory`.
pub(crate) fn valued_configs(alloc: Global, configs: Vec<Config>) -> Result<Vec<Config>, NamesError>
    ensures valued { IfOk result (λ v. v.items ≡ valued_configs configs.items) }
    ensures memory { IfErr result (λ e. e ≡ NamesError.Memory) }
{
    let values = values_of(alloc, &configs)?;
    let mut valued = Vec::with_capacity(alloc, configs.len())?;
    for config in configs {
        valued.push(valued_config(alloc, config, &values)?)?;
    }
    Ok(valued)
}
