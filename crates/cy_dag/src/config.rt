// Reads a component file.
ghost use Rattle.std.specs.Prelude.{◌≡◌, ◌≤ℤ◌, codes, IfOk, IfErr, Some, None};
ghost use Rattle.cy_text.specs.Entries.{held_of};
ghost use Rattle.cy_dag.specs.Classes.{class_named};
ghost use Rattle.cy_dag.specs.ConfigFile.{IsConfig, class_refusal, config_of, config_refusal};
ghost use Rattle.cy_dag.specs.ConfigFile.{kind_in, overflow_named, overflow_of, overflow_refusal};
ghost use Rattle.cy_dag.specs.ConfigFile.{parameter_refusal, value_of, values_refusal};
ghost use Rattle.cy_dag.specs.DagFile.{text_in};
ghost use Rattle.cy_dag.specs.Options.{options_in};
ghost use Rattle.cy_dag.specs.Refusals.{IsDue};
ghost use Rattle.cy_dag.specs.Classes.{IsKindOf, IsOfClass};
ghost use Rattle.cy_dag.specs.declared.error.DagError.TheVariants as dag_error;

use crate::DagError;
use crate::class::Class;
use crate::component::{missing, text};
use crate::format::ConfigMessage;
use cy_comp::{Kind, Options};
use cy_config::{check, last_under, text_under};
use cy_fuse::Overflow;
use cy_msg::{Items, Text};
use cy_text::{Tree, Value};
use std::alloc::Global;

/// What a component file says.
#[derive(Drop)]
pub struct Config {
    /// The component's class, with its parameters.
    pub kind: Kind,
    /// Which tuple a fetch goes on with where its own isn't kept any more.
    pub overflow: Overflow,
    /// The channel that it writes.
    pub out: Text,
    /// What it says beside these.
    pub options: Options,
    /// The paths of the fields that are not known, in the order of the file.
    pub unknown: Items<Text>,
}

/// What the file of the component with this number says, whose class has this name. Its errors are
/// tested in an order: `UnknownClass`, `Shape`, `Missing` of `out`, `NotOverflow`, of each
/// parameter `Missing` or `NotWhole`, `TooManyValues`, and then of each value `Missing` of
/// `channel` and of `kind`, `PathLength`, `PathNumber`, `NotKind` and `NotScale`; and the first one
/// that is due is answered.
pub fn read_component_config(
    alloc: Global,
    tree: &Tree,
    component: u32,
    class_name: &str,
) -> Result<Config, DagError>
    ensures config { IfOk result (λ config.
        (config_refusal component (class_named class_name.now) tree.now ≡ None)
        × IsConfig (class_named class_name.now) tree.now config) }
    ensures of_class { IfOk result (IsOfClass class_name.now) }
    ensures refused { IfErr result (IsDue
        (config_refusal component (class_named class_name.now) tree.now)) }
{
    match Class::named(class_name) {
        Some(class) => read_config(alloc, tree, component, class),
        None => Err(DagError::UnknownClass { component }),
    }
}

// The same of a class.
fn read_config(alloc: Global, tree: &Tree, component: u32, class: Class) -> Result<Config, DagError>
    ensures accepted { IfOk result (λ _. class_refusal component class tree.now ≡ None) }
    ensures config { IfOk result (λ config. config ≡ config_of class tree.now) }
    ensures of_class { IfOk result (λ config. IsKindOf class config.kind) }
    ensures refused { IfErr result (IsDue (class_refusal component class tree.now)) }
{
    let unknown = check(alloc, ConfigMessage::File(class), tree)?;
    match values(alloc, tree, component, class) {
        Ok((kind, overflow, out, options)) => Ok(Config {
            kind,
            overflow,
            out,
            options,
            unknown,
        }),
        Err(error) => {
            drop(unknown);
            Err(error)
        }
    }
}

// What it says but for unknown fields: the class with its parameters, what is done on overflow,
// the channel, and the options.
fn values(
    alloc: Global,
    tree: &Tree,
    component: u32,
    class: Class,
) -> Result<(Kind, Overflow, Text, Options), DagError>
    ensures accepted { IfOk result (λ _. values_refusal component class tree.now ≡ None) }
    ensures values { IfOk result (λ v. (v.0 ≡ kind_in class tree.now)
        × (overflow_of tree.now ≡ Some v.1) × (v.2 ≡ text_in (codes "out") tree.now)
        × (v.3 ≡ options_in class tree.now)) }
    ensures of_class { IfOk result (λ v. IsKindOf class v.0) }
    ensures refused { IfErr result (IsDue (values_refusal component class tree.now)) }
{
    if text_under(tree, "out").is_none() {
        return Err(missing(alloc, component, "out"));
    }
    let overflow = overflow_of(tree, component)?;
    let kind = class.kind(alloc, tree, component)?;
    let out = text(alloc, tree, "out")?;
    Ok((kind, overflow, out, class.options(alloc, tree, component)?))
}

// What is done on overflow: a fetch goes on at the newest where the file doesn't say.
fn overflow_of(tree: &Tree, component: u32) -> Result<Overflow, DagError>
    ensures overflow { IfOk result (λ overflow. overflow_of tree.now ≡ Some overflow) }
    ensures refused { IfErr result (λ e. overflow_refusal component tree.now ≡ Some e) }
{
    let Some(value) = last_under(tree, "on_overflow") else {
        return Ok(Overflow::Newest);
    };
    match overflow_named(value) {
        Some(overflow) => Ok(overflow),
        None => Err(DagError::NotOverflow { component }),
    }
}

// The overflow that a value names.
fn overflow_named(value: &Value) -> Option<Overflow>
    ensures { result ≡ overflow_named (held_of value.now) }
{
    match value {
        Value::Word {
            negative: false,
            text,
        } => match text.as_str() {
            "NEWEST" => Some(Overflow::Newest),
            "OLDEST" => Some(Overflow::Oldest),
            _ => None,
        },
        _ => None,
    }
}

// The value of a parameter, in a range.
pub(crate) fn parameter(
    alloc: Global,
    tree: &Tree,
    component: u32,
    name: &str,
    least: i128,
    most: i128,
) -> Result<i128, DagError>
    ensures accepted { IfOk result (λ _.
        parameter_refusal component name.now least most tree.now ≡ None) }
    ensures value { IfOk result (λ value. value ≡ value_of name.now tree.now) }
    ensures range { IfOk result (λ value. (least ≤ℤ value) × (value ≤ℤ most)) }
    ensures refused { IfErr result (IsDue
        (parameter_refusal component name.now least most tree.now)) }
{
    let Some(value) = last_under(tree, name) else {
        return Err(missing(alloc, component, name));
    };
    match value.whole() {
        Some(whole) if least <= whole && whole <= most => Ok(whole),
        _ => Err(not_whole(alloc, component, name)),
    }
}

// A parameter that isn't a whole number in its range, or want of memory.
fn not_whole(alloc: Global, component: u32, field: &str) -> DagError
    ensures { IsDue (Some (dag_error.NotWhole component field.now)) result }
{
    match Text::new(alloc, field) {
        Ok(field) => DagError::NotWhole { component, field },
        Err(_) => DagError::Memory,
    }
}
