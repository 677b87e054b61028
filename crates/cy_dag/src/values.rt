// Where a component file says that the values of messages are.
ghost use Rattle.std.specs.Prelude.{◌≡◌, ◌≤◌, codes, length, map, IfOk, IfErr, OnOk, None};
ghost use Rattle.std.specs.Prelude.{is_none, option_map};
ghost use Rattle.std.specs.List.{list_any};
ghost use Rattle.cy_config.specs.Lookups.{all_under};
ghost use Rattle.cy_text.specs.Entries.{held_of};
ghost use Rattle.cy_dag.specs.Refusals.{IsDue};
ghost use Rattle.cy_dag.specs.Values.{channel_value, each_refusal, field_number, file_refusal};
ghost use Rattle.cy_dag.specs.Values.{is_power_of_ten, is_scale, kind_given, kind_of_held};
ghost use Rattle.cy_dag.specs.Values.{named_refusal, path_in, path_refusal, scale_by, scale_given};
ghost use Rattle.cy_dag.specs.Values.{unsigned_of, value_refusal, values_in};

use crate::DagError;
use crate::component::{missing, text};
use crate::read::count_of;
use cy_config::{last_under, messages_under, text_under, values_under};
use cy_msg::Items;
use cy_text::{Tree, Value};
use cy_value::{ChannelValue, LONGEST_PATH, ScalarKind, ValueForm};
use std::alloc::{AllocError, Global};

/// The most values that a component file gives.
pub const MOST_VALUES: usize = 256;

// The greatest number that a field may have.
const GREATEST_FIELD: u64 = 536_870_911;

// The values of the file of the component with this number.
pub(crate) fn values(
    alloc: Global,
    file: &Tree,
    component: u32,
) -> Result<Items<ChannelValue>, DagError>
    ensures accepted { OnOk result (file_refusal component file.now ≡ None) }
    ensures values { IfOk result (λ vs. vs ≡ values_in file.now) }
    ensures refused { IfErr result (IsDue (file_refusal component file.now)) }
{
    let given = messages_under(alloc, file, "value")?;
    if given.len() > MOST_VALUES {
        return Err(DagError::TooManyValues {
            count: count_of(given.len()),
        });
    }
    Ok(Items::new(each_value(alloc, component, &given)?))
}

// The values that messages describe, each tested.
#[tactic(auto, unfolding(crate::specs::Values::each_refusal))]
fn each_value(alloc: Global, component: u32, given: &[&Tree]) -> Result<Vec<ChannelValue>, DagError>
    requires { length given.now ≤ 256 }
    ensures accepted { OnOk result (each_refusal component (map (λ m. m.now) given.now) ≡ None) }
    ensures values { IfOk result (λ vs. vs.items
        ≡ map channel_value (map (λ m. m.now) given.now)) }
    ensures refused { IfErr result
        (IsDue (each_refusal component (map (λ m. m.now) given.now))) }
{
    let mut values = Vec::new(alloc);
    for (place, fields) in given.iter().enumerate() {
        values.push(value_in(alloc, component, place as u32, fields)?)?;
    }
    Ok(values)
}

// The value that the message at a place among those of its file describes.
fn value_in(
    alloc: Global,
    component: u32,
    place: u32,
    fields: &Tree,
) -> Result<ChannelValue, DagError>
    ensures accepted { OnOk result (value_refusal component place fields.now ≡ None) }
    ensures value { IfOk result (λ value. value ≡ channel_value fields.now) }
    ensures refused { IfErr result (IsDue (value_refusal component place fields.now)) }
{
    test_named(alloc, component, fields)?;
    test_path(alloc, component, place, fields)?;
    let Some(kind) = kind_in(fields) else {
        return Err(DagError::NotKind {
            component,
            value: place,
        });
    };
    let Some(scale) = scale_in(kind, fields) else {
        return Err(DagError::NotScale {
            component,
            value: place,
        });
    };
    Ok(ChannelValue {
        channel: text(alloc, fields, "channel")?,
        form: ValueForm {
            path: Items::new(path_in(alloc, fields)?),
            kind,
            scale,
        },
    })
}

// Whether a value has a channel and a kind.
fn test_named(alloc: Global, component: u32, fields: &Tree) -> Result<(), DagError>
    ensures accepted { OnOk result (named_refusal component fields.now ≡ None) }
    ensures refused { IfErr result (IsDue (named_refusal component fields.now)) }
{
    if text_under(fields, "channel").unwrap_or("").is_empty() {
        return Err(missing(alloc, component, "channel"));
    }
    if last_under(fields, "kind").is_none() {
        return Err(missing(alloc, component, "kind"));
    }
    Ok(())
}

// Whether the path of a value is accepted.
fn test_path(alloc: Global, component: u32, place: u32, fields: &Tree) -> Result<(), DagError>
    ensures accepted { OnOk result
        (path_refusal component place (all_under (codes "path") fields.now) ≡ None) }
    ensures refused { IfErr result
        (IsDue (path_refusal component place (all_under (codes "path") fields.now))) }
{
    let path = values_under(alloc, fields, "path")?;
    if path.is_empty() || path.len() > LONGEST_PATH {
        return Err(DagError::PathLength {
            component,
            value: place,
            count: count_of(path.len()),
        });
    }
    if has_no_number(&path) {
        return Err(DagError::PathNumber {
            component,
            value: place,
        });
    }
    Ok(())
}

// Whether one of some values isn't the number of a field.
fn has_no_number(path: &[&Value]) -> bool
    ensures { result ≡ list_any (λ v. is_none (field_number (held_of v.now))) path.now }
{
    path.iter().any(|value| field_number(value).is_none())
}

// The numbers of a path.
fn path_in(alloc: Global, fields: &Tree) -> Result<Vec<u32>, AllocError>
    ensures { IfOk result (λ path. path.items ≡ path_in fields.now) }
{
    let mut path = Vec::new(alloc);
    for value in &values_under(alloc, fields, "path")? {
        path.push(field_number(value).unwrap_or(0))?;
    }
    Ok(path)
}

// The number of a field that a value is.
fn field_number(value: &Value) -> Option<u32>
    ensures { result ≡ field_number (held_of value.now) }
{
    match unsigned_of(value)? {
        number if 1 <= number && number <= GREATEST_FIELD => Some(number as u32),
        _ => None,
    }
}

// The whole number with no sign that a value is.
fn unsigned_of(value: &Value) -> Option<u64>
    ensures { result ≡ unsigned_of (held_of value.now) }
{
    match value {
        Value::Whole {
            negative: false,
            size,
        } => Some(*size),
        _ => None,
    }
}

// The kind that a message names.
fn kind_in(fields: &Tree) -> Option<ScalarKind>
    ensures { result ≡ kind_given fields.now }
{
    kind_of(last_under(fields, "kind")?)
}

// The kind that a value names.
fn kind_of(value: &Value) -> Option<ScalarKind>
    ensures { result ≡ kind_of_held (held_of value.now) }
{
    match value {
        Value::Word {
            negative: false,
            text,
        } => ScalarKind::named(text.as_str()),
        _ => None,
    }
}

// The scale that a message gives a kind.
fn scale_in(kind: ScalarKind, fields: &Tree) -> Option<u64>
    ensures { result ≡ scale_given kind fields.now }
{
    let scale = scale_by(last_under(fields, "scale"))?;
    is_scale(kind, scale).then_some(scale)
}

// The number that a value gives as a scale: 1 where there is none.
fn scale_by(value: Option<&Value>) -> Option<u64>
    ensures { result ≡ scale_by (option_map (λ v. held_of v.now) value.entry) }
{
    match value {
        Some(value) => unsigned_of(value),
        None => Some(1),
    }
}

// Whether a kind has a scale.
fn is_scale(kind: ScalarKind, scale: u64) -> bool
    ensures { result ≡ is_scale kind scale }
{
    match kind {
        ScalarKind::Float | ScalarKind::Double => is_power(scale),
        _ => scale == 1,
    }
}

// Whether a number is a power of ten.
#[tactic(auto, unfolding(crate::specs::Values::is_power_of_ten))]
fn is_power(number: u64) -> bool
    ensures { result ≡ is_power_of_ten number }
{
    let mut power: u128 = 1;
    for _exponent in 0..20usize {
        if u128::from(number) == power {
            return true;
        }
        power *= 10;
    }
    false
}
