// Reads and tests a component of a DAG file.
ghost use Rattle.std.specs.Prelude.{◌≡◌, ◌≤◌, codes, length, map, IfOk, IfErr, OnOk};
ghost use Rattle.std.specs.Prelude.{option_map};
ghost use Rattle.std.specs.List.{list_any, position};
ghost use Rattle.std.specs.Str.{bytes_eq};
ghost use Rattle.cy_config.specs.Lookups.{messages_under};
ghost use Rattle.cy_config.specs.Refusals.{first_repeated};
ghost use Rattle.cy_dag.specs.DagFile.{component_of, component_refusal, is_empty, name_refusal};
ghost use Rattle.cy_dag.specs.DagFile.{needed_by, queue_of, reader_of, readers_refusal};
ghost use Rattle.cy_dag.specs.DagFile.{settings_of, text_in};
ghost use Rattle.cy_dag.specs.Refusals.{IsDue};
ghost use Rattle.cy_dag.specs.declared.error.DagError.TheVariants as dag_error;
ghost use Rattle.cy_text.specs.Fields.{Nothing};

use crate::class::Class;
use crate::read::count_of;
use crate::{DagComponent, DagError, DagReader, MOST_READERS};
use cy_config::{message_under, messages_under, text_under, u32_under};
use cy_msg::{Items, NamesError, Text};
use cy_text::Tree;
use std::alloc::Global;

// The component that a message describes.
pub(crate) fn component(alloc: Global, fields: &Tree) -> Result<DagComponent, NamesError>
    ensures { IfOk result (λ c. c ≡ component_of fields.now) }
{
    let none = Tree::new(alloc);
    let component = component_with(alloc, fields, settings(fields, &none));
    drop(none);
    component
}

// The same, with the `config` that the message has.
fn component_with(alloc: Global, fields: &Tree, settings: &Tree) -> Result<DagComponent, NamesError>
    requires { settings.now ≡ settings_of fields.now }
    ensures { IfOk result (λ c. c ≡ component_of fields.now) }
{
    Ok(DagComponent {
        class_name: text(alloc, fields, "class_name")?,
        name: text(alloc, settings, "name")?,
        config_file_path: text(alloc, settings, "config_file_path")?,
        readers: Items::new(readers(alloc, settings)?),
        interval: None,
    })
}

// The `config` of a component, or an empty one in its place.
pub(crate) fn settings<'a>(component: &'a Tree, none: &'a Tree) -> &'a Tree
    requires { none.now ≡ Nothing }
    ensures { result.now ≡ settings_of component.now }
{
    match message_under(component, "config") {
        Some(settings) => settings,
        None => none,
    }
}

// The text under a name, empty where there is none.
pub(crate) fn text(alloc: Global, fields: &Tree, name: &str) -> Result<Text, NamesError>
    ensures { IfOk result (λ t. t ≡ text_in name.now fields.now) }
{
    Text::new(alloc, text_under(fields, name).unwrap_or(""))
}

// The readers of a component.
fn readers(alloc: Global, settings: &Tree) -> Result<Vec<DagReader>, NamesError>
    ensures { IfOk result (λ rs. rs.items
        ≡ map reader_of (messages_under (codes "readers") settings.now)) }
{
    let mut readers = Vec::new(alloc);
    for fields in &messages_under(alloc, settings, "readers")? {
        readers.push(reader(alloc, fields)?)?;
    }
    Ok(readers)
}

// A reader.
fn reader(alloc: Global, fields: &Tree) -> Result<DagReader, NamesError>
    ensures { IfOk result (λ r. r ≡ reader_of fields.now) }
{
    Ok(DagReader {
        channel: text(alloc, fields, "channel")?,
        queue: queue_of(u32_under(fields, "pending_queue_size")),
    })
}

// The size of a queue: none is read as one, and so is 0.
fn queue_of(size: Option<u32>) -> u32
    ensures { result ≡ queue_of size }
{
    match size {
        Some(size) if size > 0 => size,
        _ => 1,
    }
}

// Whether a component is accepted behind those before it.
pub(crate) fn test_component(
    alloc: Global,
    earlier: &[DagComponent],
    component: &DagComponent,
) -> Result<(), DagError>
    requires { length earlier.now ≤ 64 }
    ensures accepted { OnOk result (component_refusal earlier.now component.now ≡ None) }
    ensures refused { IfErr result (IsDue (component_refusal earlier.now component.now)) }
{
    test_name(alloc, earlier, component)?;
    let number = earlier.len() as u32;
    let readers = component.readers.as_slice();
    test_readers(alloc, number, readers)?;
    if readers.len() < needed_by(component.class_name.as_str()) {
        let count = readers.len() as u32;
        return Err(DagError::TooFewReaders {
            component: number,
            count,
        });
    }
    if component.config_file_path.as_str().is_empty() {
        return Err(missing(alloc, number, "config_file_path"));
    }
    Ok(())
}

// How many readers the class of a name needs.
fn needed_by(class_name: &str) -> usize
    ensures { result ≡ needed_by class_name.now }
{
    match Class::named(class_name) {
        Some(class) => class.readers_needed(),
        None => 1,
    }
}

// Whether a component's name and class are accepted behind those before it.
fn test_name(
    alloc: Global,
    earlier: &[DagComponent],
    component: &DagComponent,
) -> Result<(), DagError>
    requires { length earlier.now ≤ 64 }
    ensures accepted { OnOk result (name_refusal earlier.now component.now ≡ None) }
    ensures refused { IfErr result (IsDue (name_refusal earlier.now component.now)) }
{
    let number = earlier.len() as u32;
    let name = component.name.as_str();
    if name.is_empty() {
        return Err(missing(alloc, number, "name"));
    }
    if let Some(first) = first_named(earlier, name) {
        return Err(DagError::NameTwice {
            first: first as u32,
            second: number,
        });
    }
    match Class::named(component.class_name.as_str()) {
        Some(_) => Ok(()),
        None => Err(DagError::UnknownClass { component: number }),
    }
}

// The first component of a name.
fn first_named(components: &[DagComponent], name: &str) -> Option<usize>
    ensures { result ≡ position (λ c. bytes_eq c.name name.now) components.now }
{
    components.iter().position(|c| c.name.as_str() == name)
}

// Whether the readers of a component are accepted.
fn test_readers(alloc: Global, number: u32, readers: &[DagReader]) -> Result<(), DagError>
    ensures accepted { OnOk result (readers_refusal number readers.now ≡ None) }
    ensures refused { IfErr result (IsDue (readers_refusal number readers.now)) }
{
    if readers.is_empty() {
        return Err(DagError::NoReader { component: number });
    }
    if readers.len() > MOST_READERS {
        return Err(DagError::TooManyReaders {
            component: number,
            count: count_of(readers.len()),
        });
    }
    if has_empty_channel(readers) {
        return Err(missing(alloc, number, "channel"));
    }
    match repeated_channel(readers) {
        Some(channel) => Err(DagError::ReaderTwice {
            component: number,
            channel: Text::new(alloc, channel)?,
        }),
        None => Ok(()),
    }
}

// Whether a reader has no channel's name.
fn has_empty_channel(readers: &[DagReader]) -> bool
    ensures { result ≡ list_any (λ r. is_empty r.channel) readers.now }
{
    readers.iter().any(|r| r.channel.as_str().is_empty())
}

// The first channel that stands a second time, of a few.
fn repeated_channel(readers: &[DagReader]) -> Option<&str>
    ensures { option_map (λ channel. channel.now) result
        ≡ first_repeated (map (λ r. r.channel) readers.now) }
{
    for (place, reader) in readers.iter().enumerate() {
        let channel = reader.channel.as_str();
        if reads(&readers[..place], channel) {
            return Some(channel);
        }
    }
    None
}

/// Whether one of some readers reads a channel.
pub fn reads(readers: &[DagReader], channel: &str) -> bool
    ensures { result ≡ list_any (λ r. bytes_eq r.channel channel.now) readers.now }
{
    readers.iter().any(|r| r.channel.as_str() == channel)
}

// A field that isn't there, or want of memory.
pub(crate) fn missing(alloc: Global, component: u32, field: &str) -> DagError
    ensures { IsDue (Some (dag_error.Missing component field.now)) result }
{
    match Text::new(alloc, field) {
        Ok(field) => DagError::Missing { component, field },
        Err(_) => DagError::Memory,
    }
}
