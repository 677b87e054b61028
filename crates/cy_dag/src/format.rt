// The fields of a DAG file and of component files.
ghost use Rattle.std.specs.Prelude.{◌≡◌};
ghost use Rattle.cy_dag.specs.ConfigFile.{config_field};
ghost use Rattle.cy_dag.specs.Format.{dag_field};
ghost use Rattle.cy_dag.specs.declared.format.DagMessage.TheVariants.{Component, File, Module};
ghost use Rattle.cy_dag.specs.declared.format.DagMessage.TheVariants.{Reader, Settings};
ghost use Rattle.cy_dag.specs.declared.format.DagMessage.TheVariants.{TimerComponent};
ghost use Rattle.cy_dag.specs.declared.format.DagMessage.TheVariants.{TimerSettings};
ghost use Rattle.cy_dag.specs.declared.format.ConfigMessage.TheVariants as config_message;

use crate::class::Class;
use cy_config::{Described, Field, Kind};

// The messages of a DAG file.
#[derive(Clone, Copy)]
pub enum DagMessage {
    File,
    Module,
    Component,
    Settings,
    Reader,
    TimerComponent,
    TimerSettings,
}

impl Described for DagMessage {
    ghost field = { dag_field };

    fn field(self, name: &str) -> Option<Field<DagMessage>> {
        match self {
            DagMessage::File => file_field(name),
            DagMessage::Module => module_field(name),
            DagMessage::Component => component_field(name),
            DagMessage::Settings => settings_field(name),
            DagMessage::Reader => reader_field(name),
            DagMessage::TimerComponent => timer_component_field(name),
            DagMessage::TimerSettings => timer_settings_field(name),
        }
    }
}

// The file itself.
fn file_field(name: &str) -> Option<Field<DagMessage>>
    ensures { result ≡ dag_field File name.now }
{
    match name {
        "module_config" => Some(Field::repeated(Kind::Message(DagMessage::Module))),
        _ => None,
    }
}

// One of `module_config`.
fn module_field(name: &str) -> Option<Field<DagMessage>>
    ensures { result ≡ dag_field Module name.now }
{
    match name {
        "module_library" => Some(Field::single(Kind::Text)),
        "components" => Some(Field::repeated(Kind::Message(DagMessage::Component))),
        "timer_components" => Some(Field::repeated(Kind::Message(DagMessage::TimerComponent))),
        _ => None,
    }
}

// One of `components`.
fn component_field(name: &str) -> Option<Field<DagMessage>>
    ensures { result ≡ dag_field Component name.now }
{
    match name {
        "class_name" => Some(Field::single(Kind::Text)),
        "config" => Some(Field::single(Kind::Message(DagMessage::Settings))),
        _ => None,
    }
}

// The `config` of a component.
fn settings_field(name: &str) -> Option<Field<DagMessage>>
    ensures { result ≡ dag_field Settings name.now }
{
    match name {
        "name" => Some(Field::single(Kind::Text)),
        "config_file_path" => Some(Field::single(Kind::Text)),
        "flag_file_path" => Some(Field::single(Kind::Text)),
        "readers" => Some(Field::repeated(Kind::Message(DagMessage::Reader))),
        _ => None,
    }
}

// One of `readers`.
fn reader_field(name: &str) -> Option<Field<DagMessage>>
    ensures { result ≡ dag_field Reader name.now }
{
    match name {
        "channel" => Some(Field::single(Kind::Text)),
        "qos_profile" => Some(Field::single(Kind::AnyMessage)),
        "pending_queue_size" => Some(Field::single(Kind::u32())),
        _ => None,
    }
}

// One of `timer_components`.
fn timer_component_field(name: &str) -> Option<Field<DagMessage>>
    ensures { result ≡ dag_field TimerComponent name.now }
{
    match name {
        "class_name" => Some(Field::single(Kind::Text)),
        "config" => Some(Field::single(Kind::Message(DagMessage::TimerSettings))),
        _ => None,
    }
}

// The `config` of a timer component.
fn timer_settings_field(name: &str) -> Option<Field<DagMessage>>
    ensures { result ≡ dag_field TimerSettings name.now }
{
    match name {
        "name" => Some(Field::single(Kind::Text)),
        "config_file_path" => Some(Field::single(Kind::Text)),
        "flag_file_path" => Some(Field::single(Kind::Text)),
        "interval" => Some(Field::single(Kind::u32())),
        _ => None,
    }
}

// The messages of a component file: the file of a class, and in it values of channels.
#[derive(Clone, Copy)]
pub enum ConfigMessage {
    File(Class),
    Value,
}

impl Described for ConfigMessage {
    ghost field = { config_field };

    fn field(self, name: &str) -> Option<Field<ConfigMessage>> {
        match self {
            ConfigMessage::File(class) => class_field(class, name),
            ConfigMessage::Value => value_field(name),
        }
    }
}

// The file of a class.
fn class_field(class: Class, name: &str) -> Option<Field<ConfigMessage>>
    ensures { result ≡ config_field (config_message.File class) name.now }
{
    match name {
        "out" => Some(Field::single(Kind::Text)),
        "on_overflow" => Some(Field::single(Kind::Anything)),
        _ if class.has_parameter(name) => Some(Field::single(Kind::Anything)),
        _ => class.option(name),
    }
}

// One of `value`.
fn value_field(name: &str) -> Option<Field<ConfigMessage>>
    ensures { result ≡ config_field config_message.Value name.now }
{
    match name {
        "channel" => Some(Field::single(Kind::Text)),
        "path" => Some(Field::repeated(Kind::Anything)),
        "kind" => Some(Field::single(Kind::Anything)),
        "scale" => Some(Field::single(Kind::Anything)),
        _ => None,
    }
}
