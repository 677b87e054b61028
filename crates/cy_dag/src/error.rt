// What the reading of a DAG or a component file, and its wiring, may answer in place of a value.
ghost use Rattle.std.specs.Prelude.{◌≡◌, [], ◌∷◌, ◌++◌, OnOk};
ghost use Rattle.cy_msg.specs.FaultText.{named_text, numbers_text};
ghost use Rattle.cy_dag.specs.FaultText.{dag_text, is_dag_limit};
ghost use Rattle.cy_dag.specs.Refusals.{refused_shape};
ghost use Rattle.cy_dag.specs.declared.error.DagError.TheVariants as dag_error;

use crate::Cycle;
use cy_config::ConfigError;
use cy_msg::{NamesError, Text, push_limit, push_named, push_numbers};
use std::alloc::{AllocError, AllocFailed};

/// Why a DAG, a component file or the wiring of both is refused. Components are numbered from 0, in
/// the order of the file. A count above the greatest `u32` is given as that.
#[derive(Drop)]
pub enum DagError {
    /// A field's value isn't of its kind.
    Shape {
        /// The field, as `module_config[0].components[1].config.name`.
        path: Text,
    },
    /// There is neither a component nor a timer component.
    NoComponents,
    /// There are more than 64 components, timer components among them.
    TooMany {
        /// How many.
        count: u32,
    },
    /// A field isn't there, or is empty where it may not be.
    Missing {
        /// The component.
        component: u32,
        /// The field's name.
        field: Text,
    },
    /// Two components have one name.
    NameTwice {
        /// The first that has it.
        first: u32,
        /// The one that has it too.
        second: u32,
    },
    /// There is no class of this name.
    UnknownClass {
        /// The component.
        component: u32,
    },
    /// A component reads no channel.
    NoReader {
        /// The component.
        component: u32,
    },
    /// A component has more than four readers.
    TooManyReaders {
        /// The component.
        component: u32,
        /// How many.
        count: u32,
    },
    /// A component reads a channel twice.
    ReaderTwice {
        /// The component.
        component: u32,
        /// The channel.
        channel: Text,
    },
    /// A component has fewer readers than its class reads.
    TooFewReaders {
        /// The component.
        component: u32,
        /// How many.
        count: u32,
    },
    /// What is to be done where a tuple isn't kept any more is neither `NEWEST` nor `OLDEST`.
    NotOverflow {
        /// The component.
        component: u32,
    },
    /// A parameter isn't a whole number in its range.
    NotWhole {
        /// The component.
        component: u32,
        /// The parameter's name.
        field: Text,
    },
    /// A component file has more than 256 values.
    TooManyValues {
        /// How many.
        count: u32,
    },
    /// The path of a value has no number, or more than 16.
    PathLength {
        /// The component.
        component: u32,
        /// The value's place among those of its file, from 0.
        value: u32,
        /// How many.
        count: u32,
    },
    /// In the path of a value, one isn't a whole number from 1 to 536,870,911.
    PathNumber {
        /// The component.
        component: u32,
        /// The value's place among those of its file, from 0.
        value: u32,
    },
    /// The kind of a value isn't the name of one.
    NotKind {
        /// The component.
        component: u32,
        /// The value's place among those of its file, from 0.
        value: u32,
    },
    /// The scale of a value isn't a power of ten from 1 to 10 ^ 19; or it isn't 1, and the value's
    /// kind is neither `FLOAT` nor `DOUBLE`.
    NotScale {
        /// The component.
        component: u32,
        /// The value's place among those of its file, from 0.
        value: u32,
    },
    /// A timer component's interval is 0.
    ZeroInterval {
        /// The component.
        component: u32,
    },
    /// Two components write one channel.
    TwoWriters {
        /// The first that writes it.
        first: u32,
        /// The least one that writes a channel of an earlier one.
        second: u32,
    },
    /// A component writes the channel of a timer component's ticks.
    TimerWritten {
        /// The least component that writes such a channel.
        component: u32,
        /// The timer component.
        timer: u32,
    },
    /// Components trigger one another in a circle.
    TriggerCycle {
        /// The components, from the least one that is on a circle, each before its trigger.
        components: Cycle,
    },
    /// Two values of one channel differ.
    ValueDiffers {
        /// The component whose file gives the first value of that channel.
        first: u32,
        /// The least component whose file gives a value that differs from an earlier one.
        second: u32,
    },
    /// A value is of a channel that a component of a built-in class writes, or on which a timer
    /// component's ticks stand.
    ValueWritten {
        /// The least component whose file gives such a value.
        component: u32,
        /// The component that writes the channel, or the timer component.
        writer: u32,
    },
    /// The record, the readers and the components have more than 1,024 different channels.
    TooManyChannels {
        /// How many.
        count: u32,
    },
    /// There is no memory.
    Memory,
}

impl DagError {
    /// Adds its text to others. The only error is want of memory.
    pub fn push_to(&self, to: &mut Vec<u8>) -> Result<(), AllocError>
        ensures { OnOk result (to.new.items ≡ to.old.items ++ dag_text self.now) }
    {
        match self {
            Self::Shape { path } => push_named(to, "Shape", &[], path),
            Self::NoComponents => to.extend_from_slice(b"NoComponents"),
            Self::TooMany { count } => push_limit(to, "TooMany", u64::from(*count)),
            Self::Missing { component, field } => push_of(to, "Missing", *component, field),
            Self::NameTwice { first, second } => push_two(to, "NameTwice", *first, *second),
            Self::UnknownClass { component } => push_one(to, "UnknownClass", *component),
            Self::NoReader { component } => push_one(to, "NoReader", *component),
            Self::TooManyReaders { component, count } => {
                push_two(to, "TooManyReaders", *component, *count)
            }
            Self::ReaderTwice { component, channel } => {
                push_of(to, "ReaderTwice", *component, channel)
            }
            Self::TooFewReaders { component, count } => {
                push_two(to, "TooFewReaders", *component, *count)
            }
            Self::NotOverflow { component } => push_one(to, "NotOverflow", *component),
            Self::NotWhole { component, field } => push_of(to, "NotWhole", *component, field),
            Self::TooManyValues { count } => push_limit(to, "TooManyValues", u64::from(*count)),
            Self::PathLength {
                component,
                value,
                count,
            } => push_numbers(to, "PathLength", &[*component, *value, *count]),
            Self::PathNumber { component, value } => {
                push_two(to, "PathNumber", *component, *value)
            }
            Self::NotKind { component, value } => push_two(to, "NotKind", *component, *value),
            Self::NotScale { component, value } => push_two(to, "NotScale", *component, *value),
            Self::ZeroInterval { component } => push_one(to, "ZeroInterval", *component),
            Self::TwoWriters { first, second } => push_two(to, "TwoWriters", *first, *second),
            Self::TimerWritten { component, timer } => {
                push_two(to, "TimerWritten", *component, *timer)
            }
            Self::TriggerCycle { components } => {
                push_numbers(to, "TriggerCycle", components.as_slice())
            }
            Self::ValueDiffers { first, second } => push_two(to, "ValueDiffers", *first, *second),
            Self::ValueWritten { component, writer } => {
                push_two(to, "ValueWritten", *component, *writer)
            }
            Self::TooManyChannels { count } => {
                push_limit(to, "TooManyChannels", u64::from(*count))
            }
            Self::Memory => to.extend_from_slice(b"out of memory"),
        }
    }

    /// Whether it is a limit that was passed.
    pub fn is_limit(&self) -> bool
        ensures { result ≡ is_dag_limit self.now }
    {
        matches!(
            self,
            DagError::TooMany { .. }
                | DagError::TooManyValues { .. }
                | DagError::TooManyChannels { .. }
        )
    }
}

// Adds the name of a fault and its one number.
fn push_one(to: &mut Vec<u8>, what: &str, number: u32) -> Result<(), AllocError>
    ensures { OnOk result (to.new.items ≡ to.old.items ++ numbers_text what.now (number ∷ [])) }
{
    push_numbers(to, what, &[number])
}

// Adds the name of a fault and its two numbers.
fn push_two(to: &mut Vec<u8>, what: &str, first: u32, second: u32) -> Result<(), AllocError>
    ensures { OnOk result
        (to.new.items ≡ to.old.items ++ numbers_text what.now (first ∷ second ∷ [])) }
{
    push_numbers(to, what, &[first, second])
}

// Adds the name of a fault, the number of its component, and a name there.
fn push_of(to: &mut Vec<u8>, what: &str, component: u32, name: &Text) -> Result<(), AllocError>
    ensures { OnOk result
        (to.new.items ≡ to.old.items ++ named_text what.now (component ∷ []) name.now) }
{
    push_named(to, what, &[component], name)
}

impl From<AllocError> for DagError {
    ghost from_gives = { λ _ e. e ≡ dag_error.Memory };

    fn from(_: AllocError) -> Self {
        DagError::Memory
    }
}

impl<T: Drop> From<AllocFailed<T>> for DagError {
    ghost from_gives = { λ _ e. e ≡ dag_error.Memory };

    fn from(_: AllocFailed<T>) -> Self {
        DagError::Memory
    }
}

impl From<NamesError> for DagError {
    ghost from_gives = { λ _ e. e ≡ dag_error.Memory };

    fn from(_: NamesError) -> Self {
        DagError::Memory
    }
}

impl From<ConfigError> for DagError {
    ghost from_gives = { λ fault e. e ≡ refused_shape fault };

    fn from(fault: ConfigError) -> Self {
        match fault {
            ConfigError::Shape { path } => DagError::Shape { path },
            ConfigError::Memory => DagError::Memory,
        }
    }
}
