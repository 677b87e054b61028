// What the reading of a scheduler file may answer in place of a value.
ghost use Rattle.std.specs.Prelude.{◌≡◌, ◌++◌, OnOk};
ghost use Rattle.cy_config.specs.declared.error.ConfigError.{ConfigError};
ghost use Rattle.cy_sched.specs.FaultText.{is_sched_limit, sched_text};
ghost use Rattle.cy_sched.specs.Refusals.{refused_shape};
ghost use Rattle.cy_sched.specs.declared.error.SchedError.TheVariants as sched_error;

use cy_config::ConfigError;
use cy_msg::{NamesError, Text, push_limit, push_named};
use std::alloc::{AllocError, AllocFailed};

/// What [`read_sched`](crate::read_sched) may answer in place of a value.
#[derive(Drop)]
pub enum SchedError {
    /// A field's value isn't of its kind.
    Shape {
        /// The field, as `scheduler_conf.classic_conf.groups[1].name`.
        path: Text,
    },
    /// The policy is neither `classic` nor `choreography`.
    UnknownPolicy {
        /// The policy.
        policy: Text,
    },
    /// A classic file has no group, and no number of processors for the one that stands in its
    /// place.
    NoGroup,
    /// Two groups have one name.
    GroupTwice {
        /// The name.
        name: Text,
    },
    /// The file asks for more than 64 processors.
    TooManyProcessors {
        /// How many it asks for.
        count: u64,
    },
    /// There is no memory.
    Memory,
}

impl SchedError {
    /// Adds its text to others. The only error is want of memory.
    pub fn push_to(&self, to: &mut Vec<u8>) -> Result<(), AllocError>
        ensures { OnOk result (to.new.items ≡ to.old.items ++ sched_text self.now) }
    {
        match self {
            SchedError::Shape { path } => push_named(to, "Shape", &[], path),
            SchedError::UnknownPolicy { policy } => push_named(to, "UnknownPolicy", &[], policy),
            SchedError::NoGroup => to.extend_from_slice(b"NoGroup"),
            SchedError::GroupTwice { name } => push_named(to, "GroupTwice", &[], name),
            SchedError::TooManyProcessors { count } => push_limit(to, "TooManyProcessors", *count),
            SchedError::Memory => to.extend_from_slice(b"out of memory"),
        }
    }

    /// Whether it is a limit that was passed.
    pub fn is_limit(&self) -> bool
        ensures { result ≡ is_sched_limit self.now }
    {
        matches!(self, SchedError::TooManyProcessors { .. })
    }
}

impl From<AllocError> for SchedError {
    ghost from_gives = { λ _ e. e ≡ sched_error.Memory };

    fn from(_: AllocError) -> Self {
        SchedError::Memory
    }
}

impl<T: Drop> From<AllocFailed<T>> for SchedError {
    ghost from_gives = { λ _ e. e ≡ sched_error.Memory };

    fn from(_: AllocFailed<T>) -> Self {
        SchedError::Memory
    }
}

impl From<NamesError> for SchedError {
    ghost from_gives = { λ _ e. e ≡ sched_error.Memory };

    fn from(_: NamesError) -> Self {
        SchedError::Memory
    }
}

impl From<ConfigError> for SchedError {
    ghost from_gives = { λ fault e. e ≡ refused_shape fault };

    fn from(fault: ConfigError) -> Self {
        match fault {
            ConfigError::Shape { path } => SchedError::Shape { path },
            ConfigError::Memory => SchedError::Memory,
        }
    }
}
