// What the reading of a file's messages may answer in place of a value.
ghost use Rattle.std.specs.Prelude.{◌≡◌};
ghost use Rattle.cy_config.specs.declared.error.ConfigError.TheVariants as config_error;

use cy_msg::Text;
use std::alloc::{AllocError, AllocFailed};

/// What [`check`](crate::check) may answer in place of a value.
#[derive(Drop)]
pub enum ConfigError {
    /// A field's value isn't of its kind.
    Shape {
        /// The field, as `module_config[0].components[1].config.name`.
        path: Text,
    },
    /// There is no memory.
    Memory,
}

impl From<AllocError> for ConfigError {
    ghost from_gives = { λ _ e. e ≡ config_error.Memory };

    fn from(_: AllocError) -> Self {
        ConfigError::Memory
    }
}

impl<T: Drop> From<AllocFailed<T>> for ConfigError {
    ghost from_gives = { λ _ e. e ≡ config_error.Memory };

    fn from(_: AllocFailed<T>) -> Self {
        ConfigError::Memory
    }
}
