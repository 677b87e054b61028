// What a component file may say beside the class, the channel and the overflow.
ghost use Rattle.std.specs.Prelude.{◌≡◌, IfOk, IfErr};
ghost use Rattle.cy_comp.specs.Options.{options_with};

use cy_msg::{Bytes, Items, NamesError, Text};
use cy_value::{ChannelValue, copy_values};
use std::alloc::Global;

/// What the file of a component may say beside its class, its channel and its overflow. It goes
/// whole from the file into a wiring.
#[derive(Drop)]
pub struct Options {
    /// The type of the messages on its channel, empty where the file has none.
    pub out_type: Text,
    /// The description of that type, where the record of the answers has one; else empty.
    pub description: Bytes,
    /// The name of the record that has the answers of the calls; empty where there is none.
    pub answers: Text,
    /// Where the values of messages are, on the channels that it names. It holds for the whole run,
    /// whichever component's file says it.
    pub values: Items<ChannelValue>,
}

impl Options {
    /// The options of a file that has none but the type of the messages. The only error is
    /// `Memory`.
    pub fn with_type(alloc: Global, out_type: &str) -> Result<Self, NamesError>
        ensures options { IfOk result (λ options. options ≡ options_with out_type.now) }
        ensures memory { IfErr result (λ e. e ≡ NamesError.Memory) }
    {
        Ok(Options {
            out_type: Text::new(alloc, out_type)?,
            description: Bytes::new(alloc, &[])?,
            answers: Text::new(alloc, "")?,
            values: Items::new(Vec::new(alloc)),
        })
    }

    /// A copy. The only error is `Memory`.
    pub fn copy(&self, alloc: Global) -> Result<Self, NamesError>
        ensures copy { IfOk result (λ options. options ≡ self.now) }
        ensures memory { IfErr result (λ e. e ≡ NamesError.Memory) }
    {
        Ok(Options {
            out_type: Text::new(alloc, self.out_type.as_str())?,
            description: Bytes::new(alloc, self.description.as_slice())?,
            answers: Text::new(alloc, self.answers.as_str())?,
            values: copy_values(alloc, self.values.as_slice())?,
        })
    }
}
