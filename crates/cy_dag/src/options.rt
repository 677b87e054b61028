// What a component file may say beside its class, its channel and its overflow.
ghost use Rattle.std.specs.Prelude.{◌≡◌, IfOk, IfErr, None};
ghost use Rattle.cy_dag.specs.Options.{answers_in, field_among, has_answers, option_rows};
ghost use Rattle.cy_dag.specs.Options.{options_in, refusal_among};
ghost use Rattle.cy_dag.specs.Refusals.{IsDue};

use crate::DagError;
use crate::class::Class;
use crate::component::text;
use crate::format::ConfigMessage;
use crate::values::values;
use cy_comp::Options;
use cy_config::{Field, Kind};
use cy_msg::{Bytes, NamesError, Text};
use cy_text::Tree;
use std::alloc::Global;

impl Class {
    // The option of a name, where a file of this class may have one.
    pub(crate) fn option(self, name: &str) -> Option<Field<ConfigMessage>>
        ensures { result ≡ field_among (option_rows self) name.now }
    {
        match name {
            "out_type" => Some(Field::single(Kind::Text)),
            "answers" if self.has_answers() => Some(Field::single(Kind::Text)),
            "value" => Some(Field::repeated(Kind::Message(ConfigMessage::Value))),
            _ => None,
        }
    }

    // Whether the answers of its components come from a file.
    fn has_answers(self) -> bool
        ensures { result ≡ has_answers self }
    {
        matches!(self, Class::External)
    }

    // The name of the record that has the answers, empty where there is none.
    fn answers(self, alloc: Global, tree: &Tree) -> Result<Text, NamesError>
        ensures { IfOk result (λ name. name ≡ answers_in self tree.now) }
    {
        if self.has_answers() {
            text(alloc, tree, "answers")
        } else {
            Text::new(alloc, "")
        }
    }

    // What the file of a component of this class says of its options.
    pub(crate) fn options(
        self,
        alloc: Global,
        tree: &Tree,
        component: u32,
    ) -> Result<Options, DagError>
        ensures accepted { IfOk result (λ _.
            refusal_among (option_rows self) component tree.now ≡ None) }
        ensures options { IfOk result (λ options. options ≡ options_in self tree.now) }
        ensures refused { IfErr result (IsDue
            (refusal_among (option_rows self) component tree.now)) }
    {
        Ok(Options {
            out_type: text(alloc, tree, "out_type")?,
            description: Bytes::new(alloc, &[])?,
            answers: self.answers(alloc, tree)?,
            values: values(alloc, tree, component)?,
        })
    }
}
