// The DAG file, as a tree of fields.
ghost use Rattle.std.specs.Prelude.{◌≡◌, ◌++◌, ◌∷◌, [], map, option_map, IfOk, OnOk};
ghost use Rattle.cy_text.specs.Entries.{held_of};
ghost use Rattle.cy_text.specs.Fields.{Nothing, And, Quote};
ghost use Rattle.cy_make.specs.Texts.{and_said, component, config_said, listed, reader};
ghost use Rattle.cy_make.specs.Texts.{dag_fields, nowhere, suffix_of};

use crate::Config;
use cy_msg::{Bytes, Text};
use cy_text::{Entry, Span, Tree, Value};
use std::alloc::{AllocError, Global};

// What is not printed yet stands nowhere.
const NOWHERE: Span = Span { start: 0, end: 0 };

/// The name of a file: a prefix with a suffix behind it.
pub fn name_with(alloc: Global, prefix: &str, suffix: &str) -> Result<Text, AllocError>
    ensures { IfOk result (λ t. t ≡ prefix.now ++ suffix.now) }
{
    let mut name = String::from_str(alloc, prefix)?;
    name.push_str(suffix)?;
    Ok(Text::from_string(name))
}

// Adds a field that holds a value.
fn push(alloc: Global, tree: &mut Tree, name: &str, value: Value) -> Result<(), AllocError>
    ensures { OnOk result (tree.new ≡ And tree.old name.now nowhere (held_of value)) }
{
    let name = Text::from_string(String::from_str(alloc, name)?);
    tree.push(Entry {
        name,
        span: NOWHERE,
        value,
    })
}

// Adds a field that holds a text.
fn push_text(alloc: Global, tree: &mut Tree, name: &str, text: &str) -> Result<(), AllocError>
    ensures { OnOk result (tree.new ≡ And tree.old name.now nowhere (Quote text.now)) }
{
    let bytes = Bytes::from_vec(text.as_bytes().to_vec(alloc)?);
    push(alloc, tree, name, Value::Quote(bytes))
}

// Adds a reader of a channel.
fn push_reader(alloc: Global, config: &mut Tree, channel: &str) -> Result<(), AllocError>
    ensures { OnOk result (config.new ≡ and_said config.old (reader channel.now ∷ [])) }
{
    let mut reader = Tree::new(alloc);
    push_text(alloc, &mut reader, "channel", channel)?;
    push(alloc, config, "readers", Value::Message(reader))
}

// Adds a reader of a channel, where there is one.
fn push_reader_of(alloc: Global, config: &mut Tree, channel: Option<&str>) -> Result<(), AllocError>
    ensures { OnOk result (config.new ≡ and_said config.old
        (map reader (listed (option_map (λ c. c.now) channel.entry)))) }
{
    match channel {
        Some(channel) => push_reader(alloc, config, channel),
        None => Ok(()),
    }
}

// A component of the DAG.
#[derive(Clone, Copy)]
struct Component<'a> {
    name: &'a str,
    class: &'a str,
    config: Config,
    // The channel whose messages it is called for, and the one that is joined to it.
    trigger: &'a str,
    joined: Option<&'a str>,
}

impl Component<'_> {
    // What its file is to say of it: its name, its component file and its readers.
    fn config_tree(&self, alloc: Global, prefix: &str) -> Result<Tree, AllocError>
        ensures { IfOk result (λ t. t ≡ and_said Nothing (config_said self.now.name.now
            (prefix.now ++ suffix_of self.now.config)
            (self.now.trigger.now ∷ listed (option_map (λ c. c.now) self.now.joined)))) }
    {
        let file = name_with(alloc, prefix, self.config.suffix())?;
        let mut config = Tree::new(alloc);
        push_text(alloc, &mut config, "name", self.name)?;
        push_text(alloc, &mut config, "config_file_path", file.as_str())?;
        push_reader(alloc, &mut config, self.trigger)?;
        push_reader_of(alloc, &mut config, self.joined)?;
        Ok(config)
    }

    // Adds it to the components of a DAG.
    fn push_to(&self, alloc: Global, dag: &mut Tree, prefix: &str) -> Result<(), AllocError>
        ensures { OnOk result (dag.new ≡ and_said dag.old (component self.now.name.now
            self.now.class.now (prefix.now ++ suffix_of self.now.config)
            (self.now.trigger.now ∷ listed (option_map (λ c. c.now) self.now.joined)) ∷ [])) }
    {
        let config = self.config_tree(alloc, prefix)?;
        let mut component = Tree::new(alloc);
        push_text(alloc, &mut component, "class_name", self.class)?;
        push(alloc, &mut component, "config", Value::Message(config))?;
        push(alloc, dag, "components", Value::Message(component))
    }
}

const ADDER: Component = Component {
    name: "adder",
    class: "SumComponent",
    config: Config::Adder,
    trigger: "/a",
    joined: Some("/b"),
};

const BAND: Component = Component {
    name: "band",
    class: "FilterComponent",
    config: Config::Band,
    trigger: "/sum",
    joined: None,
};

const LAST8: Component = Component {
    name: "last8",
    class: "WindowComponent",
    config: Config::Last8,
    trigger: "/band",
    joined: None,
};

const LATE: Component = Component {
    name: "late",
    class: "HoldComponent",
    config: Config::Late,
    trigger: "/a",
    joined: None,
};

/// The fields of the DAG file, where the names of the component files begin with a prefix.
#[tactic(auto, unfolding(crate::specs::Texts::dag_fields))]
pub fn dag_tree(alloc: Global, prefix: &str) -> Result<Tree, AllocError>
    ensures { IfOk result (λ t. t ≡ dag_fields prefix.now) }
{
    let mut module = Tree::new(alloc);
    push_text(alloc, &mut module, "module_library", "own")?;
    ADDER.push_to(alloc, &mut module, prefix)?;
    BAND.push_to(alloc, &mut module, prefix)?;
    LAST8.push_to(alloc, &mut module, prefix)?;
    LATE.push_to(alloc, &mut module, prefix)?;
    let mut dag = Tree::new(alloc);
    push(alloc, &mut dag, "module_config", Value::Message(module))?;
    Ok(dag)
}
