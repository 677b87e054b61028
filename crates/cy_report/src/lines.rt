// The lines of the text, each added to it.
ghost use Rattle.std.specs.Prelude.{true, ◌≡◌, ◌++◌, length, OnOk};
ghost use Rattle.std.specs.List.{flat_map};
ghost use Rattle.cy_msg.specs.Quoted.{quoted};
ghost use Rattle.cy_report.specs.CheckText.{answer_count, answers_of, component_line};
ghost use Rattle.cy_report.specs.CheckText.{component_lines, config_lines};
ghost use Rattle.cy_report.specs.CheckText.{context_head, context_line, context_lines, name_in};
ghost use Rattle.cy_report.specs.CheckText.{interval_text, line_by, lines_of, order_text};
ghost use Rattle.cy_report.specs.CheckText.{overflow_text, path_text, spaced, timer_line};
ghost use Rattle.cy_report.specs.CheckText.{unknown_lines, value_line};
ghost use Rattle.cy_wiring.specs.Wiring.{queue_of_first};

use cy_comp::Kind;
use cy_dag::{Config, DagComponent, DagReader};
use cy_fuse::Overflow;
use cy_msg::{ContextPlan, Text, push_quoted};
use cy_value::ChannelValue;
use std::io;
use std::io::Write;

// The components, each with its file.
pub(crate) fn push_components(
    to: &mut Vec<u8>,
    components: &[DagComponent],
    configs: &[Config],
) -> io::Result<()>
    requires { length configs.now ≡ length components.now }
    ensures { OnOk result (to.new.items
        ≡ to.old.items ++ component_lines components.now configs.now) }
{
    for (place, component) in components.iter().enumerate() {
        push_lines(to, component, &configs[place])?;
    }
    Ok(())
}

// A component, and what its file says of the values of channels.
fn push_lines(to: &mut Vec<u8>, component: &DagComponent, config: &Config) -> io::Result<()>
    ensures { OnOk result (to.new.items ≡ to.old.items ++ lines_of component.now config.now) }
{
    push_line(to, component, config)?;
    push_values(to, config.options.values.as_slice())
}

// A component of either kind.
fn push_line(to: &mut Vec<u8>, component: &DagComponent, config: &Config) -> io::Result<()>
    ensures { OnOk result (to.new.items
        ≡ to.old.items ++ line_by component.now.interval component.now config.now) }
{
    match component.interval {
        Some(interval) => push_timer(to, interval, component, config),
        None => push_component(to, component, config),
    }
}

// A timer component.
fn push_timer(
    to: &mut Vec<u8>,
    interval: u32,
    component: &DagComponent,
    config: &Config,
) -> io::Result<()>
    ensures { OnOk result (to.new.items
        ≡ to.old.items ++ timer_line interval component.now config.now) }
{
    write!(to, "timer ")?;
    push_name(to, component.name.as_str())?;
    write!(to, " class {}", component.class_name.as_str())?;
    push_interval(to, interval)?;
    write!(to, " writes ")?;
    push_name(to, config.out.as_str())?;
    push_answers(to, config)?;
    writeln!(to, "")
}

// How often a tick triggers a timer component.
#[tactic(auto, unfolding(crate::specs::CheckText::interval_text))]
fn push_interval(to: &mut Vec<u8>, interval: u32) -> io::Result<()>
    ensures { OnOk result (to.new.items ≡ to.old.items ++ interval_text interval) }
{
    write!(to, " every {interval} ms")
}

// A component that reads what others send.
fn push_component(to: &mut Vec<u8>, component: &DagComponent, config: &Config) -> io::Result<()>
    ensures { OnOk result (to.new.items ≡ to.old.items ++ component_line component.now config.now) }
{
    write!(to, "component ")?;
    push_name(to, component.name.as_str())?;
    let readers = component.readers.as_slice();
    write!(to, " class {} reads", component.class_name.as_str())?;
    push_readers(to, readers)?;
    write!(to, " queue {} writes ", queue_of_first(readers))?;
    push_name(to, config.out.as_str())?;
    push_overflow(to, config.overflow)?;
    push_answers(to, config)?;
    writeln!(to, "")
}

// Where the values of messages are, on channels.
fn push_values(to: &mut Vec<u8>, values: &[ChannelValue]) -> io::Result<()>
    ensures { OnOk result (to.new.items ≡ to.old.items ++ flat_map value_line values.now) }
{
    for value in values {
        push_value(to, value)?;
    }
    Ok(())
}

// Where the values of a channel's messages are.
fn push_value(to: &mut Vec<u8>, value: &ChannelValue) -> io::Result<()>
    ensures { OnOk result (to.new.items ≡ to.old.items ++ value_line value.now) }
{
    write!(to, "value ")?;
    push_name(to, value.channel.as_str())?;
    write!(to, " path")?;
    push_path(to, value.form.path.as_slice())?;
    writeln!(
        to,
        " kind {} scale {}",
        value.form.kind.name(),
        value.form.scale
    )
}

// The numbers of a path, each behind a space.
fn push_path(to: &mut Vec<u8>, path: &[u32]) -> io::Result<()>
    ensures { OnOk result (to.new.items ≡ to.old.items ++ path_text path.now) }
{
    for number in path {
        write!(to, " {number}")?;
    }
    Ok(())
}

// What is done where a tuple isn't kept any more.
#[tactic(auto, unfolding(crate::specs::CheckText::overflow_text))]
fn push_overflow(to: &mut Vec<u8>, overflow: Overflow) -> io::Result<()>
    ensures { OnOk result (to.new.items ≡ to.old.items ++ overflow_text overflow) }
{
    match overflow {
        Overflow::Newest => Ok(()),
        Overflow::Oldest => write!(to, " overflow OLDEST"),
    }
}

// The record of a component's answers and how many there are, where it has one.
#[tactic(auto, unfolding(crate::specs::CheckText::answers_text))]
fn push_answers(to: &mut Vec<u8>, config: &Config) -> io::Result<()>
    ensures { OnOk result (to.new.items ≡ to.old.items ++ answers_of config.now) }
{
    let name = config.options.answers.as_str();
    if name.is_empty() {
        return Ok(());
    }
    write!(to, " answers")?;
    push_spaced(to, name)?;
    write!(to, " {}", answer_count(&config.kind))
}

// How many answers a class has from a file.
fn answer_count(kind: &Kind) -> usize
    ensures { result ≡ answer_count kind.now }
{
    match kind {
        Kind::External { answers } => answers.as_slice().len(),
        _ => 0,
    }
}

// A name in quotes.
fn push_name(to: &mut Vec<u8>, name: &str) -> io::Result<()>
    ensures { OnOk result (to.new.items ≡ to.old.items ++ quoted true name.now) }
{
    Ok(push_quoted(to, name.as_bytes(), true)?)
}

// The channels that are read.
fn push_readers(to: &mut Vec<u8>, readers: &[DagReader]) -> io::Result<()>
    ensures { OnOk result (to.new.items
        ≡ to.old.items ++ flat_map (λ r. spaced r.channel) readers.now) }
{
    for reader in readers {
        push_spaced(to, reader.channel.as_str())?;
    }
    Ok(())
}

// A name in quotes behind a space.
fn push_spaced(to: &mut Vec<u8>, name: &str) -> io::Result<()>
    ensures { OnOk result (to.new.items ≡ to.old.items ++ spaced name.now) }
{
    write!(to, " ")?;
    push_name(to, name)
}

// How many tuples wait for a component at most.
fn queue_of_first(readers: &[DagReader]) -> u32
    ensures { result ≡ queue_of_first readers.now }
{
    match readers.first() {
        Some(reader) => reader.queue,
        None => 1,
    }
}

// The contexts.
pub(crate) fn push_contexts(
    to: &mut Vec<u8>,
    components: &[DagComponent],
    contexts: &[ContextPlan],
) -> io::Result<()>
    ensures { OnOk result (to.new.items
        ≡ to.old.items ++ context_lines components.now contexts.now) }
{
    for context in contexts {
        push_context(to, components, context)?;
    }
    Ok(())
}

// A context.
fn push_context(
    to: &mut Vec<u8>,
    components: &[DagComponent],
    context: &ContextPlan,
) -> io::Result<()>
    ensures { OnOk result (to.new.items
        ≡ to.old.items ++ context_line components.now context.now) }
{
    push_context_head(to, context)?;
    push_order(to, components, context.order.as_slice())?;
    writeln!(to, "")
}

// A context's name and its processors.
#[tactic(auto, unfolding(crate::specs::CheckText::context_head))]
fn push_context_head(to: &mut Vec<u8>, context: &ContextPlan) -> io::Result<()>
    ensures { OnOk result (to.new.items ≡ to.old.items ++ context_head context.now) }
{
    write!(to, "context ")?;
    push_name(to, context.name.as_str())?;
    write!(to, " processors {} order", context.processors)
}

// The components of a context in their order.
#[tactic(auto, unfolding(crate::specs::CheckText::order_text))]
fn push_order(to: &mut Vec<u8>, components: &[DagComponent], order: &[u32]) -> io::Result<()>
    ensures { OnOk result (to.new.items ≡ to.old.items ++ order_text components.now order.now) }
{
    if order.is_empty() {
        return write!(to, " -");
    }
    for number in order {
        push_spaced(to, name_in(components, *number))?;
    }
    Ok(())
}

// The name of the component with a number.
fn name_in(components: &[DagComponent], number: u32) -> &str
    ensures { result.now ≡ name_in components.now number }
{
    match components.get(number as usize) {
        Some(component) => component.name.as_str(),
        None => "",
    }
}

// The unknown fields of the component files.
pub(crate) fn push_configs(
    to: &mut Vec<u8>,
    components: &[DagComponent],
    configs: &[Config],
) -> io::Result<()>
    requires { length configs.now ≡ length components.now }
    ensures { OnOk result (to.new.items ≡ to.old.items ++ config_lines components.now configs.now) }
{
    for (place, component) in components.iter().enumerate() {
        let file = component.config_file_path.as_str();
        push_unknown(to, file, configs[place].unknown.as_slice())?;
    }
    Ok(())
}

// The unknown fields of a file.
pub(crate) fn push_unknown(to: &mut Vec<u8>, file: &str, paths: &[Text]) -> io::Result<()>
    ensures { OnOk result (to.new.items ≡ to.old.items ++ unknown_lines file.now paths.now) }
{
    for path in paths {
        writeln!(to, "unknown {file} {}", path.as_str())?;
    }
    Ok(())
}
