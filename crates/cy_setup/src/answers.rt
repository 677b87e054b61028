// Reads the answers of a component, where its file names a record that has them.
ghost use Rattle.std.specs.Prelude.{◌≡◌, ◌<◌, true, Some, None, option_map, IfOk, IfErr, IfSome};
ghost use Rattle.std.specs.Prelude.{IsSome, List, ℕ};
ghost use Rattle.cy_answers.specs.Answers.{IsDue, answers_refusal, messages_on};
ghost use Rattle.cy_comp.specs.Kind.{is_kind_in_range};
ghost use Rattle.cy_comp.specs.declared.kind.Kind.TheVariants.{External};
ghost use Rattle.cy_dag.specs.Classes.{IsOfClass};
ghost use Rattle.cy_setup.specs.Comes.{ComesTo};
ghost use Rattle.cy_setup.specs.AnswersFile.{answered_in, answers_file, channel_in, type_or};
ghost use Rattle.cy_setup.specs.AnswersFile.{with_answers};
ghost use Rattle.cy_setup.specs.private.Answered.{AreInRange, config_with, config_given};

use crate::SetupError;
use crate::error::answers_fault;
use crate::listing::read_record;
use cy_answers::{AnswersError, read_answers};
use cy_comp::{Answers, Kind, Options};
use cy_dag::Config;
use cy_msg::{Bytes, Text};
use cy_reader::Record;
use cy_store::Store;
use std::alloc::Global;
use std::thread::Threads;

// What a record says for a component beside its file: its answers, and the type and the description
// of the messages on its channel.
#[derive(Drop)]
struct Answered {
    answers: Answers,
    out_type: Text,
    description: Bytes,
}

/// The name of the record that has the answers of a component, where its file names one.
pub(crate) fn answers_file(config: &Config) -> Option<&str>
    ensures { option_map (λ n. n.now) result ≡ answers_file config.now }
{
    let name = config.options.answers.as_str();
    match config.kind {
        Kind::External { .. } if !name.is_empty() => Some(name),
        _ => None,
    }
}

// A type, or another one in place of an empty one.
fn type_or<'a>(message_type: &'a str, other: &'a str) -> &'a str
    ensures { result.now ≡ type_or message_type.now other.now }
{
    if message_type.is_empty() {
        other
    } else {
        message_type
    }
}

// The type and the description of the messages on a component's channel.
fn form_of<'a>(whole: &'a Record, config: &'a Config) -> (&'a str, &'a [u8])
    ensures out_type { result.0.now ≡ type_or (channel_in whole.now config.now.out).message_type
        config.now.options.out_type }
    ensures description { result.1.now ≡ (channel_in whole.now config.now.out).proto_desc }
{
    let out_type = config.options.out_type.as_str();
    match whole.channel_named(config.out.as_str()) {
        Some(channel) => (
            type_or(channel.message_type.as_str(), out_type),
            channel.proto_desc.as_slice(),
        ),
        None => (out_type, &[]),
    }
}

// What a record says for the component of a number, or why it has no answers.
fn judge_answers(
    alloc: Global,
    number: u32,
    whole: &Record,
    config: &Config,
) -> Result<Answered, AnswersError>
    requires { number < 64 }
    ensures accepted { IfOk result (λ _.
        answers_refusal (messages_on config.now.out whole.now) ≡ None) }
    ensures answered { IfOk result (λ a.
        config_with config.now a ≡ with_answers number whole.now config.now) }
    ensures in_range { IfOk result (λ a. is_kind_in_range (External a.answers) ≡ true) }
    ensures refused { IfErr result
        (IsDue (answers_refusal (messages_on config.now.out whole.now))) }
{
    let answers = read_answers(alloc, whole, config.out.as_str(), number)?;
    let (out_type, description) = form_of(whole, config);
    Ok(Answered {
        answers,
        out_type: Text::new(alloc, out_type)?,
        description: Bytes::new(alloc, description)?,
    })
}

// Reads what the record says that the file of the component of a number names, if it names one.
fn read_answered<S: Store, R: Threads + Sync>(
    rt: &R,
    alloc: Global,
    store: &mut S,
    number: u32,
    config: &Config,
) -> Result<Option<Answered>, SetupError>
    requires { number < 64 }
    ensures comes { ComesTo (config_given config.now) (answered_in number config.now)
        (λ file. answers_file config.now ≡ Some file) (S.shows store.old) (S.shows store.new)
        result }
    ensures in_range { IfOk result (λ o. IfSome o AreInRange) }
    ensures named { IfOk result (λ o. IfSome o (λ _. IsSome (answers_file config.now))) }
{
    let Some(name) = answers_file(config) else {
        return Ok(None);
    };
    let whole = read_record(rt, alloc, store, name)?;
    let answered = judge_answers(alloc, number, &whole, config);
    drop(whole);
    match answered {
        Ok(answered) => Ok(Some(answered)),
        Err(fault) => Err(answers_fault(alloc, name, fault)),
    }
}

// What a component file says with what a record says for the component.
fn with_answered(config: Config, answered: Answered) -> Config
    ensures { result ≡ config_with config answered }
{
    let Config {
        kind: _,
        overflow,
        out,
        options,
        unknown,
    } = config;
    Config {
        kind: Kind::External {
            answers: answered.answers,
        },
        overflow,
        out,
        options: Options {
            out_type: answered.out_type,
            description: answered.description,
            answers: options.answers,
            values: options.values,
        },
        unknown,
    }
}

/// What the file of the component of a number says, once its answers are read.
pub(crate) fn with_answers<S: Store, R: Threads + Sync>(
    rt: &R,
    alloc: Global,
    store: &mut S,
    number: u32,
    config: Config,
) -> Result<Config, SetupError>
    requires { number < 64 }
    ensures comes { ComesTo (λ c. c) (answered_in number config)
        (λ file. answers_file config ≡ Some file) (S.shows store.old) (S.shows store.new)
        result }
    ensures of_class { IfOk result (λ c. (class_name : List ℕ) → IsOfClass class_name config
        → IsOfClass class_name c) }
{
    match read_answered(rt, alloc, store, number, &config) {
        Ok(Some(answered)) => Ok(with_answered(config, answered)),
        Ok(None) => Ok(config),
        Err(error) => {
            drop(config);
            Err(error)
        }
    }
}
