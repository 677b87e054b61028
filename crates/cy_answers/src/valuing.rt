// Gives answers the values that their contents have by a form.
ghost use Rattle.std.specs.Prelude.{◌≡◌, map, option_map, IfOk, IfErr};
ghost use Rattle.cy_comp.specs.Answers.{CallsRise};
ghost use Rattle.cy_comp.specs.Kind.{is_kind_in_range};
ghost use Rattle.cy_comp.specs.declared.kind.Kind.TheVariants.{External};
ghost use Rattle.cy_answers.specs.Valued.{valued, valued_by};

use cy_comp::{Answer, Answers};
use cy_msg::{Bytes, NamesError};
use cy_value::{ValueForm, value_in};
use std::alloc::Global;

/// Answers with the values that their contents have by the form of their channel, where it has one.
/// Their contents are copied. Without a form they share their memory with the answers that are
/// given. The only error is `Memory`.
pub fn value_answers(
    alloc: Global,
    answers: &Answers,
    form: Option<&ValueForm>,
) -> Result<Answers, NamesError>
    ensures valued { IfOk result (λ v.
        v ≡ valued (option_map (λ f. f.now) form.entry) answers.now) }
    ensures in_range { IfOk result (λ v. is_kind_in_range (External v)
        ≡ is_kind_in_range (External answers.now)) }
    ensures memory { IfErr result (λ e. e ≡ NamesError.Memory) }
{
    match form {
        Some(form) => valued_in_order(alloc, answers.as_slice(), form),
        None => Ok(answers.copy()?),
    }
}

// Answers whose calls rise, with the values that their contents have by a form.
fn valued_in_order(
    alloc: Global,
    answers: &[Answer],
    form: &ValueForm,
) -> Result<Answers, NamesError>
    requires { CallsRise answers.now }
    ensures valued { IfOk result (λ v. v ≡ map (valued_by form.now) answers.now) }
    ensures in_range { IfOk result (λ v. is_kind_in_range (External v)
        ≡ is_kind_in_range (External answers.now)) }
    ensures memory { IfErr result (λ e. e ≡ NamesError.Memory) }
{
    Ok(Answers::new(valued_by(alloc, answers, form)?)?)
}

// Answers with the values that their contents have by a form.
fn valued_by(alloc: Global, answers: &[Answer], form: &ValueForm) -> Result<Vec<Answer>, NamesError>
    ensures valued { IfOk result (λ v. v.items ≡ map (valued_by form.now) answers.now) }
    ensures memory { IfErr result (λ e. e ≡ NamesError.Memory) }
{
    let mut valued = Vec::with_capacity(alloc, answers.len())?;
    for answer in answers {
        valued.push(value_answer(alloc, answer, form)?)?;
    }
    Ok(valued)
}

// An answer with the value that its content has by a form.
fn value_answer(alloc: Global, answer: &Answer, form: &ValueForm) -> Result<Answer, NamesError>
    ensures valued { IfOk result (λ a. a ≡ valued_by form.now answer.now) }
    ensures memory { IfErr result (λ e. e ≡ NamesError.Memory) }
{
    let content = answer.content.as_slice();
    Ok(Answer {
        call: answer.call,
        whole: value_in(form, content),
        origin: answer.origin,
        content: Bytes::new(alloc, content)?,
    })
}
