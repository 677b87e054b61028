// Reads the answers of a component from a record.
ghost use Rattle.std.specs.Prelude.{◌≡◌, ◌≤◌, ◌<◌, ◌+◌, ◌^◌, true, None, Some, length, IfOk, IfErr};
ghost use Rattle.std.specs.Prelude.{OnOk, IsOkUnless};
ghost use Rattle.cy_msg.specs.Tokens.{most_played};
ghost use Rattle.cy_comp.specs.Kind.{is_kind_in_range};
ghost use Rattle.cy_comp.specs.declared.kind.Kind.TheVariants.{External};
ghost use Rattle.cy_reader.specs.Named.{message_at};
ghost use Rattle.cy_answers.specs.Answers.{IsDue, answer_of, answers_from, answers_of};
ghost use Rattle.cy_answers.specs.Answers.{answers_refusal, count_refusal, first_origin, is_on};
ghost use Rattle.cy_answers.specs.Answers.{messages_on, time_refusal, times_refusal};

use crate::AnswersError;
use cy_comp::{Answer, Answers};
use cy_msg::{Bytes, MOST_PLAYED, NamesError};
use cy_reader::Record;
use cy_wire::whole_of;
use std::alloc::Global;

/// The answers that a record has, on the channel of a name, for the component of a number. Their
/// calls rise in file order, or the first is told that doesn't; and more than 4,194,304 are a
/// limit. There is no other error but `Memory`. Their contents are copied.
pub fn read_answers(
    alloc: Global,
    recorded: &Record,
    channel: &str,
    component: u32,
) -> Result<Answers, AnswersError>
    requires { component < 64 }
    ensures accepted { IfOk result (λ _.
        answers_refusal (messages_on channel.now recorded.now) ≡ None) }
    ensures answers { IfOk result (λ answers.
        answers ≡ answers_of recorded.now channel.now component) }
    ensures behind { IfOk result (λ answers. is_kind_in_range (External answers) ≡ true) }
    ensures refused { IfErr result
        (IsDue (answers_refusal (messages_on channel.now recorded.now))) }
{
    let count = count_answers(recorded, channel)?;
    test_count(count)?;
    let first = (component + 1) * MOST_PLAYED as u32;
    let answers = made_answers(alloc, recorded, channel, first, count)?;
    Ok(Answers::new(answers)?)
}

// Whether the message at a place stands on the channel of a name.
fn is_on(recorded: &Record, place: u32, name: &str) -> bool
    requires { place < length recorded.now.messages }
    ensures { result ≡ is_on recorded.now name.now (message_at recorded.now place) }
{
    let (channel, _) = recorded.message(place);
    recorded.channel(channel).name.as_str() == name
}

// Whether a time may come behind the one before.
fn test_time(before: Option<u64>, time: u64) -> Result<(), AnswersError>
    ensures accepted { OnOk result (time_refusal before time ≡ None) }
    ensures refused { IfErr result (λ e. time_refusal before time ≡ Some e) }
{
    let Some(before) = before else {
        return Ok(());
    };
    if time == before {
        return Err(AnswersError::AnswerTwice { time });
    }
    if time < before {
        return Err(AnswersError::AnswersFall { time });
    }
    Ok(())
}

// How many messages stand on a channel, where their times rise.
fn count_answers(recorded: &Record, name: &str) -> Result<u32, AnswersError>
    ensures accepted { IfOk result (λ _.
        times_refusal None (messages_on name.now recorded.now) ≡ None) }
    ensures count { IfOk result (λ count. count ≡ length (messages_on name.now recorded.now)) }
    ensures refused { IfErr result (λ e.
        times_refusal None (messages_on name.now recorded.now) ≡ Some e) }
{
    let mut before = None;
    let mut count = 0;
    for place in 0..recorded.messages() {
        if is_on(recorded, place, name) {
            let (_, time) = recorded.message(place);
            test_time(before, time)?;
            before = Some(time);
            count += 1;
        }
    }
    Ok(count)
}

// Whether there may be so many answers.
fn test_count(count: u32) -> Result<(), AnswersError>
    ensures accepted { OnOk result (count_refusal count ≡ None) }
    ensures few { OnOk result (count ≤ most_played) }
    ensures refused { IfErr result (λ e. count_refusal count ≡ Some e) }
{
    if count as usize > MOST_PLAYED {
        return Err(AnswersError::TooManyAnswers {
            count: u64::from(count),
        });
    }
    Ok(())
}

// The answer that the message at a place is.
fn answer_at(
    alloc: Global,
    recorded: &Record,
    place: u32,
    origin: u32,
) -> Result<Answer, NamesError>
    requires { place < length recorded.now.messages }
    ensures answer { IfOk result (λ a. a ≡ answer_of origin (message_at recorded.now place)) }
    ensures memory { IfErr result (λ e. e ≡ NamesError.Memory) }
{
    let (_, call) = recorded.message(place);
    let content = recorded.content(place);
    Ok(Answer {
        call,
        whole: whole_of(content),
        origin,
        content: Bytes::new(alloc, content)?,
    })
}

// The answers that the messages on a channel are, of which there are so many.
fn made_answers(
    alloc: Global,
    recorded: &Record,
    name: &str,
    first: u32,
    count: u32,
) -> Result<Vec<Answer>, AnswersError>
    requires all { count ≡ length (messages_on name.now recorded.now) }
    requires few { first + count < 2 ^ 32 }
    ensures answers { IfOk result (λ v.
        v.items ≡ answers_from first (messages_on name.now recorded.now)) }
    ensures only_memory { IsOkUnless result AnswersError.Memory }
{
    let mut answers = Vec::with_capacity(alloc, count as usize)?;
    for place in 0..recorded.messages() {
        if is_on(recorded, place, name) {
            let origin = first + answers.len() as u32;
            answers.push(answer_at(alloc, recorded, place, origin)?)?;
        }
    }
    Ok(answers)
}
