// Keeps what was met in a body by itself, behind what was met before.
ghost use Rattle.std.specs.Prelude.{◌≡◌, ◌≢◌, ◌<◌, ◌+◌, ◌^◌, ◌++◌, ◌∷◌, [], ℕ, List, All, length};
ghost use Rattle.std.specs.Prelude.{map, IfOk, IfErr, OnOk, IsOkUnless};
ghost use Rattle.cy_reader.specs.private.Alone.{all_mentioned, behind, AreNumbers, moved};
ghost use Rattle.cy_reader.specs.private.Alone.{met_alone, IsClosed};
ghost use Rattle.cy_reader.specs.private.Loading.{AreSmall, IsTied, Grows, IsSound, Leads, met_of};

use crate::LoadError;
use crate::channels::{Channels, mention};
use crate::decoding::Alone;
use crate::known::Known;
use crate::loading::{Loading, Message};
use std::alloc::Global;

// The numbers of channels by their names, each of which is kept from now on.
fn mention_all(
    alloc: Global,
    channels: &mut Channels,
    others: &[Known],
) -> Result<Vec<u32>, LoadError>
    requires small { AreSmall channels.old.list.items }
    requires tied { IsTied channels.old }
    ensures list { Leads result channels.new.list.items
        (all_mentioned others.now channels.old.list.items) }
    ensures numbers { IfOk result (λ v. AreNumbers others.now channels.new.list.items v.items) }
    ensures kept { OnOk result (Grows channels.old channels.new) }
    ensures not_store { IfErr result (λ e. e ≢ LoadError.Store) }
{
    let mut numbers = Vec::with_capacity(alloc, others.len())?;
    for known in others {
        let number = mention(alloc, channels, known.channel.name.as_str())?;
        numbers.push(number)?;
    }
    Ok(numbers)
}

// Keeps messages whose contents stand in the body of a number, and whose channels have these
// numbers.
fn move_messages(
    messages: &mut Vec<Message>,
    others: &[Message],
    body: u32,
    numbers: &[u32],
) -> Result<(), LoadError>
    requires { All (λ m. m.channel < length numbers.now) others.now }
    ensures moved { OnOk result (messages.new.items
        ≡ messages.old.items ++ map (moved body numbers.now) others.now) }
    ensures only_memory { IsOkUnless result LoadError.Memory }
{
    for message in others {
        messages.push(Message {
            channel: numbers[message.channel as usize],
            body,
            time: message.time,
            start: message.start,
            length: message.length,
        })?;
    }
    Ok(())
}

// Keeps what was met in a body by itself, which is to be kept behind so many others.
pub(crate) fn add_alone(
    alloc: Global,
    bodies: u32,
    loading: &mut Loading,
    alone: &Alone,
) -> Result<(), LoadError>
    requires sound { IsSound bodies loading.old }
    requires closed { IsClosed alone.now }
    requires few { length loading.old.messages.items + length alone.now.messages.items < 2 ^ 32 }
    ensures met { (before : List (List ℕ)) (body : List ℕ) → length before ≡ bodies
        → Leads result (met_of (before ++ body ∷ []) loading.new)
        (behind (met_alone body alone.now) (met_of before loading.old)) }
    ensures still_sound { OnOk result (IsSound (bodies + 1) loading.new) }
    ensures not_store { IfErr result (λ e. e ≢ LoadError.Store) }
{
    let numbers = mention_all(alloc, &mut loading.channels, alone.channels.as_slice())?;
    let others = alone.messages.as_slice();
    move_messages(&mut loading.messages, others, bodies, numbers.as_slice())
}
