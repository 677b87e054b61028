// The forms of channels.
ghost use Rattle.std.specs.Prelude.{◌≡◌, option_map, IfOk, IfErr};
ghost use Rattle.cy_value.specs.Values.{form_at, form_of, place_of, value_by};

use crate::{ValueForm, value_in};
use cy_msg::{Items, NamesError, Text};
use cy_wire::whole_of;
use std::alloc::Global;

/// Where the value of a channel's messages is.
#[derive(Drop)]
pub struct ChannelValue {
    /// The name of the channel.
    pub channel: Text,
    /// Where the value is.
    pub form: ValueForm,
}

impl ChannelValue {
    /// A copy. The only error is `Memory`.
    pub fn copy(&self, alloc: Global) -> Result<Self, NamesError>
        ensures copy { IfOk result (λ value. value ≡ self.now) }
        ensures memory { IfErr result (λ e. e ≡ NamesError.Memory) }
    {
        Ok(ChannelValue {
            channel: Text::new(alloc, self.channel.as_str())?,
            form: self.form.copy(alloc)?,
        })
    }
}

/// A copy of some. The only error is `Memory`.
pub fn copy_values(
    alloc: Global,
    values: &[ChannelValue],
) -> Result<Items<ChannelValue>, NamesError>
    ensures copy { IfOk result (λ copy. copy ≡ values.now) }
    ensures memory { IfErr result (λ e. e ≡ NamesError.Memory) }
{
    let mut copies = Vec::with_capacity(alloc, values.len())?;
    for value in values {
        copies.push(value.copy(alloc)?)?;
    }
    Ok(Items::new(copies))
}

/// The form of a channel among those of some: the first one that is given.
pub fn form_of<'a>(values: &'a [ChannelValue], channel: &str) -> Option<&'a ValueForm>
    ensures { option_map (λ form. form.now) result ≡ form_of values.now channel.now }
{
    let found = values
        .iter()
        .find(|value| value.channel.as_str() == channel)?;
    Some(&found.form)
}

/// Which of some is the first that is given for a channel.
pub fn place_of(values: &[ChannelValue], channel: &str) -> Option<usize>
    ensures { result ≡ place_of values.now channel.now }
{
    values
        .iter()
        .position(|value| value.channel.as_str() == channel)
}

/// The form at a place among some.
#[inline(always)]
pub fn form_at(values: &[ChannelValue], place: Option<usize>) -> Option<&ValueForm>
    ensures { option_map (λ form. form.now) result ≡ form_at values.entry.now place }
{
    Some(&values.get(place?)?.form)
}

/// The value of a content: by a form, or the number of the message Whole where there is none.
#[inline(always)]
pub fn value_by(form: Option<&ValueForm>, content: &[u8]) -> Option<i64>
    ensures { result ≡ value_by (option_map (λ f. f.now) form.entry) content.now }
{
    match form {
        Some(form) => value_in(form, content),
        None => whole_of(content),
    }
}
