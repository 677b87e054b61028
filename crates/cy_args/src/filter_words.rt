// The options that say which messages are let through, and the numbers and lists that they give.
ghost use Rattle.std.specs.Prelude.{◌≡◌, ◌≤◌, IfOk, length, map, option_map};
ghost use Rattle.cy_args.specs.FilterViews.{filter_of};
ghost use Rattle.cy_args.specs.FilterWords.{all_messages, are_lists, filter_asked};
ghost use Rattle.cy_args.specs.FilterWords.{filter_given, is_list, is_list_or_none};
ghost use Rattle.cy_args.specs.FilterWords.{names_in, number_or, spelled_number, with_digit};
ghost use Rattle.cy_args.specs.private.OptionViews.{table_of, values_of};

use crate::options::{Known, Values};
use cy_msg::{Filter, Items, Text};
use std::alloc::{AllocError, Global};

/// Which messages are wanted, as words say it.
#[derive(Clone, Copy)]
pub struct FilterWords<'a> {
    /// The only channels, with commas between; none where all are wanted.
    pub only: Option<&'a str>,
    /// The channels that are dropped, with commas between.
    pub drop: Option<&'a str>,
    /// The least time, in nanoseconds.
    pub begin: u64,
    /// The greatest time, in nanoseconds.
    pub end: u64,
}

// A value with one more digit, where it has 64 bits.
fn with_digit(value: u64, byte: u8) -> Option<u64>
    ensures { result ≡ with_digit value byte }
{
    if !byte.is_ascii_digit() {
        return None;
    }
    let next = u128::from(value) * 10 + u128::from(byte - b'0');
    if next <= u128::from(u64::MAX) {
        Some(next as u64)
    } else {
        None
    }
}

// A number of 1 to 20 digits, where it has 64 bits.
#[tactic(auto, unfolding(crate::specs::FilterWords::spelled_number))]
pub(crate) fn spelled_number(text: &str) -> Option<u64>
    ensures { result ≡ spelled_number text.now }
{
    if text.is_empty() || text.len() > 20 {
        return None;
    }
    let mut value = 0u64;
    for byte in text.as_bytes() {
        value = with_digit(value, *byte)?;
    }
    Some(value)
}

// The same, or what stands for it where no number is given.
fn number_or(absent: u64, text: Option<&str>) -> Option<u64>
    ensures { result ≡ number_or absent (option_map (λ v. v.now) text.entry) }
{
    match text {
        Some(text) => spelled_number(text),
        None => Some(absent),
    }
}

// Whether a list has no empty name.
#[tactic(auto, unfolding(crate::specs::FilterWords::is_list))]
fn is_list(text: &str) -> bool
    ensures { result ≡ is_list text.now }
{
    text.split(',').all(|name| !name.is_empty())
}

// The same where there is one.
fn is_list_or_none(text: Option<&str>) -> bool
    ensures { result ≡ is_list_or_none (option_map (λ v. v.now) text.entry) }
{
    match text {
        Some(text) => is_list(text),
        None => true,
    }
}

// The number that an option gives, or what stands for it where it isn't given.
fn number(known: &[Known], values: Values, absent: u64, name: &str) -> Option<u64>
    requires { length known.now ≤ 16 }
    ensures { result
        ≡ number_or absent (values_of (table_of known.now) values.entry name.now) }
{
    number_or(absent, values.of(known, name))
}

// Whether an option has no list with an empty name.
fn has_list(known: &[Known], values: Values, name: &str) -> bool
    requires { length known.now ≤ 16 }
    ensures { result ≡ is_list_or_none (values_of (table_of known.now) values.entry name.now) }
{
    is_list_or_none(values.of(known, name))
}

// Whether the lists of channels have no empty names.
fn are_lists(known: &[Known], values: Values) -> bool
    requires { length known.now ≤ 16 }
    ensures { result ≡ are_lists (values_of (table_of known.now) values.entry) }
{
    has_list(known, values, "channels") && has_list(known, values, "drop")
}

// What the options say, where their times are numbers.
fn filter_given<'a>(known: &[Known], values: Values<'_, 'a>) -> Option<FilterWords<'a>>
    requires { length known.now ≤ 16 }
    ensures { option_map filter_of result
        ≡ filter_given (values_of (table_of known.now) values.entry) }
{
    let begin = number(known, values, 0, "begin")?;
    let end = number(known, values, u64::MAX, "end")?;
    let only = values.of(known, "channels");
    let drop = values.of(known, "drop");
    Some(FilterWords {
        only,
        drop,
        begin,
        end,
    })
}

/// What the options ask for, where their lists are lists.
#[tactic(auto, unfolding(crate::specs::FilterWords::filter_asked))]
pub(crate) fn filter_asked<'a>(known: &[Known], values: Values<'_, 'a>) -> Option<FilterWords<'a>>
    requires { length known.now ≤ 16 }
    ensures { option_map filter_of result
        ≡ filter_asked (values_of (table_of known.now) values.entry) }
{
    if !are_lists(known, values) {
        return None;
    }
    filter_given(known, values)
}

// The parts of a list.
pub(crate) fn parts_of<'a>(alloc: Global, list: &'a str) -> Result<Vec<&'a str>, AllocError>
    ensures { IfOk result (λ parts. map (λ part. part.now) parts.items ≡ names_in list.now) }
{
    let bytes = list.as_bytes();
    let mut parts = Vec::new(alloc);
    let mut start = 0;
    for (place, byte) in bytes.iter().enumerate() {
        if *byte != b',' {
            continue;
        }
        parts.push(&list[start..place])?;
        start = place + 1;
    }
    parts.push(&list[start..])?;
    Ok(parts)
}

// The names of a list.
fn names_of(alloc: Global, list: &str) -> Result<Items<Text>, AllocError>
    ensures { IfOk result (λ names. names ≡ names_in list.now) }
{
    let parts = parts_of(alloc, list)?;
    let mut names = Vec::with_capacity(alloc, parts.len())?;
    for part in &parts {
        names.push(Text::from_string(String::from_str(alloc, part)?))?;
    }
    Ok(Items::new(names))
}

// The names of a list, where there is one.
fn names_or_none(alloc: Global, list: Option<&str>) -> Result<Option<Items<Text>>, AllocError>
    ensures { IfOk result (λ names. names ≡ option_map (λ l. names_in l.now) list.entry) }
{
    match list {
        Some(list) => Ok(Some(names_of(alloc, list)?)),
        None => Ok(None),
    }
}

impl<'a> FilterWords<'a> {
    /// All messages.
    pub(crate) fn of_all() -> Self
        ensures { filter_of result ≡ all_messages }
    {
        FilterWords {
            only: None,
            drop: None,
            begin: 0,
            end: u64::MAX,
        }
    }

    /// The filter, with names in memory of their own. Its only error is want of memory.
    pub fn filter(&self, alloc: Global) -> Result<Filter, AllocError>
        ensures { IfOk result (λ f. f ≡ filter_of self.now) }
    {
        let only = names_or_none(alloc, self.only)?;
        let drop = match names_or_none(alloc, self.drop)? {
            Some(names) => names,
            None => Items::new(Vec::new(alloc)),
        };
        let (begin, end) = (self.begin, self.end);
        Ok(Filter {
            only,
            drop,
            begin,
            end,
        })
    }
}
