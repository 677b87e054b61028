// What a message holds under a name.
ghost use Rattle.std.specs.Prelude.{◌≡◌, ◌≤◌, IfOk, IfSome, map, option_map, length};
ghost use Rattle.cy_text.specs.Entries.{held_of};
ghost use Rattle.cy_text.specs.Fields.{size_of};
ghost use Rattle.cy_config.specs.Kinds.{message_of};
ghost use Rattle.cy_config.specs.Lookups.{all_under, i32_under, last_under, message_under};
ghost use Rattle.cy_config.specs.Lookups.{messages_under, text_under, u32_under, whole_under};

use cy_text::{Tree, Value};
use std::alloc::{AllocError, Global};

/// The last value under a name, where there is one.
pub fn last_under<'a>(tree: &'a Tree, name: &str) -> Option<&'a Value>
    ensures { option_map (λ v. held_of v.now) result ≡ last_under name.now tree.now }
{
    let mut last = None;
    for entry in tree.entries() {
        if entry.name.as_str() == name {
            last = Some(&entry.value);
        }
    }
    last
}

/// The values under a name, in their order. Its only error is want of memory.
pub fn values_under<'a>(
    alloc: Global,
    tree: &'a Tree,
    name: &str,
) -> Result<Vec<&'a Value>, AllocError>
    ensures { IfOk result (λ found. map (λ v. held_of v.now) found.items
        ≡ all_under name.now tree.now) }
{
    let mut found = Vec::new(alloc);
    for entry in tree.entries() {
        if entry.name.as_str() == name {
            found.push(&entry.value)?;
        }
    }
    Ok(found)
}

/// The text under a name: none where there is no value, or where the last one isn't a string in
/// UTF-8.
pub fn text_under<'a>(tree: &'a Tree, name: &str) -> Option<&'a str>
    ensures { option_map (λ text. text.now) result ≡ text_under name.now tree.now }
{
    last_under(tree, name)?.text()
}

/// The whole number under a name: none where there is no value, or where the last one isn't a whole
/// number.
pub fn whole_under(tree: &Tree, name: &str) -> Option<i128>
    ensures { result ≡ whole_under name.now tree.now }
{
    last_under(tree, name)?.whole()
}

/// The whole number under a name, as a `u32`: none where there is none that fits.
pub fn u32_under(tree: &Tree, name: &str) -> Option<u32>
    ensures { result ≡ u32_under name.now tree.now }
{
    let whole = whole_under(tree, name)?;
    if whole < 0 || whole > i128::from(u32::MAX) {
        return None;
    }
    Some(whole as u32)
}

/// The whole number under a name, as an `i32`: none where there is none that fits.
pub fn i32_under(tree: &Tree, name: &str) -> Option<i32>
    ensures { result ≡ i32_under name.now tree.now }
{
    let whole = whole_under(tree, name)?;
    if whole < i128::from(i32::MIN) || whole > i128::from(i32::MAX) {
        return None;
    }
    Some(whole as i32)
}

/// The message under a name: none where there is no value, or where the last one isn't a message.
/// It has no more fields than the tree in which it stands.
pub fn message_under<'a>(tree: &'a Tree, name: &str) -> Option<&'a Tree>
    ensures message { option_map (λ message. message.now) result ≡ message_under name.now tree.now }
    ensures size { IfSome result (λ message. size_of message.now ≤ size_of tree.now) }
{
    message_of(last_under(tree, name)?)
}

/// The messages under a name, in their order; no more than there are fields in the tree. Its only
/// error is want of memory.
pub fn messages_under<'a>(
    alloc: Global,
    tree: &'a Tree,
    name: &str,
) -> Result<Vec<&'a Tree>, AllocError>
    ensures messages { IfOk result (λ found. map (λ m. m.now) found.items
        ≡ messages_under name.now tree.now) }
    ensures size { IfOk result (λ found. length found.items ≤ size_of tree.now) }
{
    let mut found = Vec::new(alloc);
    for entry in tree.entries() {
        if entry.name.as_str() == name {
            if let Some(fields) = message_of(&entry.value) {
                found.push(fields)?;
            }
        }
    }
    Ok(found)
}

// The fields of the message that a value is.
fn message_of(value: &Value) -> Option<&Tree>
    ensures { option_map (λ message. message.now) result ≡ message_of (held_of value.now) }
{
    match value {
        Value::Message(fields) => Some(fields),
        _ => None,
    }
}
