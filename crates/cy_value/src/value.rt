// The value of a content.
ghost use Rattle.std.specs.Prelude.{◌≡◌};
ghost use Rattle.cy_value.specs.Value.{value_along, value_in};

use crate::field::{last_bits, last_span};
use crate::{ScalarKind, ValueForm};

/// The value of a content by a form: none where a field of the path is missing, where a message on
/// the way is no wire form, and where the number is infinite or none. It takes no memory.
pub fn value_in(form: &ValueForm, content: &[u8]) -> Option<i64>
    ensures { result ≡ value_in form.now content.now }
{
    value_along(form.kind, form.scale, form.path.as_slice(), content)
}

// The same along the rest of a path.
fn value_along(kind: ScalarKind, scale: u64, path: &[u32], content: &[u8]) -> Option<i64>
    ensures { result ≡ value_along kind scale path.now content.now }
{
    let (number, rest) = path.split_first()?;
    if rest.is_empty() {
        let bits = last_bits(content, *number, kind).ok()??;
        kind.number_of(scale, bits)
    } else {
        let span = last_span(content, *number).ok()??;
        value_along(kind, scale, rest, span.bytes)
    }
}
