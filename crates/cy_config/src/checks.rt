// Whether a text has the form that its format describes.
ghost use Rattle.std.specs.Prelude.{◌≡◌, ◌++◌, [], IfOk, IfErr, OnOk};
ghost use Rattle.cy_config.specs.Checks.{IsMisfit, first_misfit, unknown_paths};

use crate::path::{path_of, path_within};
use crate::tally::Tally;
use crate::{ConfigError, Described};
use cy_msg::{Items, Text};
use cy_text::Tree;
use std::alloc::Global;

/// The paths of the fields that the text's description doesn't know, in the order of the text,
/// where each value is of its kind. `Shape` has the path of the first one that isn't.
pub fn check<M: Described>(alloc: Global, root: M, tree: &Tree) -> Result<Items<Text>, ConfigError>
    ensures fits { OnOk result (first_misfit M.field root [] tree.now ≡ None) }
    ensures unknown { IfOk result (λ paths. paths ≡ unknown_paths M.field root [] tree.now) }
    ensures misfit { IfErr result (IsMisfit (first_misfit M.field root [] tree.now)) }
{
    let mut unknown = Vec::new(alloc);
    check_fields(alloc, root, "", tree, &mut unknown)?;
    Ok(Items::new(unknown))
}

// The same of a message, whose path stands before those of its fields. It calls itself as deep as
// messages are described.
fn check_fields<M: Described>(
    alloc: Global,
    message: M,
    path: &str,
    tree: &Tree,
    unknown: &mut Vec<Text>,
) -> Result<(), ConfigError>
    ensures fits { OnOk result (first_misfit M.field message path.now tree.now ≡ None) }
    ensures unknown { OnOk result (unknown.new.items
        ≡ unknown.old.items ++ unknown_paths M.field message path.now tree.now) }
    ensures misfit { IfErr result (IsMisfit (first_misfit M.field message path.now tree.now)) }
{
    let mut tally = Tally::new(alloc);
    for entry in tree.entries() {
        let name = entry.name.as_str();
        let Some(field) = message.field(name) else {
            unknown.push(path_of(alloc, path, name, None)?)?;
            continue;
        };
        let index = field.repeated.then_some(tally.next(name)?);
        if let Some(inside) = field.kind.inside(&entry.value) {
            let path = path_within(alloc, path, name, index)?;
            check_fields(alloc, inside.message, path.as_str(), inside.fields, unknown)?;
        } else if !field.kind.takes(&entry.value) {
            let path = path_of(alloc, path, name, index)?;
            return Err(ConfigError::Shape { path });
        }
    }
    Ok(())
}
