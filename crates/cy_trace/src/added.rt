// Lists, as far as there is memory.
ghost use Rattle.std.specs.Prelude.{◌≡◌, ◌++◌, ◌∷◌, [], true, false};

use std::alloc::Global;

/// No items, with room for so many, where there is memory: what isn't used of it is never touched.
pub(crate) fn with_room<T: Drop>(alloc: Global, most: usize) -> Vec<T>
    ensures { result.items ≡ [] }
{
    let mut items = Vec::new(alloc);
    match items.reserve_exact(most) {
        Ok(()) | Err(_) => items,
    }
}

/// Whether there was memory to add an item.
#[inline(always)]
pub(crate) fn is_added<T: Drop>(items: &mut Vec<T>, item: T) -> bool
    ensures added { result ≡ true → items.new.items ≡ items.old.items ++ item ∷ [] }
    ensures kept { result ≡ false → items.new.items ≡ items.old.items }
{
    items.push(item).is_ok()
}
