//! Taking the items of a list in their order.

ghost use Rattle.std.specs.Prelude.{◌≡◌, IfOk, reverse};

use sqlite_items::Items;
use std::alloc::{AllocError, Global};

/// The items in the opposite order, so that `pop` takes the first of them first.
pub(crate) fn reversed<T: Drop>(alloc: Global, mut items: Items<T>) -> Result<Items<T>, AllocError>
    ensures { IfOk result (λ all. all ≡ reverse items) }
{
    let mut all = Items::new(alloc);
    while let Some(item) = items.pop() {
        all.push(item)?;
    }
    Ok(all)
}
