//! The items of a column without the discardable ones before its first box.
ghost use Rattle.std.specs.Prelude.{◌≡◌, ◌++◌, ◌∷◌, [], OnOk, IfOk, if◌then◌else◌};
ghost use Rattle.pg_list.specs.Shapes.{is_discardable};
ghost use Rattle.pg_list.specs.Totals.{trimmed as trimmed_of};
ghost use Rattle.pg_column.specs.Between.{behind};

use pg_list::{Item, item_is_box, item_is_discardable};
use std::alloc::{AllocError, Global};

// Adds an item, unless it is discardable.
fn push_solid<'a>(item: &'a Item, items: &mut Vec<&'a Item>) -> Result<(), AllocError>
    ensures { OnOk result (behind items.new.items
        ≡ behind items.old.items ++ (if is_discardable item.now then [] else item.now ∷ [])) }
{
    if !item_is_discardable(item) {
        items.push(item)?;
    }
    Ok(())
}

// The items without the discardable ones before the first box.
pub fn trimmed<'a>(alloc: Global, items: &[&'a Item]) -> Result<Vec<&'a Item>, AllocError>
    ensures { IfOk result (λ segment. behind segment.items ≡ trimmed_of (behind items.now)) }
{
    let mut segment = Vec::with_capacity(alloc, items.len())?;
    let mut rest = items;
    'items: while let [item, after @ ..] = rest {
        if item_is_box(item) {
            segment.extend_from_slice(rest)?;
            return Ok(segment);
        }
        push_solid(item, &mut segment)?;
        rest = after;
    }
    Ok(segment)
}
