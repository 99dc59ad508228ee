//! A walk from the start of a column's text to its end.
ghost use Rattle.std.specs.Prelude.{◌≡◌, ◌++◌, OnOk, true};
ghost use Rattle.pg_list.specs.Flat.{end_of, flat_items_at, is_same_place};
ghost use Rattle.pg_column.specs.Fits.{are_named, does_fit_from};
ghost use Rattle.pg_column.specs.Between.{behind, column_text, items_to};

use crate::items::{blocks_of, is_end, settled};
use crate::span::is_reached;
use crate::step::next_step;
use pg_list::{Galley, Item, Place};
use pg_plan::Column;
use std::alloc::AllocError;

/// Adds the items from a place up to another, with these picks. Only the items are borrowed. The only refusal is for want
/// of memory.
pub fn push_between<'a>(
    galley: &'a Galley,
    start: Place,
    picks: &[u32],
    to: Place,
    items: &mut Vec<&'a Item>,
) -> Result<(), AllocError>
    requires { are_named galley.now.blocks start picks.now ≡ true }
    ensures { OnOk result (behind items.new.items ≡ behind items.old.items
        ++ items_to (is_same_place to (end_of galley.now.blocks)) to
        (flat_items_at galley.now.blocks start picks.now)) }
{
    let blocks = blocks_of(galley);
    let is_end = is_end(blocks, to);
    let mut at = settled(blocks, start);
    let mut left = picks;
    'ahead: while let Some(step) = next_step(galley, at, left) {
        if is_reached(is_end, at, to) {
            return Ok(());
        }
        items.push(step.item)?;
        at = step.next;
        left = step.left;
    }
    Ok(())
}

/// Adds the items of a column's text, in order, with the variants that its picks name. Only the items are borrowed.
///
/// Condition: the column fits the galley: its end follows its start past a front for each of its picks, and each pick
/// names a variant. The only refusal is for want of memory.
pub fn push_text<'a>(
    galley: &'a Galley,
    column: &Column,
    items: &mut Vec<&'a Item>,
) -> Result<(), AllocError>
    requires { does_fit_from galley.now.blocks column.now.from column.now.picks column.now.to ≡ true }
    ensures { OnOk result (behind items.new.items ≡ behind items.old.items
        ++ column_text galley.now.blocks column.now) }
{
    push_between(
        galley,
        column.from,
        column.picks.as_slice(),
        column.to,
        items,
    )?;
    Ok(())
}
