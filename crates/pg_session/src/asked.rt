//! What may be wrong with an edit, asked before anything is changed.
ghost use Rattle.std.specs.Prelude.{◌≡◌, ◌+◌, ◌-◌, ◌^◌, ◌≤◌, min, length, IfOk, OnOk};
ghost use Rattle.pg_floats.specs.AreFloats.{AreFloats};
ghost use Rattle.pg_list.specs.Counts.{item_count, item_limit};
ghost use Rattle.pg_list.specs.Places.{spliced};
ghost use Rattle.pg_session.specs.Edits.{Refuses, edit_fault, edited, floats_fault, splice_fault};

use pg_edits::EditFault;
use pg_floats::{FloatFault, FloatList};
use pg_list::{Block, Edit, Galley, ITEM_LIMIT, count_on};
use pg_style::Style;
use std::alloc::Global;

// The blocks of a galley, which are few.
fn blocks_of(galley: &Galley) -> &[Block]
    ensures blocks { result.now ≡ galley.now.blocks }
    ensures few { length galley.now.blocks ≤ item_limit }
    ensures limit { item_count galley.now.blocks ≤ item_limit }
{
    galley.blocks().as_slice()
}

// The number of items that an edit leaves, or the greatest u32. Only the blocks that go and come are counted.
fn count_after(galley: &Galley, edit: &Edit) -> u32
    requires { edit.now.at + edit.now.gone ≤ length galley.now.blocks }
    ensures { result ≡ min (item_count (spliced galley.now.blocks edit.now)) (2 ^ 32 - 1) }
{
    let at = edit.at as usize;
    let end = at + edit.gone as usize;
    let gone = count_on(0, &blocks_of(galley)[at..end]);
    count_on(galley.count_items() - gone, edit.fresh.as_slice())
}

// Whether the blocks that go are there, and the edited galley has not too many items.
fn may_splice(galley: &Galley, edit: &Edit) -> Result<(), EditFault>
    ensures cause { Refuses result (splice_fault galley.now edit.now) }
    ensures there { OnOk result (edit.now.at + edit.now.gone ≤ length galley.now.blocks) }
    ensures few { OnOk result (item_count (spliced galley.now.blocks edit.now) ≤ item_limit) }
{
    let len = blocks_of(galley).len() as u32;
    if edit.at as usize + edit.gone as usize > len as usize {
        return Err(EditFault::Range {
            at: edit.at,
            gone: edit.gone,
            len,
        });
    }
    let count = count_after(galley, edit);
    if count > ITEM_LIMIT {
        return Err(EditFault::Limit { count });
    }
    Ok(())
}

// The floats of the edited galley, or why there are none.
fn floats_after(
    alloc: Global,
    galley: &Galley,
    edit: &Edit,
    style: &Style,
) -> Result<FloatList, EditFault>
    requires there { edit.now.at + edit.now.gone ≤ length galley.now.blocks }
    requires few { item_count (spliced galley.now.blocks edit.now) ≤ item_limit }
    ensures cause { Refuses result (floats_fault (spliced galley.now.blocks edit.now) style.now) }
    ensures ok { IfOk result (AreFloats (spliced galley.now.blocks edit.now) style.now) }
{
    match FloatList::after(alloc, galley, edit, style) {
        Ok(floats) => Ok(floats),
        Err(FloatFault::Class { number }) => Err(EditFault::Class { number }),
        Err(FloatFault::Limit { count }) => Err(EditFault::Floats { count }),
        Err(FloatFault::Memory) => Err(EditFault::Memory),
    }
}

/// The floats that an edit leaves, or why it is refused.
pub fn ask(
    alloc: Global,
    galley: &Galley,
    edit: &Edit,
    style: &Style,
) -> Result<FloatList, EditFault>
    ensures cause { Refuses result (edit_fault galley.now style.now edit.now) }
    ensures ok { IfOk result (AreFloats (edited galley.now edit.now).blocks style.now) }
{
    may_splice(galley, edit)?;
    floats_after(alloc, galley, edit, style)
}
