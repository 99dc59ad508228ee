//! What stands behind a last column, and where a text begins.
ghost use Rattle.std.specs.Prelude.{◌≡◌, ◌≤◌, ◌^◌, ◌==◌, length};
ghost use Rattle.std.specs.List.{AllByRecursion, list_all, range_with_len};
ghost use Rattle.pg_list.specs.Barrier.{text_block as text_block_of};
ghost use Rattle.pg_list.specs.Shapes.{IsBlock};
ghost use Rattle.pg_list.specs.Flat.{end_of};
ghost use Rattle.pg_rules.specs.Floats.{called, entry as entry_of};
ghost use Rattle.pg_rules.specs.IsState.{IsPlace};
ghost use Rattle.pg_rules.specs.Legal.{document, is_spent_at as is_spent_at_of};
ghost use Rattle.pg_style.specs.Values.{StyleValue};
ghost use Rattle.pg_floats.specs.Given.{IsListOf};

use crate::{FloatList, entry};
use pg_breaks::is_spent;
use pg_list::{Block, Galley, Place, text_block};
use pg_style::Style;

// The blocks of a galley, which keep their shape and are few.
fn all_blocks(galley: &Galley) -> &[Block]
    ensures blocks { result.now ≡ galley.now.blocks }
    ensures shape { AllByRecursion IsBlock galley.now.blocks }
    ensures few { length galley.now.blocks ≤ 2 ^ 20 }
{
    galley.blocks().as_slice()
}

// The end of a galley.
fn end_place(galley: &Galley) -> Place
    ensures { result ≡ end_of galley.now.blocks }
{
    Place {
        block: all_blocks(galley).len() as u32,
        variant: 0,
        index: 0,
    }
}

// Whether all floats of a slot are placed.
fn is_slot_dealt(
    galley: &Galley,
    style: &Style,
    list: &FloatList,
    placed: &[u16],
    slot: usize,
) -> bool
    requires { IsListOf galley.now.blocks style.now list.now }
    ensures { result ≡ (entry_of placed.now slot
        == entry_of (called galley.now.blocks style.now (end_of galley.now.blocks)) slot) }
{
    let _ = style;
    u32::from(entry(placed, slot)) == list.called(galley, end_place(galley), slot)
}

/// Whether each of so many classes has placed all its floats.
pub fn has_dealt_all(
    galley: &Galley,
    style: &Style,
    list: &FloatList,
    slots: usize,
    placed: &[u16],
) -> bool
    requires { IsListOf galley.now.blocks style.now list.now }
    ensures { result ≡ list_all (λ slot. entry_of placed.now slot
        == entry_of (called galley.now.blocks style.now (end_of galley.now.blocks)) slot) (range_with_len 0 slots) }
{
    for slot in 0..slots {
        if !is_slot_dealt(galley, style, list, placed, slot) {
            return false;
        }
    }
    true
}

/// Whether only discardable items stand from a place of the galley on.
pub fn is_spent_at(galley: &Galley, at: Place) -> bool
    ensures { (style : StyleValue) → IsPlace galley.now.blocks at →
        result ≡ is_spent_at_of (document galley.now style) at }
{
    let _ = all_blocks(galley).len();
    is_spent(galley, at)
}

/// The block in which the first box or rule from a place on stands; the number of the galley's blocks where there is none.
pub fn text_block_at(galley: &Galley, at: Place) -> u32
    ensures { result ≡ text_block_of galley.now.blocks at }
{
    text_block(all_blocks(galley), at)
}
