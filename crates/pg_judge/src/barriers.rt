//! Barriers: floats that are called before one are placed before a text that begins behind it, or with one that ends there.
ghost use Rattle.std.specs.Prelude.{◌≡◌, List, ℕ, length};
ghost use Rattle.std.specs.List.{list_all, range_with_len};
ghost use Rattle.pg_rules.specs.Floats.{float_numbers};
ghost use Rattle.pg_floats.specs.Counts.{capped};
ghost use Rattle.pg_judge.specs.Barriers.{has_called, has_flushed, is_ready, keeps_between};
ghost use Rattle.pg_judge.specs.Bases.{IsBasis, doc_of};

use crate::basis::Basis;
use crate::seat::is_same_place;
use pg_floats::{entry, text_block_at};
use pg_list::Place;
use pg_plan::Column;

// Whether as many floats of a slot are placed as are called before the last barrier in front of a block.
fn is_slot_flushed(basis: &Basis, block: u32, placed: &[u16], slot: usize) -> bool
    requires { IsBasis basis.now }
    ensures { (counts : List ℕ) → placed.now ≡ capped counts →
        result ≡ has_flushed (doc_of basis.now) block counts slot }
{
    basis.list.flushed(basis.galley, block, slot) <= u32::from(entry(placed, slot))
}

// Whether as many floats of a slot are placed as are called before a place.
fn is_slot_placed(basis: &Basis, from: Place, placed: &[u16], slot: usize) -> bool
    requires { IsBasis basis.now }
    ensures { (counts : List ℕ) → placed.now ≡ capped counts →
        result ≡ has_called (doc_of basis.now) from counts slot }
{
    basis.list.called(basis.galley, from, slot) <= u32::from(entry(placed, slot))
}

// Whether no float of a slot waits at a place, or those before a barrier are placed.
fn is_slot_ready(basis: &Basis, from: Place, block: u32, placed: &[u16], slot: usize) -> bool
    requires { IsBasis basis.now }
    ensures { (counts : List ℕ) → placed.now ≡ capped counts →
        result ≡ is_ready (doc_of basis.now) from block counts slot }
{
    is_slot_placed(basis, from, placed, slot) || is_slot_flushed(basis, block, placed, slot)
}

// The same for each class.
fn are_slots_ready(basis: &Basis, slots: usize, from: Place, block: u32, placed: &[u16]) -> bool
    requires { IsBasis basis.now }
    ensures { (counts : List ℕ) → placed.now ≡ capped counts → result
        ≡ list_all (is_ready (doc_of basis.now) from block counts) (range_with_len 0 slots) }
{
    for slot in 0..slots {
        if !is_slot_ready(basis, from, block, placed, slot) {
            return false;
        }
    }
    true
}

// Whether as many floats of each class are placed as are called before the last barrier in front of a block.
fn are_flushed(basis: &Basis, slots: usize, block: u32, placed: &[u16]) -> bool
    requires { IsBasis basis.now }
    ensures { (counts : List ℕ) → placed.now ≡ capped counts → result
        ≡ list_all (has_flushed (doc_of basis.now) block counts) (range_with_len 0 slots) }
{
    for slot in 0..slots {
        if !is_slot_flushed(basis, block, placed, slot) {
            return false;
        }
    }
    true
}

/// Whether a column keeps barriers, with so many floats placed before it and behind it.
pub fn keeps_barriers(
    basis: &Basis,
    slots: usize,
    column: &Column,
    placed: &[u16],
    after: &[u16],
) -> bool
    requires list { IsBasis basis.now }
    requires slots { slots ≡ length (float_numbers basis.now.style.now) }
    ensures { (before behind : List ℕ) → placed.now ≡ capped before → after.now ≡ capped behind → result
        ≡ keeps_between (doc_of basis.now) column.now before behind }
{
    if is_same_place(column.from, column.to) {
        return true;
    }
    let text = text_block_at(basis.galley, column.from);
    are_slots_ready(basis, slots, column.from, text, placed)
        && are_flushed(basis, slots, column.to.block, after)
}
