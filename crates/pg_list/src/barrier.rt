//! Barriers for floats, and where a text begins.
ghost use Rattle.std.specs.Prelude.{◌≡◌, ◌<◌, ◌≤◌, ◌^◌, drop, length, IfSome};
ghost use Rattle.std.specs.List.{position};
ghost use Rattle.pg_list.specs.Barrier.{has_box_left as has_box_left_of, is_barrier, is_flush as is_flush_of};
ghost use Rattle.pg_list.specs.Barrier.{next_block as next_block_of, text_block as text_block_of};
ghost use Rattle.pg_list.specs.Places.{has_box};

use crate::blocks::Block;
use crate::galley::Place;
use crate::item::Item;
use crate::walk::{any_box, block_has_box, items_around};

// Whether an item carries the special of a barrier.
#[tactic(auto, unfolding(crate::specs::Barrier::barrier_body))]
fn is_flush(item: &Item) -> bool
    ensures { result ≡ is_flush_of item.now }
{
    match item {
        Item::Carry { body } => body.as_slice() == b"\\special{pg:flush}".as_slice(),
        _ => false,
    }
}

/// Whether a block is a barrier, which no float that is called before it may pass: a carried `\special{pg:flush}`.
pub fn block_is_barrier(block: &Block) -> bool
    ensures { result ≡ is_barrier block.now }
{
    match block {
        Block::One(item) => is_flush(item),
        Block::Choice(_) => false,
    }
}

// The elements from an index on.
fn from<T>(elements: &[T], start: usize) -> &[T]
    ensures { result.now ≡ drop start elements.now }
{
    match elements.get(start..) {
        Some(rest) => rest,
        None => &[],
    }
}

// Whether a box stands in the rest of the variant in which a place is.
fn has_box_left(blocks: &[Block], at: Place) -> bool
    ensures { result ≡ has_box_left_of blocks.now at }
{
    at.index != 0 && any_box(from(items_around(blocks, at), at.index as usize))
}

// The first block that begins at a place or behind it.
fn next_block(at: Place) -> usize
    ensures value { result ≡ next_block_of at }
    ensures size { result ≤ 2 ^ 32 }
{
    let block = at.block as usize;
    if at.index == 0 { block } else { block + 1 }
}

// How many blocks stand in front of the first with a box or rule.
fn first_text(blocks: &[Block]) -> Option<usize>
    ensures value { result ≡ position has_box blocks.now }
    ensures within { IfSome result (λ count. count < length blocks.now) }
{
    blocks.iter().position(|block| block_has_box(block))
}

/// The block in which the first box or rule from a place on stands; the number of the blocks where there is none.
///
/// Condition: there are at most 2^20 blocks. Takes no memory.
pub fn text_block(blocks: &[Block], at: Place) -> u32
    requires few { length blocks.now ≤ 2 ^ 20 }
    ensures { result ≡ text_block_of blocks.now at }
{
    if has_box_left(blocks, at) {
        return at.block;
    }
    let next = next_block(at);
    match first_text(from(blocks, next)) {
        Some(count) => (next + count) as u32,
        None => blocks.len() as u32,
    }
}
