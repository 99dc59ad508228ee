//! One step over the next item of a text.
ghost use Rattle.std.specs.Prelude.{◌≡◌, IfSome, MatchOption, Some, None, slice_get};
ghost use Rattle.pg_list.specs.Places.{item_at};
ghost use Rattle.pg_list.specs.declared.blocks.Block.TheVariants.{One};
ghost use Rattle.pg_column.specs.Ahead.{IsStep, item_place as item_place_of};

use crate::items::{blocks_of, item_place, next_index_of, picks_behind, settled};
use crate::span::ahead;
use pg_list::{Block, Galley, Item, Place};

// The item at a place, where its block is one item.
fn lone_item(blocks: &[Block], at: Place) -> Option<&Item>
    ensures { IfSome result (λ item. (at.index ≡ 0) × (slice_get blocks.now at.block ≡ Some (One item.now))) }
{
    if at.index != 0 {
        return None;
    }
    match blocks.get(at.block as usize) {
        Some(Block::One(item)) => Some(item),
        Some(Block::Choice(_)) => None,
        None => None,
    }
}

/// The item that is ahead, the place behind it, and the picks left there.
#[derive(Clone, Copy)]
pub struct Step<'a, 'b> {
    pub item: &'a Item,
    pub next: Place,
    pub left: &'b [u32],
}

/// The step over the next item, where there is one.
pub fn next_step<'a, 'b>(galley: &'a Galley, at: Place, left: &'b [u32]) -> Option<Step<'a, 'b>>
    requires { at.index ≡ 0 → at.variant ≡ 0 }
    ensures { MatchOption result (item_at galley.now.blocks (item_place_of galley.now.blocks at left.now) ≡ None)
        (λ step. IsStep galley.now.blocks at left.now step.item.now step.next step.left.now) }
{
    let blocks = blocks_of(galley);
    if let Some(item) = lone_item(blocks, at) {
        let next = Place {
            block: at.block + 1,
            variant: 0,
            index: 0,
        };
        return Some(Step { item, next, left });
    }
    let item = ahead(blocks, at, left)?;
    let here = item_place(blocks, at, left);
    Some(Step {
        item,
        next: settled(blocks, next_index_of(here)),
        left: picks_behind(blocks, at, left),
    })
}
