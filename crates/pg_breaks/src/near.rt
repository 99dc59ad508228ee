//! What stands next to a place.
ghost use Rattle.std.specs.Prelude.{◌≡◌, ◌||◌, ◌&&◌, drop, length};
ghost use Rattle.std.specs.List.{list_any};
ghost use Rattle.pg_list.specs.Places.{is_solid_block as is_solid_block_of};
ghost use Rattle.pg_list.specs.Shapes.{is_box};
ghost use Rattle.pg_list.specs.Break.{is_glue as is_glue_of, is_forcing as is_forcing_of};
ghost use Rattle.pg_breaks.specs.Near.{begins_with_glue as begins_with_glue_of, glue_first as glue_first_of};

use pg_list::{Block, Item, item_is_box, item_is_discardable};

/// The elements from an index on.
pub fn from<T>(elements: &[T], start: usize) -> &[T]
    ensures { result.now ≡ drop start elements.now }
{
    match elements.get(start..) {
        Some(rest) => rest,
        None => &[],
    }
}

fn is_glue(item: &Item) -> bool
    ensures { result ≡ is_glue_of item.now }
{
    matches!(item, Item::Glue { .. })
}

pub fn is_forcing(item: &Item) -> bool
    ensures { result ≡ is_forcing_of item.now }
{
    match item {
        Item::Penalty { value, .. } => *value <= -10000,
        _ => false,
    }
}

/// A block ends with an item that is not discardable.
pub fn ends_solid(block: &Block) -> bool
    ensures { result ≡ is_solid_block_of block.now }
{
    match block {
        Block::One(item) => !item_is_discardable(item),
        Block::Choice(_) => true,
    }
}

fn begins_with_glue(blocks: &[Block]) -> bool
    ensures { result ≡ begins_with_glue_of blocks.now }
{
    match blocks.first() {
        Some(Block::One(item)) => is_glue(item),
        _ => false,
    }
}

/// The items, and then the blocks, begin with glue.
pub fn glue_first(items: &[Item], blocks: &[Block]) -> bool
    ensures { result ≡ glue_first_of items.now blocks.now }
{
    match items.first() {
        Some(item) => is_glue(item),
        None => begins_with_glue(blocks),
    }
}

pub fn any_box(items: &[Item]) -> bool
    ensures { result ≡ list_any is_box items.now }
{
    items.iter().any(|item| item_is_box(item))
}
