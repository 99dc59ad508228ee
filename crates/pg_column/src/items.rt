//! The items ahead of a place, one after another.
ghost use Rattle.std.specs.Prelude.{◌≡◌, ◌<◌, ◌≤◌, ◌+◌, ◌^◌, IfSome, length, drop, slice_get};
ghost use Rattle.std.specs.List.{AllByRecursion};
ghost use Rattle.std.specs.Option.{option_copied};
ghost use Rattle.pg_list.specs.Counts.{item_count};
ghost use Rattle.pg_list.specs.Places.{item_at as item_at_of};
ghost use Rattle.pg_list.specs.Shapes.{IsBlock};
ghost use Rattle.pg_list.specs.Flat.{blocks_at as blocks_at_of, end_of, is_same_place as is_same_place_of};
ghost use Rattle.pg_column.specs.Ahead.{first_pick as first_pick_of, item_place as item_place_of, is_choice as is_choice_of, is_front as is_front_of, next_index, picks_behind as picks_behind_of, settled as settled_of};

use pg_list::{Block, Galley, Item, Place, items_around};

/// The blocks of a galley keep their shape and are few.
pub fn blocks_of(galley: &Galley) -> &[Block]
    ensures blocks { result.now ≡ galley.now.blocks }
    ensures shape { AllByRecursion IsBlock galley.now.blocks }
    ensures count { item_count galley.now.blocks ≤ 2 ^ 20 }
    ensures few { length galley.now.blocks ≤ 2 ^ 20 }
{
    galley.blocks().as_slice()
}

/// Whether two places are one.
pub fn is_same_place(a: Place, b: Place) -> bool
    ensures { result ≡ is_same_place_of a b }
{
    a.block == b.block && a.variant == b.variant && a.index == b.index
}

/// Whether a place is the end.
pub fn is_end(blocks: &[Block], to: Place) -> bool
    ensures { result ≡ is_same_place_of to (end_of blocks.now) }
{
    to.block as usize == blocks.len() && to.variant == 0 && to.index == 0
}

// Whether a block is there and is a choice.
fn is_choice(blocks: &[Block], block: usize) -> bool
    ensures { result ≡ is_choice_of (slice_get blocks.now block) }
{
    match blocks.get(block) {
        Some(block) => match block {
            Block::Choice(_) => true,
            Block::One(_) => false,
        },
        None => false,
    }
}

/// Whether a choice begins at a place.
pub fn is_front(blocks: &[Block], at: Place) -> bool
    ensures { result ≡ is_front_of blocks.now at }
{
    at.index == 0 && is_choice(blocks, at.block as usize)
}

// The first pick; a choice with no pick left has variant 0.
fn first_pick(picks: &[u32]) -> u32
    ensures { result ≡ first_pick_of picks.now }
{
    match picks {
        [pick, ..] => *pick,
        [] => 0,
    }
}

/// All picks but the first.
pub fn without_first(picks: &[u32]) -> &[u32]
    ensures { result.now ≡ drop 1 picks.now }
{
    match picks {
        [_, rest @ ..] => rest,
        [] => picks,
    }
}

/// The place of the next item with its variant, which the front of a choice does not name.
pub fn item_place(blocks: &[Block], at: Place, picks: &[u32]) -> Place
    ensures { result ≡ item_place_of blocks.now at picks.now }
{
    let variant = if is_front(blocks, at) {
        first_pick(picks)
    } else {
        at.variant
    };
    Place {
        block: at.block,
        variant,
        index: at.index,
    }
}

/// The picks left behind the next item.
pub fn picks_behind<'a>(blocks: &[Block], at: Place, picks: &'a [u32]) -> &'a [u32]
    ensures { result.now ≡ picks_behind_of blocks.now at picks.now }
{
    if is_front(blocks, at) {
        without_first(picks)
    } else {
        picks
    }
}

/// The item at a place.
pub fn item_at(blocks: &[Block], at: Place) -> Option<&Item>
    ensures { option_copied result ≡ item_at_of blocks.now at }
{
    items_around(blocks, at).get(at.index as usize)
}

/// The place itself where an item of its variant stands there, else the front of the next block.
pub fn settled(blocks: &[Block], at: Place) -> Place
    requires { length blocks.now ≤ 2 ^ 20 }
    ensures { result ≡ settled_of blocks.now at }
{
    if at.index == 0 {
        return Place {
            block: at.block,
            variant: 0,
            index: 0,
        };
    }
    if item_at(blocks, at).is_some() {
        return at;
    }
    let block = if (at.block as usize) < blocks.len() {
        at.block + 1
    } else {
        at.block
    };
    Place {
        block,
        variant: 0,
        index: 0,
    }
}

/// The place one index on.
pub fn next_index_of(at: Place) -> Place
    requires { at.index < 2 ^ 20 }
    ensures { result ≡ next_index at }
{
    Place {
        block: at.block,
        variant: at.variant,
        index: at.index + 1,
    }
}

/// The elements from an index on.
pub fn from<T>(elements: &[T], start: usize) -> &[T]
    ensures { result.now ≡ drop start elements.now }
{
    match elements.get(start..) {
        Some(rest) => rest,
        None => &[],
    }
}

/// The blocks whose choices are met from a place on.
pub fn from_block(blocks: &[Block], at: Place) -> &[Block]
    ensures { result.now ≡ blocks_at_of blocks.now at }
{
    let block = if at.index == 0 {
        at.block as usize
    } else {
        at.block as usize + 1
    };
    from(blocks, block)
}
