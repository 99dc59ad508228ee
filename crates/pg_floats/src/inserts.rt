//! The places of the inserts of one class.
ghost use Rattle.std.specs.Prelude.{◌≡◌, ◌≤◌, ◌+◌, ◌^◌, ◌++◌, ℕ, List, OnOk, IfOk, length, take, true, false, is_some};
ghost use Rattle.std.specs.List.{sum_by};
ghost use Rattle.std.specs.List.Sorted.{IsPartitionedBy, IsPartitionPoint};
ghost use Rattle.pg_list.specs.Counts.{block_size, item_count, item_limit};
ghost use Rattle.pg_list.specs.Places.{items_around};
ghost use Rattle.pg_list.specs.declared.blocks.Block.{Block as ABlock};
ghost use Rattle.pg_list.specs.declared.variants.Variant.{Variant as AVariant};
ghost use Rattle.pg_list.specs.declared.galley.Place.{Place as APlace};
ghost use Rattle.pg_rules.specs.Floats.{insert_size, sizes_of};
ghost use Rattle.pg_floats.specs.Places.{is_before as comes_before, places_in, places_among, places_of_block};
ghost use Rattle.pg_floats.specs.Places.{places_from};

use pg_list::{Block, Item, Place, Variant};
use std::alloc::{AllocError, Global};
use std::slice;

fn is_insert_of(item: &Item, number: u8) -> bool
    ensures { result ≡ is_some (insert_size number item.now) }
{
    match item {
        Item::Insert { class, .. } => *class == number,
        _ => false,
    }
}

// Adds the places of a class's inserts among the items of a variant, of which the first stands at this place.
fn push_places(
    out: &mut Vec<Place>,
    items: &[Item],
    number: u8,
    first: Place,
) -> Result<(), AllocError>
    requires { first.index + length items.now ≤ item_limit }
    ensures { OnOk result (out.new.items
        ≡ out.old.items ++ places_in number first.block first.variant first.index items.now) }
{
    let mut rest = items;
    let mut place = first;
    'items: while let [item, after @ ..] = rest {
        if is_insert_of(item, number) {
            out.push(place)?;
        }
        rest = after;
        place.index += 1;
    }
    Ok(())
}

// Adds the places of a class's inserts in the variants of a choice.
fn push_variants(
    out: &mut Vec<Place>,
    variants: &[Variant],
    number: u8,
    block: u32,
) -> Result<(), AllocError>
    requires variants { length variants.now ≤ 5 }
    requires items { sum_by (λ (variant : AVariant). length variant.items) variants.now ≤ item_limit }
    ensures { OnOk result (out.new.items ≡ out.old.items ++ places_among number block 0 variants.now) }
{
    let mut rest = variants;
    let mut index = 0u32;
    'each: while let [variant, after @ ..] = rest {
        let first = Place {
            block,
            variant: index,
            index: 0,
        };
        push_places(out, variant.items.as_slice(), number, first)?;
        rest = after;
        index += 1;
    }
    Ok(())
}

// Adds the places of a class's inserts in a block.
fn push_block(out: &mut Vec<Place>, block: &Block, number: u8, index: u32) -> Result<(), AllocError>
    requires { block_size block.now ≤ item_limit }
    ensures { OnOk result (out.new.items ≡ out.old.items ++ places_of_block number index block.now) }
{
    match block {
        Block::One(item) => {
            let first = Place {
                block: index,
                variant: 0,
                index: 0,
            };
            push_places(out, slice::from_ref(item), number, first)
        }
        Block::Choice(choice) => push_variants(out, choice.variants(), number, index),
    }
}

// Adds the places of a class's inserts in every variant of blocks, the first of which has this number.
fn push_blocks(
    out: &mut Vec<Place>,
    blocks: &[Block],
    number: u8,
    first: u32,
) -> Result<(), AllocError>
    requires blocks { first + length blocks.now ≤ item_limit }
    requires items { item_count blocks.now ≤ item_limit }
    ensures { OnOk result (out.new.items ≡ out.old.items ++ places_from number first blocks.now) }
{
    let mut rest = blocks;
    let mut index = first;
    'each: while let [block, after @ ..] = rest {
        push_block(out, block, number, index)?;
        rest = after;
        index += 1;
    }
    Ok(())
}

/// The places of a class's inserts in every variant of a galley that stands in three parts, in order.
pub fn places_of(
    alloc: Global,
    before: &[Block],
    fresh: &[Block],
    behind: &[Block],
    number: u8,
) -> Result<Vec<Place>, AllocError>
    requires blocks { length before.now + length fresh.now + length behind.now ≤ item_limit }
    requires items { item_count (before.now ++ fresh.now ++ behind.now) ≤ item_limit }
    ensures { IfOk result (λ places.
        places.items ≡ places_from number 0 (before.now ++ fresh.now ++ behind.now)) }
{
    let middle = before.len() as u32;
    let last = middle + fresh.len() as u32;
    let mut places = Vec::new(alloc);
    push_blocks(&mut places, before, number, 0)?;
    push_blocks(&mut places, fresh, number, middle)?;
    push_blocks(&mut places, behind, number, last)?;
    Ok(places)
}

// A place comes before another.
fn is_before(place: &Place, other: &Place) -> bool
    ensures { result ≡ comes_before place.now other.now }
{
    (place.block, place.variant, place.index) < (other.block, other.variant, other.index)
}

// How many of the places come before one.
fn count_before(places: &[Place], other: Place) -> usize
    ensures point { IsPartitionedBy (λ (place : APlace). comes_before place other) places.now →
        IsPartitionPoint (λ (place : APlace). comes_before place other ≡ true)
        (λ (place : APlace). comes_before place other ≡ false) places.now result }
    ensures within { result ≤ length places.now }
{
    places.partition_point(|place| is_before(place, &other))
}

/// How many of the inserts at these places, which stand in order, stand before a place in its variant.
pub fn inserts_before(places: &[Place], place: Place) -> usize
    ensures value { (blocks : List ABlock) (number : ℕ) → places.now ≡ places_from number 0 blocks →
        result ≡ length (sizes_of number (take place.index (items_around blocks place))) }
    ensures within { result ≤ length places.now }
{
    let first = count_before(places, Place { index: 0, ..place });
    count_before(&places[first..], place)
}
