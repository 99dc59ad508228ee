//! A span of text, and whether it fits its galley.
ghost use Rattle.std.specs.Prelude.{◌≡◌, ◌<◌, ◌≤◌, ◌==◌, ◌&&◌, ◌^◌, is_some, not, length, true};
ghost use Rattle.std.specs.List.{AllByRecursion};
ghost use Rattle.std.specs.Option.{option_copied};
ghost use Rattle.pg_list.specs.Counts.{item_count};
ghost use Rattle.pg_list.specs.Places.{item_at as item_at_of};
ghost use Rattle.pg_list.specs.Shapes.{IsBlock};
ghost use Rattle.pg_list.specs.Flat.{blocks_at as blocks_at_of, end_of, flat_items_at, is_same_place as is_same_place_of, picked_variants};
ghost use Rattle.pg_rules.specs.ColumnRules.{does_fit};
ghost use Rattle.pg_rules.specs.Room.{ColumnContext};
ghost use Rattle.pg_column.specs.Ahead.{item_place as item_place_of, is_front as is_front_of, leads_to, picks_past as picks_past_of};
ghost use Rattle.pg_column.specs.Fits.{HasSpan, are_named as are_named_of, does_fit_from, does_span_fit};

use crate::items::{
    blocks_of, from, from_block, is_end, is_front, is_same_place, item_at, item_place,
    next_index_of, picks_behind, settled,
};
use pg_list::{Block, Galley, Item, Place};
use pg_plan::Picks;

/// A span of text: where it begins, the place before which it ends, and a pick for each choice that begins in it.
#[derive(Drop)]
pub struct Span {
    pub from: Place,
    pub to: Place,
    pub picks: Picks,
}

// The picks left behind a block, where the first names a variant of it, if it is a choice.
fn picks_past<'a>(block: &Block, picks: &'a [u32]) -> Option<&'a [u32]>
    ensures { option_copied result ≡ picks_past_of block.now picks.now }
{
    match block {
        Block::One(_) => Some(picks),
        Block::Choice(choice) => match picks {
            [] => Some(picks),
            [pick, behind @ ..] => {
                if (*pick as usize) < choice.variants().len() {
                    Some(behind)
                } else {
                    None
                }
            }
        },
    }
}

// Whether each pick names a variant of its choice.
fn are_named(blocks: &[Block], picks: &[u32]) -> bool
    ensures { result ≡ (length (picked_variants blocks.now picks.now) == length picks.now) }
{
    let mut rest = blocks;
    let mut left = picks;
    'choices: while let Some(block) = rest.first() {
        if left.is_empty() {
            return true;
        }
        let Some(behind) = picks_past(block, left) else {
            return false;
        };
        left = behind;
        rest = from(rest, 1);
    }
    left.is_empty()
}

/// The item that is ahead, where there is one.
pub fn ahead<'a>(blocks: &'a [Block], at: Place, picks: &[u32]) -> Option<&'a Item>
    ensures { option_copied result ≡ item_at_of blocks.now (item_place_of blocks.now at picks.now) }
{
    item_at(blocks, item_place(blocks, at, picks))
}

// Whether something is ahead.
fn is_ahead(blocks: &[Block], at: Place, picks: &[u32]) -> bool
    requires { item_count blocks.now ≤ 2 ^ 20 }
    ensures there { result ≡ is_some (item_at_of blocks.now (item_place_of blocks.now at picks.now)) }
    ensures small { result ≡ true → at.index < 2 ^ 20 }
{
    ahead(blocks, at, picks).is_some()
}

/// Whether a place is the one to stop at; the end is none of those ahead.
pub fn is_reached(is_end: bool, at: Place, to: Place) -> bool
    ensures { result ≡ (not is_end && is_same_place_of at to) }
{
    !is_end && is_same_place(at, to)
}

// Whether a choice begins and no pick is left.
fn is_short(blocks: &[Block], at: Place, left: &[u32]) -> bool
    ensures { result ≡ (is_front_of blocks.now at && (length left.now == 0)) }
{
    is_front(blocks, at) && left.is_empty()
}

// Whether the end was to be reached, and no pick is left.
fn has_ended(is_end: bool, left: &[u32]) -> bool
    ensures { result ≡ (is_end && (length left.now == 0)) }
{
    is_end && left.is_empty()
}

// Whether what is ahead of a place leads to another, past a front for each pick.
fn leads(galley: &Galley, from: Place, picks: &[u32], to: Place) -> bool
    requires { are_named_of galley.now.blocks from picks.now ≡ true }
    ensures { result ≡ leads_to (is_same_place_of to (end_of galley.now.blocks)) to
        (flat_items_at galley.now.blocks from picks.now) (length picks.now) }
{
    let blocks = blocks_of(galley);
    let is_end = is_end(blocks, to);
    let mut at = settled(blocks, from);
    let mut left = picks;
    'ahead: while is_ahead(blocks, at, left) {
        if is_reached(is_end, at, to) {
            return left.is_empty();
        }
        if is_short(blocks, at, left) {
            return false;
        }
        let here = item_place(blocks, at, left);
        left = picks_behind(blocks, at, left);
        at = settled(blocks, next_index_of(here));
    }
    has_ended(is_end, left)
}

// Whether the picks name variants, as far as they go.
fn names_variants(galley: &Galley, from: Place, picks: &[u32]) -> bool
    ensures { result ≡ are_named_of galley.now.blocks from picks.now }
{
    are_named(from_block(blocks_of(galley), from), picks)
}

/// Whether the text from a place to another fits a galley with these picks: the second place follows the first, and
/// there is a pick for each choice that begins between them, which names a variant of it.
///
/// It takes any places, also such as are none of the galley, and takes no memory.
pub fn fits_from(galley: &Galley, from: Place, picks: &[u32], to: Place) -> bool
    ensures value { result ≡ does_fit_from galley.now.blocks from picks.now to }
    ensures column { (it : ColumnContext) → it.document.blocks ≡ galley.now.blocks → it.column.from ≡ from →
        it.column.to ≡ to → it.column.picks ≡ picks.now → result ≡ does_fit it }
{
    if !names_variants(galley, from, picks) {
        return false;
    }
    leads(galley, from, picks, to)
}

/// `fits_from` of a span.
pub fn fits(galley: &Galley, span: &Span) -> bool
    ensures value { result ≡ does_span_fit galley.now.blocks span.now }
    ensures column { (it : ColumnContext) → it.document.blocks ≡ galley.now.blocks → HasSpan it span.now →
        result ≡ does_fit it }
{
    fits_from(galley, span.from, span.picks.as_slice(), span.to)
}
