//! The least rule on its text that a column breaks, or its numbers.
ghost use Rattle.std.specs.Prelude.{◌≡◌, ◌≤◌, ◌+◌, ◌^◌, true, false};
ghost use Rattle.std.specs.List.{AllByRecursion};
ghost use Rattle.std.specs.Option.{option_map_or};
ghost use Rattle.pg_list.specs.Shapes.{IsBlock};
ghost use Rattle.pg_list.specs.Flat.{blocks_at, end_of, flat_items_at, is_same_place as is_same_place_of};
ghost use Rattle.pg_style.specs.Ranges.{IsStyle};
ghost use Rattle.pg_rules.specs.Legal.{document};
ghost use Rattle.pg_rules.specs.Room.{ColumnContext};
ghost use Rattle.pg_column.specs.Ahead.{first_variant, picks_after as picks_after_of};
ghost use Rattle.pg_column.specs.Fits.{HasSpan, are_named, does_fit_from, does_span_fit};
ghost use Rattle.pg_column.specs.Judged.{Judges, are_loose_enough as are_loose_enough_of, is_loose_enough as is_loose_enough_of, started, verdict_on, walk_to};
ghost use Rattle.pg_column.specs.Numbers.{IsRoom, text_room};
ghost use Rattle.pg_column.specs.View.{IsFor, view};

use crate::cost::{TextCost, TextRoom, version_of};
use crate::items::{blocks_of, from, from_block, is_end, settled, without_first};
use crate::span::{Span, is_reached};
use crate::step::next_step;
use crate::walked::Walked;
use pg_list::{Block, Galley, Place, Variant};
use pg_style::Style;

// Whether the looseness of a variant is within the style's.
fn is_loose_enough(style: &Style, variant: &Variant) -> bool
    ensures { result ≡ is_loose_enough_of style.now variant.now }
{
    variant.looseness.unsigned_abs() <= u32::from(style.max_looseness)
}

// Whether the variant of a block that the first pick names is loose enough, where it is there.
fn is_first_loose(style: &Style, block: &Block, picks: &[u32]) -> bool
    ensures { result ≡ option_map_or (is_loose_enough_of style.now) (first_variant block.now picks.now) true }
{
    match block {
        Block::One(_) => true,
        Block::Choice(choice) => match picks {
            [] => true,
            [pick, ..] => match choice.variants().get(*pick as usize) {
                Some(variant) => is_loose_enough(style, variant),
                None => true,
            },
        },
    }
}

// The picks left behind a block.
fn picks_after<'a>(block: &Block, picks: &'a [u32]) -> &'a [u32]
    ensures { result.now ≡ picks_after_of block.now picks.now }
{
    match block {
        Block::One(_) => picks,
        Block::Choice(_) => without_first(picks),
    }
}

// Whether the looseness of all variants picked is within the style's.
fn are_loose_enough(style: &Style, blocks: &[Block], picks: &[u32]) -> bool
    ensures { result ≡ are_loose_enough_of style.now blocks.now picks.now }
{
    let mut rest = blocks;
    let mut left = picks;
    'choices: while let Some(block) = rest.first() {
        if left.is_empty() {
            return true;
        }
        if !is_first_loose(style, block, left) {
            return false;
        }
        left = picks_after(block, left);
        rest = from(rest, 1);
    }
    true
}

// What is kept of the items from a place to another.
fn walk(
    galley: &Galley,
    style: &Style,
    room: &TextRoom,
    start: Place,
    picks: &[u32],
    to: Place,
) -> Walked
    requires room { IsRoom room.now }
    requires named { are_named galley.now.blocks start picks.now ≡ true }
    ensures { view result ≡ walk_to (document galley.now style.now) room.now
        (is_same_place_of to (end_of galley.now.blocks)) to started (flat_items_at galley.now.blocks start picks.now) }
{
    let blocks = blocks_of(galley);
    let is_end = is_end(blocks, to);
    let mut at = settled(blocks, start);
    let mut left = picks;
    let mut walked = Walked::start(style);
    'ahead: while let Some(step) = next_step(galley, at, left) {
        if is_reached(is_end, at, to) {
            return walked;
        }
        walked.pass(galley, style, room, at, step.item);
        at = step.next;
        left = step.left;
    }
    walked
}

/// Judges the text from a place to another with these picks in a room. Answers its numbers, or else the number of the least rule on the text of a column that it breaks: 3 shape of a
/// column, 4 tolerance, 5 break inside, 6 least text, 11 limit of notes, 13 looseness. What is over, a break and a
/// forced break are TeX's (TeX: The Program, §1000 to §1007; The TeXbook, chapter 15).
///
/// Conditions: the text fits the galley (`fits_from`), the places differ, and the numbers of the room are below 2^40 in
/// size. Takes no memory.
pub fn judge_from(
    galley: &Galley,
    style: &Style,
    start: Place,
    picks: &[u32],
    to: Place,
    room: &TextRoom,
) -> Result<TextCost, u8>
    requires room { IsRoom room.now }
    requires fits { does_fit_from galley.now.blocks start picks.now to ≡ true }
    requires text { is_same_place_of start to ≡ false }
    ensures value { result ≡ verdict_on (document galley.now style.now) room.now start picks.now to }
    ensures column { (it : ColumnContext) → it.document ≡ document galley.now style.now → it.column.from ≡ start →
        it.column.to ≡ to → it.column.picks ≡ picks.now → text_room it ≡ room.now → Judges it result }
{
    let _ranges = version_of(style);
    let is_loose = are_loose_enough(style, from_block(blocks_of(galley), start), picks);
    let walked = walk(galley, style, room, start, picks, to);
    walked.verdict(galley, style, room, to, is_loose)
}

/// `judge_from` of a span.
pub fn judge_text(
    galley: &Galley,
    style: &Style,
    span: &Span,
    room: &TextRoom,
) -> Result<TextCost, u8>
    requires room { IsRoom room.now }
    requires fits { does_span_fit galley.now.blocks span.now ≡ true }
    requires text { is_same_place_of span.now.from span.now.to ≡ false }
    ensures { (it : ColumnContext) → it.document ≡ document galley.now style.now → HasSpan it span.now →
        text_room it ≡ room.now → Judges it result }
{
    judge_from(
        galley,
        style,
        span.from,
        span.picks.as_slice(),
        span.to,
        room,
    )
}
