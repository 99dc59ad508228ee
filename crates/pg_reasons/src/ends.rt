//! The ends in reach of a column of text.
ghost use Rattle.std.specs.Prelude.{◌≡◌, ◌≤◌, ◌<◌, ◌^◌, nat_abs, option_map, option_copied, Option, IfSome, false, true, ℕ};
ghost use Rattle.pg_list.specs.Flat.{is_same_place as is_same_place_of};
ghost use Rattle.pg_list.specs.Places.{item_at as item_at_of};
ghost use Rattle.pg_list.specs.Ranges.{IsItemInRange};
ghost use Rattle.pg_rules.specs.Legal.{document};
ghost use Rattle.pg_rules.specs.Room.{ColumnContext};
ghost use Rattle.pg_column.specs.Numbers.{IsRoom};
ghost use Rattle.pg_reasons.specs.Reasons.{TellsFault};

use pg_breaks::{break_cost, is_forced, is_spent};
use pg_column::{TextCost, TextRoom, fits_from, is_over, is_same_place, judge_from, text_cost};
use pg_list::{Block, Galley, Item, Place};
use pg_notes::NoteSums;
use pg_plan::Picks;
use pg_style::Style;
use pg_sums::Sums;
use std::alloc::{AllocError, Global};

/// An end in reach of a text: its place, the text's natural height and what its notes leave of the room, in scaled
/// points, whether it is over, how badly it fills the goal where it is not, and the least rule on its text that a
/// column would break there, if any.
#[derive(Clone, Copy)]
pub struct Reach {
    pub to: Place,
    pub total: i64,
    pub goal: i64,
    pub is_over: bool,
    pub badness: u16,
    pub has_box: bool,
    pub rule: Option<u8>,
}

/// How many items a reach is looked for in.
const MOST: u32 = 65536;

/// The least rule on the text of a column that one from a place to another with these picks breaks in a room: 3 shape of a column, 4 tolerance, 5 break inside, 6 least text, 11 limit of notes, 13 looseness. None
/// where it breaks none, or where the text is none of the galley.
///
/// Condition: the numbers of the room are below 2^40 in size. Takes no memory.
pub fn rule_at(
    galley: &Galley,
    style: &Style,
    from: Place,
    picks: &[u32],
    to: Place,
    room: &TextRoom,
) -> Option<u8>
    requires { IsRoom room.now }
    ensures { TellsFault galley.now style.now from picks.now to room.now result }
{
    if is_same_place(from, to) {
        return None;
    }
    if !fits_from(galley, from, picks, to) {
        return None;
    }
    match judge_from(galley, style, from, picks, to, room) {
        Ok(_) => None,
        Err(rule) => Some(rule),
    }
}

// The item at a place, within its range.
fn item_in(galley: &Galley, at: Place) -> Option<&Item>
    ensures is { option_copied result ≡ item_at_of galley.now.blocks at }
    ensures range { IfSome result (λ item. IsItemInRange item.now) }
{
    let _ = galley.blocks().as_slice();
    galley.item_at(at)
}

// Whether a choice begins at a place.
fn is_front(galley: &Galley, at: Place) -> bool {
    if at.index != 0 {
        return false;
    }
    matches!(
        galley.blocks().as_slice().get(at.block as usize),
        Some(Block::Choice(_))
    )
}

// How badly a text fills its goal, where it is not over.
fn badness_in(numbers: &TextCost, is_over: bool) -> u16 {
    if is_over { 0 } else { numbers.badness }
}

// A text: its places, and the picks of its choices.
#[derive(Clone, Copy)]
struct Text<'a> {
    from: Place,
    picks: &'a [u32],
    to: Place,
}

// What is kept of a text, whose items have these sums.
fn reach_at(
    galley: &Galley,
    style: &Style,
    text: &Text,
    room: &TextRoom,
    sums: &Sums,
    notes: &NoteSums,
) -> Reach
    requires { IsRoom room.now }
{
    let numbers = text_cost(style, room, sums, notes, is_spent(galley, text.to), 0);
    let is_over = is_over(style, room, sums, notes);
    Reach {
        to: text.to,
        total: numbers.total,
        goal: numbers.goal,
        is_over,
        badness: badness_in(&numbers, is_over),
        has_box: sums.has_box(),
        rule: rule_at(galley, style, text.from, text.picks, text.to, room),
    }
}

/// The ends in reach of a text from a place in a room, with the first version of each paragraph that is a choice: each break up to the first that is over or forced.
///
/// Condition: the numbers of the room are below 2^40 in size.
pub fn reaches_of(
    alloc: Global,
    galley: &Galley,
    style: &Style,
    from: Place,
    room: &TextRoom,
) -> Result<Vec<Reach>, AllocError>
    requires { IsRoom room.now }
{
    let mut sums = Sums::start(style.topskip, style.maxdepth);
    let mut notes = NoteSums::start();
    let mut picks = Picks::new(alloc);
    let mut ends = Vec::new(alloc);
    let mut place = from;
    for _ in 0..MOST {
        let is_break = break_cost(galley, place).is_some();
        if is_break && !is_same_place(from, place) {
            let text = Text {
                from,
                picks: picks.as_slice(),
                to: place,
            };
            let end = reach_at(galley, style, &text, room, &sums, &notes);
            ends.push(end)?;
            if end.is_over || (end.has_box && is_forced(galley, place)) {
                return Ok(ends);
            }
        }
        let Some(item) = item_in(galley, place) else {
            return Ok(ends);
        };
        if is_front(galley, place) {
            picks.push(0)?;
        }
        sums.add(item);
        notes.add(style, item);
        place = galley.next_place(place);
    }
    Ok(ends)
}
