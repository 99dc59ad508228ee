//! Places and rooms in words.
ghost use Rattle.std.specs.Prelude.{◌≡◌, ◌<◌, ◌^◌, ◌≤ℤ◌, true, nat_abs, pos, IfOk, IfSome};
ghost use Rattle.std.specs.Bool.{OnTrue};
ghost use Rattle.std.specs.List.{AllByRecursion};
ghost use Rattle.pg_list.specs.Flat.{end_of, is_same_place};
ghost use Rattle.pg_rules.specs.IsState.{IsPlace};
ghost use Rattle.pg_walk.specs.Rooms.{IsAsked};

use anyhow::{Context, anyhow};
use pg_column::TextRoom;
use pg_list::{Galley, Place, items_around};
use pg_scaled::{Front, read_scaled};
use pg_style::Give;
use std::alloc::Global;

/// Columns from a place in several rooms.
#[derive(Drop)]
pub struct Columns {
    pub from: Place,
    pub rooms: Vec<TextRoom>,
}

// A number of points in scaled units.
fn points_of(word: &str) -> Option<i64>
    ensures { IfSome result (λ points. nat_abs points < 2 ^ 40) }
{
    match read_scaled(word.as_bytes()) {
        Front::Value { value, len } if len == word.len() => Some(i64::from(value)),
        _ => None,
    }
}

// By how much the gaps beside a room may be stretched, and behind a `-` by how much they may be shrunk.
fn give_of(words: &str) -> Option<Give>
    ensures { IfSome result (λ give.
        (nat_abs give.stretch < 2 ^ 40) × ((nat_abs give.shrink < 2 ^ 40) × (pos 0 ≤ℤ give.shrink))) }
{
    let (stretch, shrink) = cut(words, '-');
    let stretch = points_of(stretch)?;
    let shrink = points_of(shrink)?;
    if shrink < 0 {
        return None;
    }
    Some(Give { stretch, shrink })
}

// A room, and behind a `+` what the gaps beside it give.
fn room_of(word: &str) -> Option<TextRoom>
    ensures { IfSome result IsAsked }
{
    let (size, give) = cut(word, '+');
    let size = points_of(size)?;
    if give.is_empty() {
        return Some(TextRoom {
            size,
            give: Give::none(),
        });
    }
    let give = give_of(give)?;
    Some(TextRoom { size, give })
}

// Rooms with a blank before each.
fn rooms_of(alloc: Global, words: &str) -> anyhow::Result<Vec<TextRoom>>
    ensures { IfOk result (λ rooms. AllByRecursion IsAsked rooms.items) }
{
    let mut rooms = Vec::new(alloc);
    'words: for word in words.split_whitespace() {
        let room = room_of(word).context("a room is no number of points")?;
        rooms.push(room)?;
    }
    Ok(rooms)
}

// What stands in front of a mark and behind it.
fn cut<'a>(words: &'a str, mark: char) -> (&'a str, &'a str) {
    match words.split_once(mark) {
        None => (words, ""),
        Some(parts) => parts,
    }
}

// A place: its block, its variant and its index, with blanks between. None where these are no numbers.
fn place_of(words: &str) -> Option<Place> {
    let (block, rest) = cut(words, ' ');
    let (variant, index) = cut(rest, ' ');
    Some(Place {
        block: block.parse().ok()?,
        variant: variant.parse().ok()?,
        index: index.parse().ok()?,
    })
}

/// The columns that a line names.
pub fn columns_of(alloc: Global, line: &str) -> anyhow::Result<Columns>
    ensures { IfOk result (λ columns. AllByRecursion IsAsked columns.rooms.items) }
{
    let (place, rooms) = cut(line, ':');
    let from = place_of(place).context("a line has no place")?;
    Ok(Columns {
        from,
        rooms: rooms_of(alloc, rooms)?,
    })
}

// Whether a place is the galley's end.
fn is_end(galley: &Galley, at: Place) -> bool
    ensures { OnTrue result (is_same_place at (end_of galley.now.blocks) ≡ true) }
{
    at.block as usize == galley.blocks().as_slice().len() && (at.variant == 0 && at.index == 0)
}

/// Whether a place is one of the galley.
pub fn is_place(galley: &Galley, at: Place) -> bool
    ensures { OnTrue result (IsPlace galley.now.blocks at) }
{
    let count = items_around(galley.blocks().as_slice(), at).len();
    let is_there = (at.index as usize) < count || is_end(galley, at);
    is_there && (at.index != 0 || at.variant == 0)
}
