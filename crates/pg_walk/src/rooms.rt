//! The ends in one room or in several.
ghost use Rattle.std.specs.Prelude.{◌≡◌, ◌<◌, ◌^◌, IfOk, map, nat_abs, pos, ℤ};
ghost use Rattle.std.specs.List.{AllByRecursion};
ghost use Rattle.pg_rules.specs.IsState.{IsPlace};
ghost use Rattle.pg_rules.specs.Legal.{document};
ghost use Rattle.pg_list.specs.declared.galley.Place.{Place as APlace};
ghost use Rattle.pg_column.specs.Ends.{AreEnds};
ghost use Rattle.pg_column.specs.Numbers.{most_room};
ghost use Rattle.pg_column.specs.declared.cost.TextRoom.{TextRoom as ATextRoom};
ghost use Rattle.law_walk.specs.Laws.{AreEndsInEach, AreUpTo};
ghost use Rattle.pg_candidates.specs.Nears.{AreNearFrom, IsWithin};
ghost use Rattle.pg_walk.specs.Rooms.{IsAsked, greatest_room};

use crate::place::near_from;
use pg_candidates::NearList;
use pg_column::{EndList, EndLists, TextRoom};
use pg_list::{Galley, Place};
use pg_scaled::plus;
use pg_style::{Give, Style};
use std::alloc::{AllocError, Global};

// A room whose gaps are shrunk.
fn most_of(room: &TextRoom) -> i64
    requires { IsAsked room.now }
    ensures { result ≡ most_room room.now }
{
    plus(room.size, room.give.shrink)
}

/// All places where a column of text from a place may end, in a room: for each place and fitness the best picks with the
/// numbers of the column, in order.
///
/// Conditions: the place is the galley's, and the numbers of the room are below 2^40 in size, of which the gaps' shrink is
/// not below 0. The one refusal is want of memory.
pub fn ends(
    alloc: Global,
    galley: &Galley,
    style: &Style,
    from: Place,
    room: &TextRoom,
) -> Result<EndList, AllocError>
    requires place { IsPlace galley.now.blocks from }
    requires room { IsAsked room.now }
    ensures { IfOk result (λ ends. AreEnds (document galley.now style.now) from room.now ends) }
{
    let nears = near_from(alloc, galley, style, from, most_of(room), &room.give)?;
    nears.ends_in(alloc, galley, style, room)
}

// The greatest of these rooms and a number, their gaps shrunk.
fn greatest_of(first: i64, rooms: &[TextRoom]) -> i64
    requires { AllByRecursion IsAsked rooms.now }
    ensures { result ≡ greatest_room first (map most_room rooms.now) }
{
    let mut greatest = first;
    let mut left = rooms;
    'rooms: while let [room, after @ ..] = left {
        let most = most_of(room);
        if greatest < most {
            greatest = most;
        }
        left = after;
    }
    greatest
}

// A room that none of these is above.
fn top_of(rooms: &[TextRoom]) -> i64
    requires { AllByRecursion IsAsked rooms.now }
    ensures { AreUpTo result rooms.now }
{
    match rooms {
        [room, ..] => greatest_of(most_of(room), rooms),
        [] => 0,
    }
}

// The most by which the gaps beside one of these rooms may be stretched.
fn stretch_of(rooms: &[TextRoom]) -> i64
    requires { AllByRecursion IsAsked rooms.now }
    ensures value { result ≡ greatest_room (pos 0) (map (λ (room : ATextRoom). room.give.stretch) rooms.now) }
    ensures size { nat_abs result < 2 ^ 40 }
{
    let mut greatest = 0i64;
    let mut left = rooms;
    'rooms: while let [room, after @ ..] = left {
        if greatest < room.give.stretch {
            greatest = room.give.stretch;
        }
        left = after;
    }
    greatest
}

// The ends in each of these rooms of candidates with what no room changes.
fn ends_near(
    alloc: Global,
    galley: &Galley,
    style: &Style,
    nears: &NearList,
    rooms: &[TextRoom],
) -> Result<EndLists, AllocError>
    requires { AllByRecursion IsAsked rooms.now }
    ensures { IfOk result (λ lists. (from : APlace) (top most : ℤ) →
        AreNearFrom (document galley.now style.now) from top most nears.now → AreUpTo top rooms.now →
        AllByRecursion (IsWithin most) rooms.now →
        AreEndsInEach (document galley.now style.now) from rooms.now lists) }
{
    let mut lists = EndLists::new(alloc);
    let mut left = rooms;
    'rooms: while let [room, after @ ..] = left {
        lists.push(nears.ends_in(alloc, galley, style, room)?)?;
        left = after;
    }
    Ok(lists)
}

/// The ends in each of these rooms, in order, from one walk: for each what `ends` gives.
///
/// Conditions: the place is the galley's, and each room is as for `ends`. The one refusal is want of memory.
pub fn ends_many(
    alloc: Global,
    galley: &Galley,
    style: &Style,
    from: Place,
    rooms: &[TextRoom],
) -> Result<EndLists, AllocError>
    requires place { IsPlace galley.now.blocks from }
    requires rooms { AllByRecursion IsAsked rooms.now }
    ensures { IfOk result (AreEndsInEach (document galley.now style.now) from rooms.now) }
{
    let most = Give {
        stretch: stretch_of(rooms),
        shrink: 0,
    };
    let nears = near_from(alloc, galley, style, from, top_of(rooms), &most)?;
    ends_near(alloc, galley, style, &nears, rooms)
}
