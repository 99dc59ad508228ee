//! The ends in one room along the first stretch from a place.
ghost use Rattle.std.specs.Prelude.{◌≡◌, [], IfOk, false};
ghost use Rattle.pg_column.specs.Numbers.{IsRoom};
ghost use Rattle.pg_hops.specs.Index.{AreHops};
ghost use Rattle.pg_rules.specs.IsState.{IsPlace};
ghost use Rattle.pg_rules.specs.Legal.{document};
ghost use Rattle.law_walk.specs.Reached.{tallest as tallest_of};
ghost use Rattle.pg_walk.specs.Blocks.{HasWalked, IsLast};
ghost use Rattle.pg_walk.specs.Straight.{AreStraight, tallest_room as tallest_room_of};

use crate::reach::{tallest, tallest_run};
use crate::walking::first_stretch;
use crate::{Context, variants_at};
use pg_candidates::{OneRoom, RoomEnd, Walked};
use pg_column::TextRoom;
use pg_hops::BreakIndex;
use pg_list::{Galley, Place};
use pg_style::{Give, Kind, Style};
use std::alloc::{AllocError, Global};

/// The ends in a room along the first stretch from a place.
#[derive(Drop)]
pub struct StraightEnds {
    pub room: TextRoom,
    pub ends: Vec<RoomEnd>,
}

// Whether all columns of text have one room under a style: there are no other runs, and no areas of floats. No clause rests
// on it: it tells which walk serves better.
pub(crate) fn has_one_room(style: &Style) -> bool {
    let floats = style
        .classes
        .as_slice()
        .iter()
        .any(|class| matches!(class.kind, Kind::Float { .. }));
    style.runs.as_slice().len() == 1 && !floats
}

// The room of the tallest run, with no areas.
pub(crate) fn tallest_room(style: &Style) -> TextRoom
    ensures value { result ≡ tallest_room_of style.now }
    ensures small { IsRoom result }
{
    TextRoom {
        size: tallest_run(style),
        give: Give::none(),
    }
}

/// The ends in a room along the first stretch from a place, and what the walk along it tells.
#[derive(Drop)]
pub(crate) struct StraightWalk {
    pub(crate) straight: StraightEnds,
    pub(crate) walked: Walked,
}

// Walks along the first stretch from a place, and keeps the ends in a room in a list that has none yet.
pub(crate) fn straight_walk(
    alloc: Global,
    galley: &Galley,
    style: &Style,
    index: &BreakIndex,
    from: Place,
    none: OneRoom<'_>,
) -> Result<StraightWalk, AllocError>
    requires hops { AreHops galley.now.blocks style.now.maxdepth index.now }
    requires place { IsPlace galley.now.blocks from }
    requires galley { none.galley.now ≡ galley.now }
    requires none { none.ends.items ≡ [] }
    ensures room { IfOk result (λ it. it.straight.room ≡ none.entry.room) }
    ensures ends { IfOk result (λ it. AreStraight (document galley.now style.now) from it.straight) }
    ensures walked { IfOk result (λ it. HasWalked (document galley.now style.now) (tallest_of style.now) from it.walked) }
{
    let mut one = none;
    let context = Context {
        alloc,
        galley,
        style,
        index,
        top: tallest(style),
    };
    let walked = first_stretch(&context, from, &mut one)?;
    let room = one.room;
    let ends = one.ends;
    Ok(StraightWalk {
        straight: StraightEnds { room, ends },
        walked,
    })
}

/// The ends in a room along the first stretch from a place, found by a walk for this room alone.
///
/// Conditions: the place is the galley's, and the numbers of the room are below 2^40 in size. The one refusal is want of
/// memory.
pub fn straight_ends(
    alloc: Global,
    galley: &Galley,
    style: &Style,
    from: Place,
    room: &TextRoom,
) -> Result<StraightEnds, AllocError>
    requires place { IsPlace galley.now.blocks from }
    requires room { IsRoom room.now }
    ensures room { IfOk result (λ it. it.room ≡ room.now) }
    ensures ends { IfOk result (λ it. AreStraight (document galley.now style.now) from it) }
{
    let index = BreakIndex::empty(alloc);
    let none = OneRoom::new(alloc, galley, *room)?;
    let walk = straight_walk(alloc, galley, style, &index, from, none)?;
    Ok(walk.straight)
}

// Whether columns come to a choice behind the first stretch.
pub(crate) fn comes_to_choice(galley: &Galley, walked: &Walked) -> bool
    ensures { result ≡ false → IsLast galley.now.blocks walked.now.state }
{
    match &walked.state {
        Some(state) => !variants_at(galley, state.block).is_empty(),
        None => false,
    }
}
