//! One walk for all columns of text from a place.
ghost use Rattle.std.specs.Prelude.{◌≡◌, ◌<◌, ◌^◌, [], IfOk, IfSome, None, nat_abs};
ghost use Rattle.pg_hops.specs.Index.{AreHops};
ghost use Rattle.pg_rules.specs.IsState.{IsPlace};
ghost use Rattle.pg_rules.specs.Legal.{document};
ghost use Rattle.pg_rules.specs.Reach.{IsReach};
ghost use Rattle.pg_candidates.specs.Nears.{AreNearFrom, AreNearOnPages};
ghost use Rattle.law_walk.specs.Reached.{tallest as tallest_of};
ghost use Rattle.law_walk.specs.Space.{first_ends};
ghost use Rattle.pg_walk.specs.Contexts.{IsContext, doc_of};
ghost use Rattle.pg_walk.specs.Blocks.{HasStart, TellsAlone};
ghost use Rattle.pg_walk.specs.Fronts.{ComesTo, IsAhead};
ghost use Rattle.pg_walk.specs.Straight.{TellsAll};

use crate::front::Front;
use crate::give::areas_give;
use crate::reach::{quiet_state, reach_told, tallest};
use crate::straight::{
    StraightEnds, StraightWalk, comes_to_choice, has_one_room, straight_walk, tallest_room,
};
use crate::walking::{candidates, collect_behind, first_stretch, quiet_greatest, state_behind};
use crate::{Context, variants_at};
use law_walk::laws::walk_is_a_space;
use pg_candidates::{AllRooms, CandidateList, NearList, OneRoom, RoomEnd};
use pg_hops::{BreakIndex, State};
use pg_list::{Galley, Place};
use pg_style::{Give, Style};
use std::alloc::{AllocError, Global};

/// Where columns of text from a place may end in the room of any page, with what no room changes, and one more than the
/// greatest block of a place that they may reach.
#[derive(Drop)]
pub struct PlaceWalk {
    pub near: NearList,
    pub reach: u32,
}

// Where columns of text from a place may end in some room up to a greatest one, the gaps of whose areas are stretched by
// no more than `most` says, with what no room changes.
pub(crate) fn near_from(
    alloc: Global,
    galley: &Galley,
    style: &Style,
    from: Place,
    top: i64,
    most: &Give,
) -> Result<NearList, AllocError>
    requires place { IsPlace galley.now.blocks from }
    requires size { nat_abs most.now.stretch < 2 ^ 40 }
    ensures { IfOk result (AreNearFrom (document galley.now style.now) from top most.now.stretch) }
{
    candidates(alloc, galley, style, from, top)?.into_near(alloc, galley, style, most)
}

// What a walk from a place tells, by what its first stretch tells, of which these are the ends.
fn walk_on_from(
    context: &Context,
    from: Place,
    start: Option<State>,
    told: Option<u32>,
    first: CandidateList,
) -> Result<PlaceWalk, AllocError>
    requires context { IsContext context.now }
    requires top { context.now.top ≡ tallest_of context.now.style.now }
    requires place { IsPlace context.now.galley.now.blocks from }
    requires ends { first ≡ first_ends (doc_of context.now) context.now.top from }
    requires start { HasStart (doc_of context.now) context.now.top from start }
    requires told { TellsAlone (doc_of context.now) context.now.top from start told }
    ensures near { IfOk result (λ walk. AreNearOnPages (doc_of context.now) from walk.near) }
    ensures reach { IfOk result (λ walk. IsReach (doc_of context.now) from walk.reach) }
{
    let Context {
        alloc,
        galley,
        style,
        index,
        ..
    } = *context;
    let mut found = first;
    let told = collect_behind(context, from, start, told, &mut found)?;
    let reach = reach_told(alloc, galley, style, index, from, told)?;
    let near = found.into_near(alloc, galley, style, &areas_give(style))?;
    Ok(PlaceWalk { near, reach })
}

/// What one walk from a place tells of the columns of text that begin there, in every room up to that of the tallest run
/// beside gaps of areas that are no more than full, and how far they may go.
///
/// Conditions: the place is the galley's, and the index is of the galley and style. The one refusal is want of memory.
pub fn walk_from(
    alloc: Global,
    galley: &Galley,
    style: &Style,
    index: &BreakIndex,
    from: Place,
) -> Result<PlaceWalk, AllocError>
    requires hops { AreHops galley.now.blocks style.now.maxdepth index.now }
    requires place { IsPlace galley.now.blocks from }
    ensures near { IfOk result (λ walk. AreNearOnPages (document galley.now style.now) from walk.near) }
    ensures reach { IfOk result (λ walk. IsReach (document galley.now style.now) from walk.reach) }
{
    let mut found = CandidateList::with_room(alloc)?;
    let context = Context {
        alloc,
        galley,
        style,
        index,
        top: tallest(style),
    };
    let walked = first_stretch(&context, from, &mut found)?;
    let start = state_behind(&walked);
    let told = quiet_greatest(&walked);
    walk_on_from(&context, from, start, told, found)
}

/// What the first stretch from a place tells, up to the first choice: where columns may end along it, with what no room
/// changes, or, where the style has one room, which of these ends there are in it; and how columns come to the front
/// behind it. Where they come to none, these are all ends, and the reach is one more than the greatest block of a place
/// that they may reach.
#[derive(Drop)]
pub struct FirstWalk {
    pub near: NearList,
    pub straight: Option<StraightEnds>,
    /// Behind a pointer: in most galleys columns come to none.
    pub front: Option<Box<Front>>,
    pub reach: u32,
}

// How columns from a place come to the front of a choice behind the first stretch, with their notes and without. Not made
// part of its callers, which would pay for its locals where there is no choice.
#[inline(never)]
fn front_behind(
    alloc: Global,
    galley: &Galley,
    style: &Style,
    index: &BreakIndex,
    from: Place,
    start: Option<State>,
) -> Result<Option<Box<Front>>, AllocError>
    requires hops { AreHops galley.now.blocks style.now.maxdepth index.now }
    requires place { IsPlace galley.now.blocks from }
    requires start { HasStart (document galley.now style.now) (tallest_of style.now) from start }
    ensures { IfOk result (λ o. IfSome o (λ front. IsAhead (document galley.now style.now) from front.value)) }
{
    let Some(start) = start else {
        return Ok(None);
    };
    if variants_at(galley, start.block).is_empty() {
        return Ok(None);
    }
    let Some(quiet) = quiet_state(alloc, galley, style, index, from) else {
        return Ok(None);
    };
    Ok(Some(Box::new(alloc, Front { start, quiet })?))
}

// What the ends in the one room of the style tell, with how columns come to the front behind the first stretch; none where
// that is not known without the other walk.
fn walk_straight(
    alloc: Global,
    galley: &Galley,
    style: &Style,
    index: &BreakIndex,
    from: Place,
    ends: Vec<RoomEnd>,
) -> Result<Option<FirstWalk>, AllocError>
    requires hops { AreHops galley.now.blocks style.now.maxdepth index.now }
    requires place { IsPlace galley.now.blocks from }
    requires none { ends.items ≡ [] }
    ensures whole { IfOk result (λ o. IfSome o (λ it. it.front ≡ None → TellsAll (document galley.now style.now) from it)) }
    ensures reach { IfOk result (λ o. IfSome o (λ it. it.front ≡ None →
        IsReach (document galley.now style.now) from it.reach)) }
    ensures front { IfOk result (λ o. IfSome o (λ it.
        IfSome it.front (λ front. ComesTo (document galley.now style.now) from it front.value))) }
{
    let _ = galley.blocks().as_slice();
    walk_is_a_space(galley, style);
    let none = OneRoom {
        galley,
        room: tallest_room(style),
        ends,
    };
    let StraightWalk { straight, walked } = straight_walk(alloc, galley, style, index, from, none)?;
    let straight = Some(straight);
    let told = quiet_greatest(&walked);
    let near = NearList::none(alloc);
    if !comes_to_choice(galley, &walked) {
        let reach = reach_told(alloc, galley, style, index, from, told)?;
        return Ok(Some(FirstWalk {
            near,
            straight,
            front: None,
            reach,
        }));
    }
    let front = front_behind(alloc, galley, style, index, from, state_behind(&walked))?;
    let Some(front) = front else {
        return Ok(None);
    };
    let reach = front.start.block;
    Ok(Some(FirstWalk {
        near,
        straight,
        front: Some(front),
        reach,
    }))
}

// Walks along the first stretch from a place, and on where no choice stands behind it, for all rooms.
#[inline(never)]
fn walk_for_rooms(
    alloc: Global,
    galley: &Galley,
    style: &Style,
    index: &BreakIndex,
    from: Place,
) -> Result<FirstWalk, AllocError>
    requires hops { AreHops galley.now.blocks style.now.maxdepth index.now }
    requires place { IsPlace galley.now.blocks from }
    ensures whole { IfOk result (λ it. it.front ≡ None → TellsAll (document galley.now style.now) from it) }
    ensures reach { IfOk result (λ it. it.front ≡ None → IsReach (document galley.now style.now) from it.reach) }
    ensures front { IfOk result (λ it.
        IfSome it.front (λ front. ComesTo (document galley.now style.now) from it front.value)) }
{
    let _ = galley.blocks().as_slice();
    walk_is_a_space(galley, style);
    let mut found = AllRooms::new(alloc, galley, areas_give(style))?;
    let context = Context {
        alloc,
        galley,
        style,
        index,
        top: tallest(style),
    };
    let walked = first_stretch(&context, from, &mut found)?;
    let told = quiet_greatest(&walked);
    if !comes_to_choice(galley, &walked) {
        let reach = reach_told(alloc, galley, style, index, from, told)?;
        return Ok(FirstWalk {
            near: found.into_near(),
            straight: None,
            front: None,
            reach,
        });
    }
    let front = front_behind(alloc, galley, style, index, from, state_behind(&walked))?;
    let Some(front) = front else {
        let walk = walk_from(alloc, galley, style, index, from)?;
        return Ok(FirstWalk {
            near: walk.near,
            straight: None,
            front: None,
            reach: walk.reach,
        });
    };
    let reach = front.start.block;
    let near = found.into_near();
    Ok(FirstWalk {
        near,
        straight: None,
        front: Some(front),
        reach,
    })
}

/// Walks along the first stretch from a place, and on where no choice stands behind it. Ends in the one room of the style
/// are kept in a list that has none yet, for its memory.
///
/// Conditions: the place is the galley's, and the index is of the galley and style. The one refusal is want of memory.
pub fn walk_first(
    alloc: Global,
    galley: &Galley,
    style: &Style,
    index: &BreakIndex,
    from: Place,
    ends: Vec<RoomEnd>,
) -> Result<FirstWalk, AllocError>
    requires hops { AreHops galley.now.blocks style.now.maxdepth index.now }
    requires place { IsPlace galley.now.blocks from }
    requires none { ends.items ≡ [] }
    ensures whole { IfOk result (λ it. it.front ≡ None → TellsAll (document galley.now style.now) from it) }
    ensures reach { IfOk result (λ it. it.front ≡ None → IsReach (document galley.now style.now) from it.reach) }
    ensures front { IfOk result (λ it.
        IfSome it.front (λ front. ComesTo (document galley.now style.now) from it front.value)) }
{
    if !has_one_room(style) {
        return walk_for_rooms(alloc, galley, style, index, from);
    }
    match walk_straight(alloc, galley, style, index, from, ends)? {
        Some(walk) => Ok(walk),
        None => walk_for_rooms(alloc, galley, style, index, from),
    }
}
