//! What stands behind the front of a choice, walked once for all places whose columns come there alike but for their
//! height.
ghost use Rattle.std.specs.Prelude.{◌≡◌, ◌<ℤ◌, ◌≤ℤ◌, ◌≤◌, ◌-ℤ◌, ◌^◌, nat_abs, IfOk, ℤ, pos};
ghost use Rattle.pg_hops.specs.Index.{AreHops};
ghost use Rattle.pg_rules.specs.Legal.{document};
ghost use Rattle.pg_rules.specs.Room.{Document};
ghost use Rattle.law_walk.specs.Reached.{tallest as tallest_of};
ghost use Rattle.pg_walk.specs.Fronts.{FrontsServe, IsFrontWalk, ReachesServe, is_same_state as is_same_state_of};
ghost use Rattle.pg_walk.specs.Meaning.{IsOwn, state_of};
ghost use Rattle.pg_walk.specs.Moved.{IsMoved};

use crate::give::areas_give;
use crate::reach::tallest;
use crate::space::no_worse_than;
use crate::{Context, collect};
use law_walk::laws::{walk_is_a_space, walk_tells_reach};
use pg_candidates::{CandidateList, NearList};
use pg_hops::{BreakIndex, Passed, State};
use pg_list::Galley;
use pg_scaled::minus;
use pg_style::Style;
use pg_sums::Sums;
use std::alloc::{AllocError, Global};

// Up to this height, in scaled points, a state is lowered.
const HIGHEST: i64 = 1 << 39;

/// How columns from a place come to the front of a choice: the state in which they do, and the one in which they would if
/// they passed no notes. The first tells what stands behind the front, the second how far columns go there.
#[derive(Clone, Copy)]
pub struct Front {
    pub start: State,
    pub quiet: State,
}

/// Whether two states stand at one front behind the same sums and notes with the same bound.
pub fn is_same_state(a: &State, b: &State) -> bool
    ensures { result ≡ is_same_state_of (state_of a.now) (state_of b.now) }
{
    no_worse_than(a, b) && no_worse_than(b, a)
}

/// A state before a front without its height and the breaks passed, which columns of other heights share; how much higher
/// the state is, in scaled points; and the least room in which no break passed is over, if one was passed.
#[derive(Clone, Copy)]
pub struct LoweredState {
    pub base: State,
    pub by: i64,
    pub bound: Option<i64>,
}

// The height by which sums are lowered: their own, where they have one that is not too great.
fn height_of(sums: &Sums) -> i64
    ensures low { pos 0 ≤ℤ result }
    ensures small { result <ℤ pos (2 ^ 39) }
    ensures less { nat_abs (sums.now.totals.total -ℤ result) ≤ nat_abs sums.now.totals.total }
{
    let total = sums.total();
    if total > 0 && total < HIGHEST {
        total
    } else {
        0
    }
}

// The sums with less height.
fn lower(sums: &Sums, by: i64) -> Sums
    requires few { sums.now.count ≤ 2 ^ 20 }
    requires low { pos 0 ≤ℤ by }
    requires small { by <ℤ pos (2 ^ 39) }
    requires less { nat_abs (sums.now.totals.total -ℤ by) ≤ nat_abs sums.now.totals.total }
    ensures { result ≡ record sums.now { totals = record sums.now.totals { total = sums.now.totals.total -ℤ by } } }
{
    sums.stays_bounded();
    let mut lower = *sums;
    let mut totals = sums.totals();
    totals.total = minus(sums.total(), by);
    lower.take_totals(totals, 0);
    lower
}

/// A state without its height and the breaks passed.
///
/// Condition: few items were passed, as those of a state of the walk.
pub fn lowered(start: &State) -> LoweredState
    requires few { start.now.passed.sums.count ≤ 2 ^ 20 }
    ensures moved { IsMoved result.by result.bound (state_of result.base) (state_of start.now) }
    ensures own { (doc : Document) (top : ℤ) → IsOwn doc top start.now → IsOwn doc top result.base }
    ensures small { result.by <ℤ pos (2 ^ 39) }
{
    let by = height_of(&start.passed.sums);
    let passed = Passed {
        sums: lower(&start.passed.sums, by),
        notes: start.passed.notes,
        bound: None,
    };
    LoweredState {
        base: State {
            block: start.block,
            passed,
        },
        by,
        bound: start.passed.bound,
    }
}

/// What a walk behind a front tells: where the columns that come there in a state may end, in the room of any page, with what
/// no room changes.
#[derive(Drop)]
pub struct FrontWalk {
    pub base: State,
    pub near: NearList,
}

/// Walks on behind the front of a choice, from a state before it.
///
/// Conditions: the state is one of the walk, and the index is of the galley and style. The one refusal is want of memory.
pub fn walk_behind(
    alloc: Global,
    galley: &Galley,
    style: &Style,
    index: &BreakIndex,
    base: State,
) -> Result<FrontWalk, AllocError>
    requires hops { AreHops galley.now.blocks style.now.maxdepth index.now }
    requires own { IsOwn (document galley.now style.now) (tallest_of style.now) base }
    ensures base { IfOk result (λ it. it.base ≡ base) }
    ensures right { IfOk result (IsFrontWalk (document galley.now style.now)) }
{
    let mut found = CandidateList::with_room(alloc)?;
    let context = Context {
        alloc,
        galley,
        style,
        index,
        top: tallest(style),
    };
    // A copy, field by field: a state that is passed on whole is no longer there to be told.
    let start = State {
        block: base.block,
        passed: base.passed,
    };
    collect(&context, start, &mut found)?;
    let near = found.into_near(alloc, galley, style, &areas_give(style))?;
    Ok(FrontWalk { base, near })
}

/// What a walk behind a front tells serves, moved, each place whose columns come there as it does but for their height.
pub fn fronts_serve(galley: &Galley, style: &Style)
    ensures { FrontsServe (document galley.now style.now) }
{
    style.stays_in_range();
    let _ = galley.blocks().as_slice();
    walk_is_a_space(galley, style);
}

/// How far columns go behind a front where they pass no notes holds for each place whose columns come there so.
pub fn reaches_serve(galley: &Galley, style: &Style)
    ensures { ReachesServe (document galley.now style.now) }
{
    style.stays_in_range();
    let _ = galley.blocks().as_slice();
    walk_tells_reach(galley, style);
}
