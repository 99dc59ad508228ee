//! What no room changes, worked out candidate by candidate: also the numbers, but for the goal, of an end that is far too
//! short.
ghost use Rattle.std.specs.Prelude.{◌≡◌, ◌+◌, ◌++◌, ◌∷◌, ◌<◌, ◌≤◌, ◌^◌, [], IfOk, IfSome, List, OnOk, Some, length, map, nat_abs, slice_get, true, ℕ, ℤ};
ghost use Rattle.pg_list.specs.GalleyValue.{GalleyValue};
ghost use Rattle.pg_style.specs.Values.{StyleValue};
ghost use Rattle.pg_hops.specs.Needs.{AreNeeds};
ghost use Rattle.pg_hops.specs.View.{view};
ghost use Rattle.pg_rules.specs.Legal.{document};
ghost use Rattle.law_walk.specs.Candidates.{Candidate as ACandidate};
ghost use Rattle.pg_candidates.specs.Nears.{IsHopelessFrom, IsNear, IsServedFrom, IsWellKept, IsWorst, IsWorstCost, IsWorstGoal, kind_at as kind_at_of};
ghost use Rattle.pg_candidates.specs.Seen.{AreSeen, AreServed, AreServedBefore};
ghost use Rattle.pg_candidates.specs.View.{candidate_of, end_of};

use crate::candidate::Candidate;
use crate::kind::{EndKind, kind_at};
use crate::near::Near;
use crate::order::{Ranked, are_rising, in_order};
use crate::taking::WalkEnd;
use crate::until::{First, room_for, until_alone, until_beside, worst_goal};
use pg_column::{TextCost, cost_for};
use pg_hops::Needs;
use pg_list::{Galley, Place};
use pg_scaled::plus;
use pg_style::{Give, Style};
use pg_sums::Sums;
use std::alloc::{AllocError, Global};

// Whether a candidate's end is at a place.
fn is_at(candidate: &Candidate, place: Place) -> bool
    ensures { result ≡ true → candidate.now.to ≡ place }
{
    candidate.to == place
}

// The first candidate of the last place, where it is this one.
fn first_beside(candidates: &[Candidate], first: Option<First>, to: Place) -> Option<First>
    ensures is { IfSome result (λ it. first ≡ Some it) }
    ensures place { IfSome result (λ it. (one : ACandidate) →
        slice_get (map candidate_of candidates.now) it.at ≡ Some one → one.to ≡ to) }
{
    let it = first?;
    if is_at(candidates.get(it.at)?, to) {
        Some(it)
    } else {
        None
    }
}

// What no room changes of a candidate with the number `at` and these needs, whose end is of this kind, not needed from a room
// on, and has these numbers at a goal at which its badness is the worst.
fn near_of(
    at: usize,
    kind: EndKind,
    until: Option<i64>,
    worst: Option<TextCost>,
    end: &WalkEnd,
    needs: &Needs,
) -> Near
    requires { IsWellKept needs.now.notes needs.now.give }
    ensures at { result.at ≡ at }
    ensures near { (g : GalleyValue) (style : StyleValue) (most : ℤ) → kind ≡ kind_at_of g.blocks end.now.to →
        AreNeeds style (view end.now.passed.now) needs.now →
        IfSome worst (IsWorstCost style most kind end.now.passed.now.sums.totals needs.now.give) →
        IsNear (document g style) most (end_of end.now) result }
    ensures until { result.until ≡ until }
{
    Near {
        at,
        to: end.to,
        sums: end.passed.sums,
        notes: needs.notes,
        give: needs.give,
        pick_demerits: end.demerits,
        kind,
        until,
        least: needs.bound,
        worst,
    }
}

// The numbers of an end of this kind at a goal at which its badness is the worst, if one was found; none where it is spent.
fn worst_cost(
    style: &Style,
    most: &Give,
    kind: EndKind,
    goal: Option<i64>,
    sums: &Sums,
    give: &Give,
) -> Option<TextCost>
    requires goal { IfSome goal (IsWorstGoal style.now most.now.stretch sums.now.totals give.now) }
    requires most { nat_abs most.now.stretch < 2 ^ 40 }
    requires give { nat_abs give.now.stretch ≤ 2 ^ 34 }
    ensures { IfSome result (IsWorstCost style.now most.now.stretch kind sums.now.totals give.now) }
{
    if kind.is_spent {
        return None;
    }
    let beside = Give {
        stretch: plus(most.stretch, give.stretch),
        shrink: 0,
    };
    match goal {
        Some(least) => Some(cost_for(style, least, &beside, sums, false, kind.penalty)),
        None => None,
    }
}

// Of a candidate that is the first of its place, with a goal at which its badness is the worst, if one was found. Where its end
// is not needed from there on, no numbers are worked out for that.
#[inline(always)]
pub(crate) fn near_first(
    style: &Style,
    most: &Give,
    first: First,
    goal: Option<i64>,
    end: &WalkEnd,
    needs: &Needs,
) -> Near
    requires goal { IfSome goal (IsWorstGoal style.now most.now.stretch end.now.passed.now.sums.totals needs.now.give) }
    requires needs { AreNeeds style.now (view end.now.passed.now) needs.now }
    requires most { nat_abs most.now.stretch < 2 ^ 40 }
    ensures at { result.at ≡ first.at }
    ensures near { (g : GalleyValue) → first.kind ≡ kind_at_of g.blocks end.now.to →
        IsNear (document g style.now) most.now.stretch (end_of end.now) result }
    ensures until { (g : GalleyValue) → first.kind ≡ kind_at_of g.blocks end.now.to →
        IfSome first.worst (IsWorst style.now most.now.stretch (end_of end.now)) →
        IfSome result.until (IsHopelessFrom (document g style.now) most.now.stretch (end_of end.now)) }
{
    let until = until_alone(style, first.kind, first.worst);
    let worst = if until.is_some() {
        None
    } else {
        worst_cost(style, most, first.kind, goal, &end.passed.sums, &needs.give)
    };
    near_of(first.at, first.kind, until, worst, end, needs)
}

// The room from which on the end of a candidate, of which these are the needs, is not needed beside the first one of its place,
// if one was found.
fn until_behind(
    style: &Style,
    most: &Give,
    candidates: &[Candidate],
    first: First,
    candidate: &Candidate,
    needs: &Needs,
) -> Option<i64>
    requires most { nat_abs most.now.stretch < 2 ^ 40 }
    requires needs { AreNeeds style.now (view candidate.now.passed) needs.now }
    ensures { (g : GalleyValue) (one : ACandidate) → slice_get (map candidate_of candidates.now) first.at ≡ Some one →
        one.to ≡ candidate.now.to → first.kind ≡ kind_at_of g.blocks candidate.now.to →
        IfSome first.worst (IsWorst style.now most.now.stretch one) →
        IfSome result (IsServedFrom (document g style.now) most.now.stretch one (candidate_of candidate.now)) }
{
    let one = candidates.get(first.at)?;
    until_beside(style, most, first, one, candidate, needs)
}

// Of a candidate behind the first one of its place. Few rooms ask for it where its badness is the worst, so that no numbers
// are worked out for that.
fn near_behind(
    style: &Style,
    most: &Give,
    candidates: &[Candidate],
    first: First,
    at: usize,
    candidate: &Candidate,
) -> Near
    requires { nat_abs most.now.stretch < 2 ^ 40 }
    ensures at { result.at ≡ at }
    ensures near { (g : GalleyValue) → first.kind ≡ kind_at_of g.blocks candidate.now.to →
        IsNear (document g style.now) most.now.stretch (candidate_of candidate.now) result }
    ensures until { (g : GalleyValue) (one : ACandidate) →
        slice_get (map candidate_of candidates.now) first.at ≡ Some one →
        one.to ≡ candidate.now.to → first.kind ≡ kind_at_of g.blocks candidate.now.to →
        IfSome first.worst (IsWorst style.now most.now.stretch one) →
        IfSome result.until (IsServedFrom (document g style.now) most.now.stretch one (candidate_of candidate.now)) }
{
    let needs = Needs::of(style, &candidate.passed);
    let until = until_behind(style, most, candidates, first, candidate, &needs);
    near_of(at, first.kind, until, None, &candidate.as_end(), &needs)
}

// Whether more than one room may be asked for at a place: the runs, or floats, make rooms of their own.
fn rooms_vary(style: &Style) -> bool {
    style.runs.as_slice().len() > 1 || !style.classes.as_slice().is_empty()
}

// A goal at which the badness of a candidate is the worst, if one is asked for and was found. Where there is one room, nothing
// else is asked of it.
pub(crate) fn goal_for(style: &Style, most: &Give, sums: &Sums, give: &Give) -> Option<i64>
    requires most { nat_abs most.now.stretch < 2 ^ 40 }
    requires give { nat_abs give.now.stretch ≤ 2 ^ 34 }
    ensures { IfSome result (IsWorstGoal style.now most.now.stretch sums.now.totals give.now) }
{
    if rooms_vary(style) {
        worst_goal(style, most, sums, give)
    } else {
        None
    }
}

// The kind of an end. A call takes less here than to find it on the spot.
#[inline(never)]
fn kind_of(galley: &Galley, end: &WalkEnd) -> EndKind
    ensures { result ≡ kind_at_of galley.now.blocks end.now.to }
{
    kind_at(galley, end.to)
}

// The first candidate of its place, to an end with these needs, with a goal at which its badness is the worst, if one was
// found.
#[inline(always)]
pub(crate) fn first_with(
    galley: &Galley,
    at: usize,
    goal: Option<i64>,
    end: &WalkEnd,
    needs: &Needs,
) -> First
    requires goal { IfSome goal (λ least. nat_abs least < 2 ^ 52) }
    requires notes { nat_abs needs.now.notes < 2 ^ 51 }
    ensures at { result.at ≡ at }
    ensures kind { result.kind ≡ kind_at_of galley.now.blocks end.now.to }
    ensures worst { (style : StyleValue) (most : ℤ) → AreNeeds style (view end.now.passed.now) needs.now →
        IfSome goal (IsWorstGoal style most end.now.passed.now.sums.totals needs.now.give) →
        IfSome result.worst (IsWorst style most (end_of end.now)) }
{
    First {
        at,
        kind: kind_of(galley, end),
        worst: room_for(needs.notes, goal),
    }
}

// The first candidate of its place and what no room changes of it.
fn first_of(
    galley: &Galley,
    style: &Style,
    most: &Give,
    at: usize,
    candidate: &Candidate,
) -> (First, Near)
    requires { nat_abs most.now.stretch < 2 ^ 40 }
    ensures first { result.0.at ≡ at }
    ensures kind { result.0.kind ≡ kind_at_of galley.now.blocks candidate.now.to }
    ensures worst { IfSome result.0.worst (IsWorst style.now most.now.stretch (candidate_of candidate.now)) }
    ensures at { result.1.at ≡ at }
    ensures near { IsNear (document galley.now style.now) most.now.stretch (candidate_of candidate.now) result.1 }
    ensures until { IfSome result.1.until (IsHopelessFrom (document galley.now style.now) most.now.stretch
        (candidate_of candidate.now)) }
{
    let needs = Needs::of(style, &candidate.passed);
    let end = candidate.as_end();
    let goal = goal_for(style, most, &end.passed.sums, &needs.give);
    let first = first_with(galley, at, goal, &end, &needs);
    let near = near_first(style, most, first, goal, &end, &needs);
    (first, near)
}

// What no room changes of the candidates so far, and the first one of the last place.
#[derive(Drop)]
struct Made {
    nears: Vec<Near>,
    first: Option<First>,
}

// Adds what no room changes of the candidate with this number.
fn add_near(
    galley: &Galley,
    style: &Style,
    most: &Give,
    candidates: &[Candidate],
    at: usize,
    made: &mut Made,
) -> Result<(), AllocError>
    requires { nat_abs most.now.stretch < 2 ^ 40 }
    ensures { OnOk result ((seen : List ℕ) →
        AreSeen (document galley.now style.now) most.now.stretch (map candidate_of candidates.now) seen made.old.first
        made.old.nears.items →
        AreSeen (document galley.now style.now) most.now.stretch (map candidate_of candidates.now)
        (seen ++ at ∷ []) made.new.first made.new.nears.items) }
{
    let Some(candidate) = candidates.get(at) else {
        return Ok(());
    };
    if let Some(same) = first_beside(candidates, made.first, candidate.to) {
        made.nears
            .push(near_behind(style, most, candidates, same, at, candidate))?;
        return Ok(());
    }
    let (own, near) = first_of(galley, style, most, at, candidate);
    made.nears.push(near)?;
    made.first = Some(own);
    Ok(())
}

// What no room changes of the candidates in this order, in which those of one place follow one another.
fn nears_in(
    alloc: Global,
    galley: &Galley,
    style: &Style,
    most: &Give,
    candidates: &[Candidate],
    order: &[Ranked],
) -> Result<Vec<Near>, AllocError>
    requires { nat_abs most.now.stretch < 2 ^ 40 }
    ensures { IfOk result (λ nears. AreServed (document galley.now style.now) most.now.stretch
        (map candidate_of candidates.now) (map (λ it. it.at) order.now) nears.items) }
{
    let mut made = Made {
        nears: Vec::with_capacity(alloc, order.len())?,
        first: None,
    };
    'each: for it in order {
        add_near(galley, style, most, candidates, it.at, &mut made)?;
    }
    Ok(made.nears)
}

// Adds what no room changes of the candidate at an index, the only one of its place.
#[inline]
fn add_alone(
    galley: &Galley,
    style: &Style,
    most: &Give,
    candidates: &[Candidate],
    at: usize,
    nears: &mut Vec<Near>,
) -> Result<(), AllocError>
    requires { nat_abs most.now.stretch < 2 ^ 40 }
    ensures { OnOk result (
        AreServedBefore (document galley.now style.now) most.now.stretch (map candidate_of candidates.now) at
        nears.old.items →
        AreServedBefore (document galley.now style.now) most.now.stretch (map candidate_of candidates.now) (at + 1)
        nears.new.items) }
{
    let Some(candidate) = candidates.get(at) else {
        return Ok(());
    };
    let (_, near) = first_of(galley, style, most, at, candidate);
    nears.push(near)?;
    Ok(())
}

// What no room changes of the candidates as they stand, each the only one of its place.
fn nears_alone(
    alloc: Global,
    galley: &Galley,
    style: &Style,
    most: &Give,
    candidates: &[Candidate],
) -> Result<Vec<Near>, AllocError>
    requires { nat_abs most.now.stretch < 2 ^ 40 }
    ensures { IfOk result (λ nears. AreServedBefore (document galley.now style.now) most.now.stretch
        (map candidate_of candidates.now) (length candidates.now) nears.items) }
{
    let count = candidates.len();
    let mut nears = Vec::with_capacity(alloc, count)?;
    for at in 0..count {
        add_alone(galley, style, most, candidates, at, &mut nears)?;
    }
    Ok(nears)
}

// What no room changes of the candidates, in an order in which their ends may stand.
pub(crate) fn nears_of(
    alloc: Global,
    galley: &Galley,
    style: &Style,
    most: &Give,
    candidates: &[Candidate],
) -> Result<Vec<Near>, AllocError>
    requires { nat_abs most.now.stretch < 2 ^ 40 }
    ensures { IfOk result (λ nears. AreServedBefore (document galley.now style.now) most.now.stretch
        (map candidate_of candidates.now) (length candidates.now) nears.items) }
{
    if are_rising(candidates) {
        return nears_alone(alloc, galley, style, most, candidates);
    }
    let order = in_order(alloc, candidates)?;
    nears_in(alloc, galley, style, most, candidates, order.as_slice())
}
