//! The room from which on the end of a candidate is not needed.
ghost use Rattle.std.specs.Prelude.{◌≡◌, ◌<◌, ◌≤◌, ◌^◌, ◌≤ℤ◌, ◌<ℤ◌, IfSome, false, nat_abs, pos, true, ℤ};
ghost use Rattle.pg_breaks.specs.Near.{place_spent};
ghost use Rattle.pg_list.specs.GalleyValue.{GalleyValue};
ghost use Rattle.pg_rules.specs.Legal.{document};
ghost use Rattle.pg_notes.specs.NotesValue.{heights, skips};
ghost use Rattle.pg_style.specs.Values.{StyleValue};
ghost use Rattle.pg_hops.specs.Needs.{AreNeeds};
ghost use Rattle.pg_hops.specs.View.{view};
ghost use Rattle.pg_sums.specs.Step.{badness_by};
ghost use Rattle.law_walk.specs.Best.{IsCheaper};
ghost use Rattle.law_walk.specs.Candidates.{Candidate as ACandidate};
ghost use Rattle.pg_candidates.specs.Nears.{IsHopelessFrom, IsServedFrom, IsWorst, IsWorstGoal, kind_at, most_stretch};
ghost use Rattle.pg_candidates.specs.View.{candidate_of};

use crate::candidate::Candidate;
use crate::kind::EndKind;
use pg_hops::{Needs, raised};
use pg_plan::compare_picks;
use pg_scaled::{plus, wide};
use pg_style::{Give, Style};
use pg_sums::Sums;
use std::cmp::Ordering;

/// The first candidate of a place, the kind of its end, which all ends there share, and a room in which its badness is the
/// worst, if one was found.
#[derive(Clone, Copy)]
pub(crate) struct First {
    pub(crate) at: usize,
    pub(crate) kind: EndKind,
    pub(crate) worst: Option<i64>,
}

// Whether a number is below 2^40 in size.
fn is_small(number: i64) -> bool
    ensures { result ≡ true → nat_abs number < 2 ^ 40 }
{
    number.unsigned_abs() < 1 << 40
}

// More than some stretch fills with a badness below the worst.
fn past(stretch: i64) -> i64
    requires { nat_abs stretch < 2 ^ 40 }
    ensures { nat_abs result < 2 ^ 43 }
{
    if stretch > 0 { 5 * stretch + 1 } else { 1 }
}

// A goal that is likely to be so far above a total that the badness is the worst; none where the numbers are large.
fn far_goal(total: i64, stretch: i64) -> Option<i64>
    ensures { IfSome result (λ goal. nat_abs goal < 2 ^ 52) }
{
    if is_small(total) && is_small(stretch) {
        Some(total + past(stretch))
    } else {
        None
    }
}

// Whether sums are so far below a goal that their badness is the worst, where so much may stretch.
fn is_worst(sums: &Sums, stretch: i64, goal: i64) -> bool
    requires { nat_abs goal < 2 ^ 52 }
    ensures short { result ≡ true → sums.now.totals.total <ℤ goal }
    ensures bad { result ≡ true → badness_by false goal stretch (pos 0) sums.now.totals ≡ 10000 }
{
    sums.total() < goal && sums.page_badness(goal, false, stretch, 0) == 10000
}

// What fills a goal at most: the foot of a ragged style, else the finite stretch, with what the gaps give.
fn greatest_stretch(style: &Style, most: &Give, sums: &Sums, give: &Give) -> i64
    requires most { nat_abs most.now.stretch < 2 ^ 40 }
    requires give { nat_abs give.now.stretch ≤ 2 ^ 34 }
    ensures { result ≡ most_stretch style.now most.now.stretch sums.now.totals give.now }
{
    match style.ragged {
        Some(foot) => wide(foot),
        None => plus(sums.stretch(), plus(most.stretch, give.stretch)),
    }
}

// A goal that sums are so far below that their badness is the worst, if one was found, whatever the gaps of areas give up to
// a most. So it is at each greater goal.
pub(crate) fn worst_goal(style: &Style, most: &Give, sums: &Sums, give: &Give) -> Option<i64>
    requires most { nat_abs most.now.stretch < 2 ^ 40 }
    requires give { nat_abs give.now.stretch ≤ 2 ^ 34 }
    ensures { IfSome result (IsWorstGoal style.now most.now.stretch sums.now.totals give.now) }
{
    let stretch = greatest_stretch(style, most, sums, give);
    let goal = far_goal(sums.total(), stretch)?;
    if is_worst(sums, stretch, goal) {
        Some(goal)
    } else {
        None
    }
}

// The size of a room that leaves what was passed such a goal, if there is one, where its notes take so much. In each greater
// room the badness is the worst too.
pub(crate) fn room_for(notes: i64, goal: Option<i64>) -> Option<i64>
    requires notes { nat_abs notes < 2 ^ 51 }
    requires goal { IfSome goal (λ least. nat_abs least < 2 ^ 52) }
    ensures { (style : StyleValue) (most : ℤ) (c : ACandidate) → notes ≡ pos (heights style.classes c.passed.notes) →
        IfSome goal (IsWorstGoal style most c.passed.totals (skips style.classes c.passed.notes)) →
        IfSome result (IsWorst style most c) }
{
    match goal {
        Some(least) => Some(plus(least, notes)),
        None => None,
    }
}

// The size of a room in which what was passed is so far below its goal that the badness is the worst, if one was found.
fn worst_from(style: &Style, most: &Give, candidate: &Candidate, needs: &Needs) -> Option<i64>
    requires most { nat_abs most.now.stretch < 2 ^ 40 }
    requires needs { AreNeeds style.now (view candidate.now.passed) needs.now }
    ensures { IfSome result (IsWorst style.now most.now.stretch (candidate_of candidate.now)) }
{
    let goal = worst_goal(style, most, &candidate.passed.sums, &needs.give);
    room_for(needs.notes, goal)
}

// Whether the worst badness is no end of this kind: it is neither forced nor spent, and the tolerance is below that.
fn is_refused(style: &Style, kind: EndKind) -> bool
    ensures forced { result ≡ true → kind.is_forced ≡ false }
    ensures spent { result ≡ true → kind.is_spent ≡ false }
    ensures strict { result ≡ true → style.now.tolerance < 10000 }
{
    !kind.is_forced && !kind.is_spent && style.tolerance < 10000
}

// The size of the room from which on no column to the end of a candidate keeps the rules, if one is known: one in which its
// badness is the worst, where that is refused.
pub(crate) fn until_alone(style: &Style, kind: EndKind, worst: Option<i64>) -> Option<i64>
    ensures { (g : GalleyValue) (most : ℤ) (c : ACandidate) → kind ≡ kind_at g.blocks c.to →
        IfSome worst (IsWorst style.now most c) → IfSome result (IsHopelessFrom (document g style.now) most c) }
{
    if is_refused(style, kind) { worst } else { None }
}

// Whether the picks of a candidate cost less than those of another, or the same and are not after them.
fn is_cheaper(one: &Candidate, other: &Candidate) -> bool
    ensures { result ≡ true →
        IsCheaper one.now.pick_demerits one.now.picks.value other.now.pick_demerits
        other.now.picks.value }
{
    if one.pick_demerits < other.pick_demerits {
        return true;
    }
    one.pick_demerits <= other.pick_demerits
        && !matches!(
            compare_picks(
                one.picks.as_ref().as_slice(),
                other.picks.as_ref().as_slice()
            ),
            Ordering::Greater
        )
}

// The greater of two rooms.
fn greater(a: i64, b: i64) -> i64
    ensures first { a ≤ℤ result }
    ensures second { b ≤ℤ result }
{
    if a < b { b } else { a }
}

// The room from which on a candidate, of whose end these are the needs, has the same numbers as another of its place that is
// cheaper and suits too, if one was found, with a room in which the other's badness is the worst.
fn until_cheaper(
    style: &Style,
    most: &Give,
    worst: Option<i64>,
    one: &Candidate,
    other: &Candidate,
    needs: &Needs,
) -> Option<i64>
    requires most { nat_abs most.now.stretch < 2 ^ 40 }
    requires needs { AreNeeds style.now (view other.now.passed) needs.now }
    ensures { (g : GalleyValue) → one.now.to ≡ other.now.to → place_spent g.blocks other.now.to ≡ false →
        IfSome worst (IsWorst style.now most.now.stretch (candidate_of one.now)) →
        IfSome result (IsServedFrom (document g style.now) most.now.stretch (candidate_of one.now)
        (candidate_of other.now)) }
{
    style.stays_in_range();
    let own = worst?;
    if !is_cheaper(one, other) {
        return None;
    }
    let room = greater(own, worst_from(style, most, other, needs)?);
    Some(raised(one.passed.bound, room))
}

// The room from which on the end of a candidate, of which these are the needs, is not needed beside that of another one, the
// first of their place, if one was found: no column to it keeps the rules from there on, or the other serves for it.
pub(crate) fn until_beside(
    style: &Style,
    most: &Give,
    first: First,
    one: &Candidate,
    other: &Candidate,
    needs: &Needs,
) -> Option<i64>
    requires most { nat_abs most.now.stretch < 2 ^ 40 }
    requires needs { AreNeeds style.now (view other.now.passed) needs.now }
    ensures { (g : GalleyValue) → one.now.to ≡ other.now.to → first.kind ≡ kind_at g.blocks other.now.to →
        IfSome first.worst (IsWorst style.now most.now.stretch (candidate_of one.now)) →
        IfSome result (IsServedFrom (document g style.now) most.now.stretch (candidate_of one.now)
        (candidate_of other.now)) }
{
    if first.kind.is_spent {
        return None;
    }
    if is_refused(style, first.kind) {
        return until_alone(style, first.kind, worst_from(style, most, other, needs));
    }
    until_cheaper(style, most, first.worst, one, other, needs)
}
