//! The best of the ends, for each place and fitness.
ghost use Rattle.std.specs.Prelude.{◌≡◌, ◌≤◌, ◌+ℤ◌, OnOk, MatchOption, [], length, map, slice_get, true, false};
ghost use Rattle.std.specs.Option.{option_map};
ghost use Rattle.std.specs.Ordering.{nat_cmp, ordering_then};
ghost use Rattle.std.specs.List.{AllWithin, insert};
ghost use Rattle.std.specs.List.Sorted.{IsPartitionPoint, IsPartitionedBy};
ghost use Rattle.std.specs.Rc.{rc_value};
ghost use Rattle.pg_plan.specs.Order.{picks_cmp, place_cmp};
ghost use Rattle.law_walk.specs.Best.{Ascend, insert_end, is_better as is_better_of};
ghost use Rattle.pg_candidates.specs.RoomEnds.{end_of, ends_of, picks_at};
ghost use Rattle.pg_candidates.specs.Spots.{is_before as is_before_of, spot_in};
ghost use Rattle.pg_candidates.specs.declared.room_end.RoomEnd.{RoomEnd as ARoomEnd};

use crate::room_end::{RoomEnd, picks_of};
use pg_column::TextCost;
use pg_list::Place;
use pg_plan::{Picks, compare_picks};
use std::alloc::AllocError;
use std::cmp::Ordering;
use std::rc::Rc;

// Where an end goes among others: in front of the next, in its place, or nowhere, since it is no better.
#[derive(Clone, Copy)]
enum Spot {
    Before,
    Instead,
    Nowhere,
}

// Compares two ends by their places, and at one place by their fitness. The first number in which they differ decides, and
// no later one is looked at.
#[inline]
fn compare_ends(a: &Place, fitness: u8, b: &Place, other: u8) -> Ordering
    ensures { result ≡ ordering_then (place_cmp a.now b.now) (nat_cmp fitness other) }
{
    if a.block != b.block {
        return a.block.cmp(&b.block);
    }
    if a.variant != b.variant {
        return a.variant.cmp(&b.variant);
    }
    if a.index != b.index {
        return a.index.cmp(&b.index);
    }
    fitness.cmp(&other)
}

// Whether an end stands before another.
#[inline]
fn is_before(one: &RoomEnd, other: &RoomEnd) -> bool
    ensures { result ≡ is_before_of one.now other.now }
{
    matches!(
        compare_ends(&one.to, one.cost.fitness, &other.to, other.cost.fitness),
        Ordering::Less
    )
}

// The demerits of a text and of the variants picked.
fn price(cost: &TextCost, pick_demerits: i64) -> i128
    ensures { result ≡ cost.now.demerits +ℤ pick_demerits }
{
    i128::from(cost.demerits) + i128::from(pick_demerits)
}

// The picks with this number, and none where there are none.
fn listed_picks(listed: &[Rc<Picks>], at: usize) -> &[u32]
    ensures { result.now ≡ picks_at (map rc_value listed.now) at }
{
    match picks_of(listed, at) {
        Some(picks) => picks.as_slice(),
        None => &[],
    }
}

// Compares the picks with these numbers. Few ends are so alike that they are looked at.
#[inline(never)]
fn compare_listed(listed: &[Rc<Picks>], one: usize, other: usize) -> Ordering
    ensures { result ≡ picks_cmp (picks_at (map rc_value listed.now) one)
        (picks_at (map rc_value listed.now) other) }
{
    compare_picks(listed_picks(listed, one), listed_picks(listed, other))
}

// Whether an end costs less than another, or the same with picks that are not after.
fn is_better(listed: &[Rc<Picks>], one: &RoomEnd, other: &RoomEnd) -> bool
    ensures { result ≡ is_better_of (end_of (map rc_value listed.now) one.now)
        (end_of (map rc_value listed.now) other.now) }
{
    let own = price(&one.cost, one.pick_demerits);
    let its = price(&other.cost, other.pick_demerits);
    if own < its {
        return true;
    }
    own <= its && !matches!(compare_listed(listed, one.at, other.at), Ordering::Greater)
}

// How many of the ends stand before one more, by a look from the last one back. Ends come in the order of their places, so
// that few ends at the end of the list do not; in another order this would take longer and find the same.
#[inline]
fn count_before(ends: &[RoomEnd], end: &RoomEnd) -> usize
    ensures point { IsPartitionedBy (λ (other : ARoomEnd). is_before_of other end.now) ends.now →
        IsPartitionPoint (λ (other : ARoomEnd). is_before_of other end.now ≡ true)
        (λ (other : ARoomEnd). is_before_of other end.now ≡ false) ends.now result }
    ensures within { result ≤ length ends.now }
{
    let mut at = ends.len();
    'back: while at > 0 && !is_before(&ends[at - 1], end) {
        at -= 1;
    }
    at
}

// Where an end goes at this index.
fn spot_at(listed: &[Rc<Picks>], ends: &[RoomEnd], at: usize, end: &RoomEnd) -> Spot
    ensures { result ≡ spot_in
        (option_map (end_of (map rc_value listed.now)) (slice_get ends.now at))
        (end_of (map rc_value listed.now) end.now) }
{
    let Some(other) = ends.get(at) else {
        return Spot::Before;
    };
    match compare_ends(&end.to, end.cost.fitness, &other.to, other.cost.fitness) {
        Ordering::Equal => {
            if is_better(listed, end, other) {
                Spot::Instead
            } else {
                Spot::Nowhere
            }
        }
        _ => Spot::Before,
    }
}

// Puts an end in behind so many others. Most are put in behind all.
fn put_behind(ends: &mut Vec<RoomEnd>, at: usize, end: RoomEnd) -> Result<(), AllocError>
    requires { at ≤ length ends.old.items }
    ensures { OnOk result (ends.new.items ≡ insert ends.old.items at end) }
{
    if at == ends.len() {
        ends.push(end)?;
    } else {
        ends.insert(at, end)?;
    }
    Ok(())
}

// Puts an end in behind so many others that are in order, where it belongs, or nowhere where it is no better.
fn put_in(
    listed: &[Rc<Picks>],
    ends: &mut Vec<RoomEnd>,
    at: usize,
    end: RoomEnd,
) -> Result<(), AllocError>
    requires within { at ≤ length ends.old.items }
    requires point { IsPartitionedBy (λ (other : ARoomEnd). is_before_of other end) ends.old.items →
        IsPartitionPoint (λ (other : ARoomEnd). is_before_of other end ≡ true)
        (λ (other : ARoomEnd). is_before_of other end ≡ false) ends.old.items at }
    ensures { OnOk result (Ascend (ends_of (map rc_value listed.now) ends.old.items) →
        ends_of (map rc_value listed.now) ends.new.items
        ≡ insert_end (end_of (map rc_value listed.now) end)
        (ends_of (map rc_value listed.now) ends.old.items)) }
{
    match spot_at(listed, ends.as_slice(), at, &end) {
        Spot::Before => put_behind(ends, at, end)?,
        Spot::Instead => ends[at] = end,
        Spot::Nowhere => {}
    }
    Ok(())
}

// Whether an end stands behind the last of the ends, or there is none.
#[inline]
fn is_behind_all(ends: &[RoomEnd], end: &RoomEnd) -> bool
    ensures { result ≡ true → IsPartitionedBy (λ (other : ARoomEnd). is_before_of other end.now) ends.now →
        AllWithin (λ (other : ARoomEnd). is_before_of other end.now ≡ true) ends.now 0 (length ends.now) }
{
    let count = ends.len();
    if count == 0 {
        return true;
    }
    is_before(&ends[count - 1], end)
}

// Adds an end to those that are in order, wherever it stands among them. Few ends come this way.
#[inline(never)]
fn keep_among(listed: &[Rc<Picks>], ends: &mut Vec<RoomEnd>, end: RoomEnd) -> Result<(), AllocError>
    ensures { OnOk result (Ascend (ends_of (map rc_value listed.now) ends.old.items) →
        ends_of (map rc_value listed.now) ends.new.items
        ≡ insert_end (end_of (map rc_value listed.now) end)
        (ends_of (map rc_value listed.now) ends.old.items)) }
{
    let at = count_before(ends.as_slice(), &end);
    put_in(listed, ends, at, end)
}

/// Adds an end to those that are in order, one for each place and fitness; the better one stays. Nearly all ends come in the
/// order of their places: one that stands behind the last is compared with no other, and put behind it without a call.
#[inline(always)]
pub(crate) fn keep_best(
    listed: &[Rc<Picks>],
    ends: &mut Vec<RoomEnd>,
    end: RoomEnd,
) -> Result<(), AllocError>
    ensures { OnOk result (Ascend (ends_of (map rc_value listed.now) ends.old.items) →
        ends_of (map rc_value listed.now) ends.new.items
        ≡ insert_end (end_of (map rc_value listed.now) end)
        (ends_of (map rc_value listed.now) ends.old.items)) }
{
    if is_behind_all(ends.as_slice(), &end) {
        ends.push(end)?;
        return Ok(());
    }
    keep_among(listed, ends, end)
}
