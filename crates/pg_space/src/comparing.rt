//! The order of states: by their fields.
ghost use Rattle.std.specs.Prelude.{◌≡◌};
ghost use Rattle.std.specs.Ordering.{int_cmp, nat_cmp, ordering_then};
ghost use Rattle.pg_plan.specs.Order.{counts_cmp, place_cmp};
ghost use Rattle.pg_rules.specs.Frontier.{option_cmp, side_rank, state_cmp};

use pg_plan::{Side, compare_places};
use pg_small::SmallState;
use std::cmp::Ordering;

// The place of a side: left before right before single.
fn rank_of(side: Side) -> u8
    ensures { result ≡ side_rank side }
{
    match side {
        Side::L => 0,
        Side::R => 1,
        Side::S => 2,
    }
}

// Compares two sides.
fn compare_sides(a: Side, b: Side) -> Ordering
    ensures { result ≡ nat_cmp (side_rank a) (side_rank b) }
{
    rank_of(a).cmp(&rank_of(b))
}

// Compares two numbers, of which an absent one is first: runs, or fitnesses.
fn compare_numbers(a: Option<u8>, b: Option<u8>) -> Ordering
    ensures { result ≡ option_cmp nat_cmp a b }
{
    a.cmp(&b)
}

// Compares two heights of wide areas, of which an absent one is first.
fn compare_heights(a: Option<i64>, b: Option<i64>) -> Ordering
    ensures { result ≡ option_cmp int_cmp a b }
{
    a.cmp(&b)
}

// Compares counts by class, entry by entry from the first.
fn compare_counts(a: &[u16], b: &[u16]) -> Ordering
    ensures { result ≡ counts_cmp a.now b.now }
{
    a.cmp(b)
}

// Compares ages, entry by entry from the first.
fn compare_ages(a: &[u8], b: &[u8]) -> Ordering
    ensures { result ≡ counts_cmp a.now b.now }
{
    a.cmp(b)
}

// Compares two states of one place by their other fields.
fn compare_at_place(a: &SmallState, b: &SmallState) -> Ordering
    ensures { ordering_then (place_cmp a.now.place b.now.place) result ≡ state_cmp a.now b.now }
{
    let column = a.column().cmp(&b.column());
    let side = compare_sides(a.side(), b.side());
    let run = compare_numbers(a.run(), b.run());
    let wide = compare_heights(a.wide(), b.wide());
    let fitness = compare_numbers(a.fitness(), b.fitness());
    let placed = compare_counts(a.placed(), b.placed());
    let ages = compare_ages(a.ages(), b.ages());
    column.then(side.then(run.then(wide.then(fitness.then(placed.then(ages))))))
}

/// The order of states: by place, column, side, run, height of the wide area, fitness, counts of the floats placed and
/// ages of those that wait. No memory is taken.
pub fn compare_states(a: &SmallState, b: &SmallState) -> Ordering
    ensures { result ≡ state_cmp a.now b.now }
{
    match compare_places(&a.place(), &b.place()) {
        Ordering::Equal => compare_at_place(a, b),
        first => first,
    }
}
