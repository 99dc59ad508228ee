//! The label that stands furthest.
ghost use Rattle.std.specs.Prelude.{◌≡◌, ◌<◌, ◌+◌, Some, length, slice_get};
ghost use Rattle.pg_furthest.specs.Furthest.{IsLastAmong, is_before as stands_before};
ghost use Rattle.pg_plan.specs.declared.pages.PageMove.{PageMove as AMove};
ghost use Rattle.pg_plan.specs.declared.states.State.{State as AState};
ghost use Rattle.pg_table.specs.declared.table.Entry.{Entry as AnEntry};

use pg_list::Place;
use pg_plan::compare_places;
use pg_small::{SmallMove, SmallState};
use pg_table::Entry;
use std::cmp::Ordering;

// Where a label stands.
fn place_of(label: &Entry<SmallState, SmallMove>) -> Place
    ensures { result ≡ label.now.state.place }
{
    label.state.place()
}

// Whether the first of two labels stands before the second.
fn is_before(labels: &[Entry<SmallState, SmallMove>], one: usize, other: usize) -> bool
    requires one { one < length labels.now }
    requires other { other < length labels.now }
    ensures { (a b : AnEntry AState AMove) → slice_get labels.now one ≡ Some a → slice_get labels.now other ≡ Some b →
        result ≡ stands_before a b }
{
    let a = &labels[one];
    let b = &labels[other];
    compare_places(&place_of(a), &place_of(b)) == Ordering::Less
}

// The later of two labels, where none in front of the second stands behind the first.
fn later(labels: &[Entry<SmallState, SmallMove>], best: usize, next: usize) -> usize
    requires best { best < length labels.now }
    requires next { next < length labels.now }
    requires last { IsLastAmong labels.now next best }
    ensures within { result < length labels.now }
    ensures last { IsLastAmong labels.now (next + 1) result }
{
    if is_before(labels, best, next) {
        next
    } else {
        best
    }
}

/// A label behind which none stands.
pub fn last_of(labels: &[Entry<SmallState, SmallMove>]) -> usize
    requires { 0 < length labels.now }
    ensures within { result < length labels.now }
    ensures last { IsLastAmong labels.now (length labels.now) result }
{
    let mut best = 0;
    let mut index = 1;
    'labels: while index < labels.len() {
        best = later(labels, best, index);
        index += 1;
    }
    best
}
