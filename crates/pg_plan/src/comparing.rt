//! The order among paginations of equal cost.
ghost use Rattle.std.specs.Prelude.{◌≡◌, if◌then◌else◌};
ghost use Rattle.std.specs.Cmp.Lexicographic.{slice_cmp};
ghost use Rattle.pg_plan.specs.Order.{place_cmp, counts_cmp, picks_cmp, column_cmp, plan_cmp};
ghost use Rattle.pg_plan.specs.Backwards.{move_of, moves_left, wide_of};

use crate::backwards::{ColumnsBefore, MoveView, split_last};
use crate::pages::{PageMove, Pagination};
use pg_list::Place;
use std::cmp::Ordering;

/// Compares two places by block, variant and index.
pub fn compare_places(a: &Place, b: &Place) -> Ordering
    ensures { result ≡ place_cmp a.now b.now }
{
    let index = a.index.cmp(&b.index);
    a.block
        .cmp(&b.block)
        .then(a.variant.cmp(&b.variant).then(index))
}

fn compare_counts(a: &[u16], b: &[u16]) -> Ordering
    ensures { result ≡ counts_cmp a.now b.now }
{
    a.cmp(b)
}

fn count_at(count: u16, is_first: bool) -> u16
    ensures { result ≡ (if is_first then count else 0) }
{
    if is_first { count } else { 0 }
}

fn compare_wide(a: &[u16], is_a_first: bool, b: &[u16], is_b_first: bool) -> Ordering
    ensures { result ≡ counts_cmp (wide_of is_a_first a.now) (wide_of is_b_first b.now) }
{
    let mut left = a;
    let mut right = b;
    'counts: while let [count, after @ ..] = left {
        let [other, behind @ ..] = right else {
            return Ordering::Greater;
        };
        match count_at(*count, is_a_first).cmp(&count_at(*other, is_b_first)) {
            Ordering::Equal => {}
            first => return first,
        }
        left = after;
        right = behind;
    }
    if right.is_empty() {
        Ordering::Equal
    } else {
        Ordering::Less
    }
}

/// Compares picks entry by entry from the last; where one list ends first, it is first.
#[tactic(auto, using(crate::proofs::PickLemmas::pick_lemmas))]
pub fn compare_picks(a: &[u32], b: &[u32]) -> Ordering
    ensures { result ≡ picks_cmp a.now b.now }
{
    let mut left = a;
    let mut right = b;
    'picks: while let [before @ .., pick] = left {
        let [front @ .., other] = right else {
            return Ordering::Greater;
        };
        match pick.cmp(other) {
            Ordering::Equal => {}
            first => return first,
        }
        left = before;
        right = front;
    }
    if right.is_empty() {
        Ordering::Equal
    } else {
        Ordering::Less
    }
}

fn compare_seats(a: &MoveView<'_>, b: &MoveView<'_>) -> Ordering
    ensures { result ≡ column_cmp (move_of a.now) (move_of b.now) }
{
    let to = compare_places(&a.column.to, &b.column.to);
    let from = compare_places(&a.column.from, &b.column.from);
    let run = a.run.cmp(&b.run);
    let wide = compare_wide(a.wide, a.is_first, b.wide, b.is_first);
    let bottom = compare_counts(a.column.bottom.as_slice(), b.column.bottom.as_slice());
    let top = compare_counts(a.column.top.as_slice(), b.column.top.as_slice());
    let picks = compare_picks(a.column.picks.as_slice(), b.column.picks.as_slice());
    to.then(from.then(run.then(wide.then(bottom.then(top.then(picks))))))
}

/// The order among columns: by `to`, `from`, run, wide counts, bottom counts, top counts and picks,
/// these from the last. No memory is taken.
pub fn compare_moves(a: &PageMove, b: &PageMove) -> Ordering
    ensures { result ≡ column_cmp a.now b.now }
{
    compare_seats(&MoveView::of(a), &MoveView::of(b))
}

/// The order among paginations of equal cost: the first difference of two columns decides, from the
/// last column on. Where the columns of one end first, it is first. No memory is taken.
pub fn compare(a: &Pagination, b: &Pagination) -> Ordering
    ensures { result ≡ plan_cmp a.now b.now }
{
    let mut left = ColumnsBefore::of(a);
    let mut right = ColumnsBefore::of(b);
    'columns: while let Some((column, before)) = split_last(&left) {
        let Some((other, front)) = split_last(&right) else {
            return Ordering::Greater;
        };
        match compare_seats(&column, &other) {
            Ordering::Equal => {}
            first => return first,
        }
        left = before;
        right = front;
    }
    match split_last(&right) {
        None => Ordering::Equal,
        Some(_) => Ordering::Less,
    }
}
