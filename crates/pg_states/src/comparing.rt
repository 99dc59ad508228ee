//! When a state is no worse than another one.
ghost use Rattle.std.specs.Prelude.{◌≡◌, ◌==◌, ◌&&◌, nat_le, IfOk};
ghost use Rattle.pg_list.specs.Flat.{is_same_place as is_same_place_of};
ghost use Rattle.pg_rules.specs.NoWorse.{are_no_older as are_no_older_of, are_same_counts as are_same_counts_of, is_no_worse, is_same_key as is_same_key_of, is_same_number as is_same_number_of, is_same_side as is_same_side_of, is_same_whole as is_same_whole_of, key};
ghost use Rattle.pg_states.specs.Marks.{is_no_worse_line as is_no_worse_line_of};

use pg_list::Place;
use pg_plan::{PageKey, Side};
use pg_small::SmallState;
use std::alloc::{AllocError, Global};

/// A state but for its ages.
pub fn key_of(alloc: Global, state: &SmallState) -> Result<PageKey, AllocError>
    ensures { IfOk result (λ it. it ≡ key state.now) }
{
    state.key(alloc)
}

pub(crate) fn is_same_place(a: Place, b: Place) -> bool
    ensures { result ≡ is_same_place_of a b }
{
    a.block == b.block && a.variant == b.variant && a.index == b.index
}

fn is_same_side(a: Side, b: Side) -> bool
    ensures { result ≡ is_same_side_of a b }
{
    a == b
}

pub(crate) fn is_same_number(a: Option<u8>, b: Option<u8>) -> bool
    ensures { result ≡ is_same_number_of a b }
{
    a == b
}

fn is_same_height(a: Option<i64>, b: Option<i64>) -> bool
    ensures { result ≡ is_same_whole_of a b }
{
    a == b
}

#[cold]
#[inline(never)]
fn are_same_counts(a: &[u16], b: &[u16]) -> bool
    ensures { result ≡ are_same_counts_of a.now b.now }
{
    let mut left = a;
    let mut right = b;
    'counts: while let [count, after @ ..] = left {
        let [other, behind @ ..] = right else {
            return false;
        };
        if count != other {
            return false;
        }
        left = after;
        right = behind;
    }
    right.is_empty()
}

fn is_no_older(age: u8, other: u8) -> bool
    ensures { result ≡ nat_le age other }
{
    age <= other
}

// Whether there are as many ages, none greater than the other at its place.
#[cold]
#[inline(never)]
fn are_no_older(a: &[u8], b: &[u8]) -> bool
    ensures { result ≡ are_no_older_of a.now b.now }
{
    let mut left = a;
    let mut right = b;
    'ages: while let [age, after @ ..] = left {
        let [other, behind @ ..] = right else {
            return false;
        };
        if !is_no_older(*age, *other) {
            return false;
        }
        left = after;
        right = behind;
    }
    right.is_empty()
}

// Whether the counts of placed floats are the same. Most often few bytes tell.
fn has_same_placed(a: &SmallState, b: &SmallState) -> bool
    ensures { result ≡ are_same_counts_of a.now.placed b.now.placed }
{
    if a.has_surely_same_placed(b) {
        return true;
    }
    are_same_counts(a.placed(), b.placed())
}

// Whether there are as many ages, none greater than the other at its place. Most often few bytes tell.
fn has_no_older(a: &SmallState, b: &SmallState) -> bool
    ensures { result ≡ are_no_older_of a.now.ages b.now.ages }
{
    if a.has_surely_no_older(b) {
        return true;
    }
    are_no_older(a.ages(), b.ages())
}

// Whether the fitness and the counts of placed floats are the same.
fn is_same_past(a: &SmallState, b: &SmallState) -> bool
    ensures { result ≡ (is_same_number_of a.now.fitness b.now.fitness && are_same_counts_of a.now.placed b.now.placed) }
{
    is_same_number(a.fitness(), b.fitness()) && has_same_placed(a, b)
}

// Whether the run and the wide area of the page are the same.
fn is_same_page(a: &SmallState, b: &SmallState) -> bool
    ensures { result ≡ (is_same_number_of a.now.run b.now.run && is_same_whole_of a.now.wide b.now.wide) }
{
    is_same_number(a.run(), b.run()) && is_same_height(a.wide(), b.wide())
}

// Whether the place, the column and the side are the same.
fn is_same_spot(a: &SmallState, b: &SmallState) -> bool
    ensures { result ≡ (is_same_place_of a.now.place b.now.place
        && ((a.now.column == b.now.column) && is_same_side_of a.now.side b.now.side)) }
{
    is_same_place(a.place(), b.place())
        && (a.column() == b.column() && is_same_side(a.side(), b.side()))
}

// Whether two states are equal but for their ages.
fn is_same_key(a: &SmallState, b: &SmallState) -> bool
    ensures { result ≡ is_same_key_of (key a.now) (key b.now) }
{
    is_same_spot(a, b) && (is_same_page(a, b) && is_same_past(a, b))
}

// Whether the column and the side are the same.
fn is_same_column(a: &SmallState, b: &SmallState) -> bool
    ensures { result ≡ ((a.now.column == b.now.column) && is_same_side_of a.now.side b.now.side) }
{
    a.column() == b.column() && is_same_side(a.side(), b.side())
}

// Whether the counts of placed floats are the same, and no age of the first is greater.
fn is_no_worse_past(a: &SmallState, b: &SmallState) -> bool
    ensures { result ≡ (are_same_counts_of a.now.placed b.now.placed && are_no_older_of a.now.ages b.now.ages) }
{
    has_same_placed(a, b) && has_no_older(a, b)
}

// Whether states are equal but for place, fitness and ages, and no age of the first is greater.
#[cold]
#[inline(never)]
fn is_no_worse_part(a: &SmallState, b: &SmallState) -> bool
    ensures { result ≡ is_no_worse_line_of a.now b.now }
{
    is_same_column(a, b) && (is_same_page(a, b) && is_no_worse_past(a, b))
}

/// Whether states are equal but for place, fitness and ages, and no age of the first is greater. Most that are compared are the
/// same but for place and fitness, which few bytes tell. No memory is taken.
#[inline(always)]
pub(crate) fn is_no_worse_line(a: &SmallState, b: &SmallState) -> bool
    ensures { result ≡ is_no_worse_line_of a.now b.now }
{
    if a.is_surely_same_line(b) {
        return true;
    }
    is_no_worse_part(a, b)
}

/// Whether two states are equal but for their ages, and no age of the first is greater. Most that are compared are the
/// same, which few bytes tell. No memory is taken.
pub fn no_worse(a: &SmallState, b: &SmallState) -> bool
    ensures { result ≡ is_no_worse a.now b.now }
{
    if a.is_surely_same(b) {
        return true;
    }
    is_same_key(a, b) && has_no_older(a, b)
}
