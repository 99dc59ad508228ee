//! How far the sums of a line may still fall, along the items ahead.
ghost use Rattle.std.specs.Prelude.{◌≡◌, ◌≤◌, ◌<◌, ◌^◌, length, drop, nat_abs, IfOk, int_le, int_lt, ◌+ℤ◌, ◌-ℤ◌};
ghost use Rattle.pg_hlist.specs.Items.{IsInRange, IsPara, width_of};
ghost use Rattle.pg_lines.specs.Ahead.{IsBounded, at_most_zero as at_most_zero_of, fall_before as fall_before_of, fall_of, falls_of, stays_over as stays_over_by, tight_width as tight_width_of};
ghost use Rattle.pg_lines.specs.Sums.{AreSmall};

use crate::LineSums;
use pg_hlist::HItem;
use pg_scaled::{minus, plus, wide};
use std::alloc::{AllocError, Global};

/// How far a sum may still fall along items ahead, at most 0: the sum of widths, and that of widths less shrink. In
/// scaled points.
#[derive(Clone, Copy, PartialEq, Eq)]
pub struct Fall {
    pub total: i64,
    pub tight: i64,
}

// The width of an item.
fn width(item: &HItem) -> i32
    ensures { result ≡ width_of item.now }
{
    match item {
        HItem::BoxItem { width, .. } => *width,
        HItem::Glue { width, .. } => *width,
        HItem::Kern { width, .. } => *width,
        HItem::Penalty { .. } => 0,
    }
}

// The width of an item whose glue is shrunk.
fn tight_width(item: &HItem) -> i64
    requires { IsInRange item.now }
    ensures value { result ≡ tight_width_of item.now }
    ensures size { nat_abs result < 2 ^ 31 }
{
    match item {
        HItem::BoxItem { width, .. } => wide(*width),
        HItem::Glue { width, shrink, .. } => minus(wide(*width), wide(*shrink)),
        HItem::Kern { width, .. } => wide(*width),
        HItem::Penalty { .. } => 0,
    }
}

// A sum where it is below 0.
fn at_most_zero(sum: i64) -> i64
    ensures { result ≡ at_most_zero_of sum }
{
    if sum < 0 { sum } else { 0 }
}

// One item more in front.
fn fall_before(item: &HItem, fall: &Fall) -> Fall
    requires item { IsInRange item.now }
    requires bounds { IsBounded fall.now (2 ^ 11) }
    ensures { result ≡ fall_before_of item.now fall.now }
{
    Fall {
        total: at_most_zero(plus(wide(width(item)), fall.total)),
        tight: at_most_zero(plus(tight_width(item), fall.tight)),
    }
}

/// How far sums may fall from each place of a paragraph on: at its end first, at its front last.
pub fn falls(alloc: Global, items: &[HItem]) -> Result<Vec<Fall>, AllocError>
    requires { IsPara items.now }
    ensures { IfOk result (λ falls. falls.items ≡ falls_of items.now) }
{
    let mut falls = Vec::new(alloc);
    let mut fall = Fall { total: 0, tight: 0 };
    falls.push(fall)?;
    let mut rest = items;
    'back: while let [before @ .., last] = rest {
        fall = fall_before(last, &fall);
        falls.push(fall)?;
        rest = before;
    }
    Ok(falls)
}

// How far sums may fall from a place on.
fn fall_at(items: &[HItem], falls: &[Fall], place: usize) -> Fall
    requires para { IsPara items.now }
    requires place { place ≤ length items.now }
    requires falls { falls.now ≡ falls_of items.now }
    ensures value { result ≡ fall_of (drop place items.now) }
    ensures bounds { IsBounded result (2 ^ 11) }
{
    falls[items.len() - place]
}

// Whether the least total ahead is no less than a width.
fn reaches(width: i32, sums: &LineSums, fall: &Fall) -> bool
    requires small { AreSmall sums.now }
    requires bounds { IsBounded fall.now (2 ^ 11) }
    ensures { result ≡ int_le width (sums.now.total +ℤ fall.now.total) }
{
    plus(sums.total, fall.total) >= wide(width)
}

// Whether the least total ahead, less its shrink, is greater than a width.
fn passes(width: i32, sums: &LineSums, fall: &Fall) -> bool
    requires small { AreSmall sums.now }
    requires bounds { IsBounded fall.now (2 ^ 11) }
    ensures { result ≡ int_lt width ((sums.now.total -ℤ sums.now.shrink) +ℤ fall.now.tight) }
{
    plus(minus(sums.total, sums.shrink), fall.tight) > wide(width)
}

// Whether a line of these sums is over and stays so, however the sums fall.
fn stays_over_in(width: i32, sums: &LineSums, fall: &Fall) -> bool
    requires small { AreSmall sums.now }
    requires bounds { IsBounded fall.now (2 ^ 11) }
    ensures { result ≡ stays_over_by width sums.now fall.now }
{
    reaches(width, sums, fall) && passes(width, sums, fall)
}

/// Whether a line that ends at a place, with these sums, is over, and each longer one too. `falls` are those of the
/// paragraph.
pub fn stays_over(
    width: i32,
    items: &[HItem],
    falls: &[Fall],
    place: usize,
    sums: &LineSums,
) -> bool
    requires para { IsPara items.now }
    requires place { place ≤ length items.now }
    requires falls { falls.now ≡ falls_of items.now }
    requires small { AreSmall sums.now }
    ensures { result ≡ stays_over_by width sums.now (fall_of (drop place items.now)) }
{
    stays_over_in(width, sums, &fall_at(items, falls, place))
}
