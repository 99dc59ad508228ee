//! The rules on the floats that a column adds: counts of areas, every float once, callout before float, distance.
ghost use Rattle.std.specs.Prelude.{◌≡◌, ◌≤◌, ◌<◌, ◌^◌, ◌==◌, ◌&&◌, if◌then◌else◌, List, ℕ, Ok, length, reverse, IfOk};
ghost use Rattle.pg_list.specs.declared.blocks.Block.{Block as ABlock};
ghost use Rattle.pg_rules.specs.Floats.{float_numbers, floats, has_all, is_area_allowed, takes_wide, total_count};
ghost use Rattle.pg_rules.specs.History.{made_wide};
ghost use Rattle.pg_rules.specs.Legal.{document};
ghost use Rattle.pg_rules.specs.Room.{checked_height};
ghost use Rattle.pg_floats.specs.AreFloats.{AreFloats};
ghost use Rattle.pg_judge.specs.Added.{added_by, calls_test, counts_test, deals_test, waits_price};
ghost use Rattle.pg_judge.specs.Bases.{IsBasis, doc_of, move_of};
ghost use Rattle.pg_judge.specs.Progress.{IsKept};
ghost use Rattle.pg_floats.specs.Counts.{capped, capped_sum};
ghost use Rattle.pg_floats.specs.Given.{IsListOf, IsWideHeight};

use crate::basis::{Basis, NextColumn};
use crate::floats::{are_called, float_demerits};
use crate::progress::Progress;
use crate::seat::Seat;
use pg_floats::{FloatList, Spot, checked_area, count_floats, is_allowed, plus, total};
use pg_list::Galley;
use pg_plan::{Column, Counts};
use pg_style::Style;
use std::alloc::{AllocError, Global};

/// How many floats of each class are placed before a column's top area, before its bottom area, and behind it.
#[derive(Drop)]
pub struct Counted {
    pub before: Counts,
    pub below: Counts,
    pub after: Counts,
}

impl Counted {
    /// The counts of a column with these wide floats, behind so many that are placed.
    pub fn of(
        alloc: Global,
        slots: usize,
        placed: &Counts,
        wide: &Counts,
        column: &Column,
    ) -> Result<Counted, AllocError>
        ensures before { IfOk result (λ it. it.before ≡ capped_sum slots placed.now wide.now) }
        ensures below { IfOk result (λ it. it.below ≡ capped_sum slots it.before column.now.top) }
        ensures after { IfOk result (λ it. it.after ≡ capped_sum slots it.below column.now.bottom) }
    {
        let before = plus(alloc, slots, placed.as_slice(), wide.as_slice())?;
        let below = plus(alloc, slots, before.as_slice(), column.top.as_slice())?;
        let after = plus(alloc, slots, below.as_slice(), column.bottom.as_slice())?;
        Ok(Counted {
            before,
            below,
            after,
        })
    }
}

// The height of the wide area.
fn wide_area(
    style: &Style,
    list: &FloatList,
    is_allowed: bool,
    placed: &Counts,
    counts: &Counts,
) -> i64
    ensures { (blocks : List ABlock) → AreFloats blocks style.now list.now →
        result ≡ checked_height (floats blocks style.now) is_allowed style.now.wide placed.now counts.now }
{
    checked_area(list, is_allowed, &style.wide, placed, counts)
}

// Whether a page may have these wide floats.
fn is_wide_allowed(style: &Style, slots: usize, wide: &[u16]) -> bool
    requires slots { slots ≡ length (float_numbers style.now) }
    requires few { slots ≤ 8 }
    ensures { result ≡ is_area_allowed style.now takes_wide style.now.wide.count wide.now }
{
    is_allowed(style, Spot::Across, style.wide.count, slots, wide)
}

/// The height of the wide area that a page's first column makes, where it has floats.
pub fn wide_height(
    galley: &Galley,
    style: &Style,
    list: &FloatList,
    slots: usize,
    placed: &Counts,
    wide: &Counts,
) -> Option<i64>
    requires list { IsListOf galley.now.blocks style.now list.now }
    requires slots { slots ≡ length (float_numbers style.now) }
    requires few { slots ≤ 8 }
    ensures value { (all : List ℕ) → placed.now ≡ capped all →
        result ≡ made_wide (document galley.now style.now) all wide.now }
    ensures size { IsWideHeight result }
{
    let _ = galley;
    style.stays_in_range();
    if count_floats(slots, wide.as_slice()) == 0 {
        return None;
    }
    let is_wide = is_wide_allowed(style, slots, wide.as_slice());
    Some(wide_area(style, list, is_wide, placed, wide))
}

// Whether the areas of a column have a count for each class, of floats that may stand there, and not too many.
fn have_counts(slots: usize, column: &Column, seat: &Seat) -> bool
    ensures { result ≡ ((length column.now.top == slots) && (length column.now.bottom == slots)
        && seat.now.is_top_allowed && seat.now.is_bottom_allowed) }
{
    column.top.as_slice().len() == slots
        && column.bottom.as_slice().len() == slots
        && seat.is_top_allowed
        && seat.is_bottom_allowed
}

// Whether the wide floats of a page's column of this number have such counts; a second column has none.
fn has_wide_counts(style: &Style, slots: usize, wide: &[u16], column: u8) -> bool
    requires slots { slots ≡ length (float_numbers style.now) }
    requires few { slots ≤ 8 }
    ensures { result ≡ ((length wide.now == length (float_numbers style.now))
        && (if column == 1 then is_area_allowed style.now takes_wide style.now.wide.count wide.now
        else total_count wide.now == 0)) }
{
    if wide.len() != slots {
        return false;
    }
    if column == 1 {
        is_wide_allowed(style, slots, wide)
    } else {
        total(wide) == 0
    }
}

// Whether each class has the floats that counts deal out.
fn has_floats(style: &Style, list: &FloatList, placed: &Counts, counts: &Counts) -> bool
    ensures { (blocks : List ABlock) → AreFloats blocks style.now list.now →
        result ≡ has_all (floats blocks style.now) placed.now counts.now }
{
    list.area(&style.wide, placed, counts).is_some()
}

// Whether each class has the floats that a column deals out.
fn has_dealt(
    style: &Style,
    list: &FloatList,
    placed: &Counts,
    wide: &Counts,
    column: &Column,
    counted: &Counted,
) -> bool
    ensures { (blocks : List ABlock) → AreFloats blocks style.now list.now →
        result ≡ (has_all (floats blocks style.now) placed.now wide.now
        && (has_all (floats blocks style.now) counted.now.before column.now.top
        && has_all (floats blocks style.now) counted.now.below column.now.bottom)) }
{
    has_floats(style, list, placed, wide)
        && (has_floats(style, list, &counted.before, &column.top)
            && has_floats(style, list, &counted.below, &column.bottom))
}

/// What the floats pay that a column adds, or the least rule on them that it breaks: 7 counts of areas, 8 every float
/// once, 9 callout before float, 10 distance of a float.
pub fn judge_added(
    basis: &Basis,
    progress: &Progress,
    step: &NextColumn,
    counted: &Counted,
    seat: &Seat,
) -> Result<u64, u8>
    requires list { IsBasis basis.now }
    requires kept { IsKept basis.now.style.now progress.now }
    ensures { result ≡ added_by
        (counts_test basis.now.style.now progress.now (move_of step.now) seat.now)
        (deals_test (doc_of basis.now) progress.now (move_of step.now) counted.now)
        (calls_test (doc_of basis.now) progress.now (move_of step.now) counted.now)
        (waits_price (doc_of basis.now) progress.now counted.now) }
{
    let slots = progress.slots;
    let column = step.column;
    let has_own = have_counts(slots, column, seat);
    let has_wide = has_wide_counts(basis.style, slots, step.wide.as_slice(), progress.column);
    if !(has_own & has_wide) {
        return Err(7);
    }
    if !has_dealt(
        basis.style,
        basis.list,
        &progress.placed,
        step.wide,
        column,
        counted,
    ) {
        return Err(8);
    }
    let before = progress.placed.as_slice();
    let after = counted.after.as_slice();
    if !are_called(basis, slots, column.to, before, after) {
        return Err(9);
    }
    match float_demerits(basis, slots, progress.turns.as_slice(), before, after) {
        Some(price) => Ok(price),
        None => Err(10),
    }
}
