//! What a page leaves to a column: which floats it may have, and how high its areas are.
ghost use Rattle.std.specs.Prelude.{◌≡◌, ◌≤◌, ◌<◌, ◌^◌, ◌-ℤ◌, if◌then◌else◌, List, ℕ, length, nat_abs, not, is_some};
ghost use Rattle.pg_list.specs.Flat.{is_same_place as is_same_place_of};
ghost use Rattle.pg_rules.specs.Floats.{float_numbers, is_area_allowed, plus_counts, takes_bottom, takes_in_column, takes_top};
ghost use Rattle.pg_rules.specs.Floats.{floats, gap_shrink, gap_stretch};
ghost use Rattle.pg_rules.specs.Room.{checked_give as the_checked_give, checked_height};
ghost use Rattle.pg_column.specs.Numbers.{IsRoom};
ghost use Rattle.pg_floats.specs.AreFloats.{AreFloats};
ghost use Rattle.pg_list.specs.declared.blocks.Block.{Block as ABlock};
ghost use Rattle.pg_style.specs.Ranges.{IsStyle};
ghost use Rattle.pg_floats.specs.Counts.{capped};
ghost use Rattle.pg_floats.specs.Given.{IsWideHeight};
ghost use Rattle.pg_judge.specs.Bases.{IsBasis};
ghost use Rattle.pg_judge.specs.Seats.{AreHeights, IsSeat, seated};

use crate::added::Counted;
use crate::basis::{Basis, NextColumn};
use pg_column::TextRoom;
use pg_floats::{FloatList, Spot, checked_area, checked_give, full_height, is_allowed};
use pg_list::Place;
use pg_plan::Counts;
use pg_scaled::minus;
use pg_style::{Give, Style};

/// What a page leaves to a column, and what the gaps of its areas give to a text. Heights are in scaled points.
#[derive(Clone, Copy)]
pub struct Seat {
    pub is_text: bool,
    pub is_top_allowed: bool,
    pub is_bottom_allowed: bool,
    pub has_wide: bool,
    pub full: i64,
    pub wide: i64,
    pub top: i64,
    pub bottom: i64,
    pub give: Give,
}

impl Seat {
    /// The room of a text: what the areas leave of the column's height, and what their gaps give.
    pub fn room(&self) -> TextRoom
        requires { AreHeights self.now }
        ensures size { result.size ≡ ((self.now.full -ℤ self.now.wide) -ℤ self.now.top) -ℤ self.now.bottom }
        ensures give { result.give ≡ self.now.give }
        ensures small { IsRoom result }
    {
        TextRoom {
            size: minus(minus(minus(self.full, self.wide), self.top), self.bottom),
            give: self.give,
        }
    }
}

/// Whether two places are one.
pub fn is_same_place(a: Place, b: Place) -> bool
    ensures { result ≡ is_same_place_of a b }
{
    a.block == b.block && a.variant == b.variant && a.index == b.index
}

fn is_top_allowed(style: &Style, slots: usize, is_text: bool, counts: &Counts) -> bool
    requires slots { slots ≡ length (float_numbers style.now) }
    requires few { slots ≤ 8 }
    ensures { result ≡ (if is_text then is_area_allowed style.now takes_top style.now.top.count counts.now
        else is_area_allowed style.now takes_in_column style.now.float_column.count counts.now) }
{
    if is_text {
        is_allowed(style, Spot::Top, style.top.count, slots, counts.as_slice())
    } else {
        is_allowed(
            style,
            Spot::Column,
            style.float_column.count,
            slots,
            counts.as_slice(),
        )
    }
}

fn is_bottom_allowed(style: &Style, slots: usize, is_text: bool, counts: &Counts) -> bool
    requires slots { slots ≡ length (float_numbers style.now) }
    requires few { slots ≤ 8 }
    ensures { result ≡ (if is_text then is_area_allowed style.now takes_bottom style.now.bottom.count counts.now
        else is_area_allowed style.now takes_in_column style.now.float_column.count counts.now) }
{
    if is_text {
        is_allowed(
            style,
            Spot::Bottom,
            style.bottom.count,
            slots,
            counts.as_slice(),
        )
    } else {
        is_allowed(
            style,
            Spot::Column,
            style.float_column.count,
            slots,
            counts.as_slice(),
        )
    }
}

// The height of the top area.
fn top_area(
    style: &Style,
    list: &FloatList,
    is_allowed: bool,
    placed: &Counts,
    counts: &Counts,
) -> i64
    ensures { (blocks : List ABlock) → AreFloats blocks style.now list.now →
        result ≡ checked_height (floats blocks style.now) is_allowed style.now.top placed.now counts.now }
{
    checked_area(list, is_allowed, &style.top, placed, counts)
}

// The height of the bottom area.
fn bottom_area(
    style: &Style,
    list: &FloatList,
    is_allowed: bool,
    placed: &Counts,
    counts: &Counts,
) -> i64
    ensures { (blocks : List ABlock) → AreFloats blocks style.now list.now →
        result ≡ checked_height (floats blocks style.now) is_allowed style.now.bottom placed.now counts.now }
{
    checked_area(list, is_allowed, &style.bottom, placed, counts)
}

// What the gaps of the top area give.
fn top_give(
    style: &Style,
    list: &FloatList,
    is_allowed: bool,
    placed: &Counts,
    counts: &Counts,
) -> Give
    ensures stretch { (blocks : List ABlock) → AreFloats blocks style.now list.now →
        result.stretch ≡ the_checked_give gap_stretch (floats blocks style.now) is_allowed style.now.top placed.now
        counts.now }
    ensures shrink { (blocks : List ABlock) → AreFloats blocks style.now list.now →
        result.shrink ≡ the_checked_give gap_shrink (floats blocks style.now) is_allowed style.now.top placed.now
        counts.now }
    ensures size { (nat_abs result.stretch < 2 ^ 43) × (nat_abs result.shrink < 2 ^ 43) }
{
    checked_give(list, is_allowed, &style.top, placed, counts)
}

// What the gaps of the bottom area give.
fn bottom_give(
    style: &Style,
    list: &FloatList,
    is_allowed: bool,
    placed: &Counts,
    counts: &Counts,
) -> Give
    ensures stretch { (blocks : List ABlock) → AreFloats blocks style.now list.now →
        result.stretch ≡ the_checked_give gap_stretch (floats blocks style.now) is_allowed style.now.bottom placed.now
        counts.now }
    ensures shrink { (blocks : List ABlock) → AreFloats blocks style.now list.now →
        result.shrink ≡ the_checked_give gap_shrink (floats blocks style.now) is_allowed style.now.bottom placed.now
        counts.now }
    ensures size { (nat_abs result.stretch < 2 ^ 43) × (nat_abs result.shrink < 2 ^ 43) }
{
    checked_give(list, is_allowed, &style.bottom, placed, counts)
}

/// The seat of the next column, with a wide area of this height, where so many floats are placed before its areas.
pub fn seat_of(
    basis: &Basis,
    slots: usize,
    step: &NextColumn,
    wide: Option<i64>,
    counted: &Counted,
) -> Seat
    requires list { IsBasis basis.now }
    requires slots { slots ≡ length (float_numbers basis.now.style.now) }
    requires few { slots ≤ 8 }
    requires wide { IsWideHeight wide }
    ensures heights { AreHeights result }
    ensures seat { (placed : List ℕ) → counted.now.before ≡ capped placed → counted.now.below ≡ capped
        (plus_counts basis.now.style.now placed step.now.column.now.top) →
        IsSeat (seated basis.now.galley.now basis.now.style.now step.now.column.now step.now.run wide placed) result }
{
    let style = basis.style;
    let list = basis.list;
    let column = step.column;
    style.stays_in_range();
    let is_text = !is_same_place(column.from, column.to);
    let is_top_allowed = is_top_allowed(style, slots, is_text, &column.top);
    let is_bottom_allowed = is_bottom_allowed(style, slots, is_text, &column.bottom);
    let before = &counted.before;
    let below = &counted.below;
    let top_give = top_give(style, list, is_top_allowed, before, &column.top);
    let bottom_give = bottom_give(style, list, is_bottom_allowed, below, &column.bottom);
    Seat {
        is_text,
        is_top_allowed,
        is_bottom_allowed,
        has_wide: wide.is_some(),
        full: full_height(style, step.run),
        wide: wide.unwrap_or(0),
        top: top_area(style, list, is_top_allowed, before, &column.top),
        bottom: bottom_area(style, list, is_bottom_allowed, below, &column.bottom),
        give: top_give.plus(bottom_give),
    }
}
