//! Where a column stands: the floats placed before it, and the room of its text.
ghost use Rattle.std.specs.Prelude.{◌≡◌, ◌<◌, ◌≤◌, ◌+◌, ◌^◌, ◌∷◌, [], ℕ, List, IfOk, length, map, nat_abs, true, pos, unwrap_or, ◌-ℤ◌};
ghost use Rattle.std.specs.List.{range_with_len, AllByRecursion};
ghost use Rattle.pg_list.specs.Shapes.{IsBlock};
ghost use Rattle.pg_list.specs.declared.blocks.Block.{Block as ABlock};
ghost use Rattle.pg_style.specs.Values.{StyleValue};
ghost use Rattle.pg_style.specs.Ranges.{IsStyle};
ghost use Rattle.pg_rules.specs.Floats.{entry as entry_of, floats as floats_of, gap_shrink, gap_stretch};
ghost use Rattle.pg_rules.specs.Room.{before_bottom, checked_give as the_checked_give, checked_height, room};
ghost use Rattle.pg_column.specs.Numbers.{IsRoom, text_room};
ghost use Rattle.pg_floats.specs.AreFloats.{AreFloats};
ghost use Rattle.pg_rules.specs.Legal.{document};
ghost use Rattle.pg_pages.specs.Printed.{FitTogether};
ghost use Rattle.pg_pages.specs.Seated.{MayPrint, seated};

use pg_column::TextRoom;
use pg_floats::{FloatList, checked_give, full_height};
use pg_list::Galley;
use pg_plan::{Column, Counts};
use pg_scaled::minus;
use pg_style::{AreaRule, Give, Style};
use std::alloc::{AllocError, Global};

// An entry of a count list.
fn count_at(counts: &[u16], slot: usize) -> u16
    ensures { result ≡ entry_of counts.now slot }
{
    match counts.get(slot) {
        Some(count) => *count,
        None => 0,
    }
}

/// Where a column stands: the run of its page, the height of its page's wide area, and the floats placed before it.
#[derive(Drop)]
pub struct Seat {
    pub run: u8,
    pub wide: Option<i64>,
    pub before: Counts,
}

// Counts added, class by class.
pub fn added(alloc: Global, slots: usize, a: &[u16], b: &[u16]) -> Result<Counts, AllocError>
    requires { FitTogether a.now b.now }
    ensures { IfOk result (λ counts. counts
        ≡ map (λ (slot : ℕ). entry_of a.now slot + entry_of b.now slot) (range_with_len 0 slots)) }
{
    let mut counts = Counts::new(alloc);
    for slot in 0..slots {
        counts.push(count_at(a, slot) + count_at(b, slot))?;
    }
    Ok(counts)
}

// The height of an area whose counts are allowed; 0 where a float is not there.
fn area_height(floats: &FloatList, rule: &AreaRule, before: &Counts, counts: &Counts) -> i64
    ensures { (blocks : List ABlock) (style : StyleValue) → AreFloats blocks style floats.now →
        result ≡ checked_height (floats_of blocks style) true rule.now before.now counts.now }
{
    match floats.area(rule, before, counts) {
        Some(height) => height,
        None => 0,
    }
}

// The height of a column's top area.
fn top_height(floats: &FloatList, style: &Style, before: &Counts, counts: &Counts) -> i64
    ensures { (blocks : List ABlock) (those : StyleValue) → AreFloats blocks those floats.now →
        result ≡ checked_height (floats_of blocks those) true style.now.top before.now counts.now }
{
    area_height(floats, &style.top, before, counts)
}

// The height of a column's bottom area.
fn bottom_height(floats: &FloatList, style: &Style, below: &Counts, counts: &Counts) -> i64
    ensures { (blocks : List ABlock) (those : StyleValue) → AreFloats blocks those floats.now →
        result ≡ checked_height (floats_of blocks those) true style.now.bottom below.now counts.now }
{
    area_height(floats, &style.bottom, below, counts)
}

// The height of a page's wide area.
pub fn wide_area(floats: &FloatList, style: &Style, placed: &Counts, counts: &Counts) -> i64
    ensures { (blocks : List ABlock) (those : StyleValue) → AreFloats blocks those floats.now →
        result ≡ checked_height (floats_of blocks those) true style.now.wide placed.now counts.now }
{
    area_height(floats, &style.wide, placed, counts)
}

// The height of a wide area, 0 where there is none.
fn wide_height(wide: Option<i64>) -> i64
    ensures { result ≡ unwrap_or wide (pos 0) }
{
    match wide {
        Some(height) => height,
        None => 0,
    }
}

// What the areas leave of a column's height.
fn room_left(full: i64, wide: i64, top: i64, bottom: i64) -> i64
    requires full { nat_abs full < 2 ^ 33 }
    requires wide { nat_abs wide < 2 ^ 33 }
    requires top { nat_abs top < 2 ^ 33 }
    requires bottom { nat_abs bottom < 2 ^ 33 }
    ensures value { result ≡ (((full -ℤ wide) -ℤ top) -ℤ bottom) }
    ensures size { nat_abs result < 2 ^ 40 }
{
    minus(minus(minus(full, wide), top), bottom)
}

// What the gaps of an area give, whose counts are allowed; nothing where a float is not there.
fn area_give(floats: &FloatList, rule: &AreaRule, before: &Counts, counts: &Counts) -> Give
    ensures stretch { (blocks : List ABlock) (style : StyleValue) → AreFloats blocks style floats.now →
        result.stretch ≡ the_checked_give gap_stretch (floats_of blocks style) true rule.now before.now counts.now }
    ensures shrink { (blocks : List ABlock) (style : StyleValue) → AreFloats blocks style floats.now →
        result.shrink ≡ the_checked_give gap_shrink (floats_of blocks style) true rule.now before.now counts.now }
    ensures size { (nat_abs result.stretch < 2 ^ 43) × (nat_abs result.shrink < 2 ^ 43) }
{
    checked_give(floats, true, rule, before, counts)
}

// What the gaps of a column's top area give.
fn top_give(floats: &FloatList, style: &Style, before: &Counts, counts: &Counts) -> Give
    ensures stretch { (blocks : List ABlock) (those : StyleValue) → AreFloats blocks those floats.now →
        result.stretch ≡ the_checked_give gap_stretch (floats_of blocks those) true style.now.top before.now counts.now }
    ensures shrink { (blocks : List ABlock) (those : StyleValue) → AreFloats blocks those floats.now →
        result.shrink ≡ the_checked_give gap_shrink (floats_of blocks those) true style.now.top before.now counts.now }
    ensures size { (nat_abs result.stretch < 2 ^ 43) × (nat_abs result.shrink < 2 ^ 43) }
{
    area_give(floats, &style.top, before, counts)
}

// What the gaps of a column's bottom area give.
fn bottom_give(floats: &FloatList, style: &Style, below: &Counts, counts: &Counts) -> Give
    ensures stretch { (blocks : List ABlock) (those : StyleValue) → AreFloats blocks those floats.now →
        result.stretch
        ≡ the_checked_give gap_stretch (floats_of blocks those) true style.now.bottom below.now counts.now }
    ensures shrink { (blocks : List ABlock) (those : StyleValue) → AreFloats blocks those floats.now →
        result.shrink
        ≡ the_checked_give gap_shrink (floats_of blocks those) true style.now.bottom below.now counts.now }
    ensures size { (nat_abs result.stretch < 2 ^ 43) × (nat_abs result.shrink < 2 ^ 43) }
{
    area_give(floats, &style.bottom, below, counts)
}

// What the areas leave of the height of a column.
fn size_of_room(
    galley: &Galley,
    style: &Style,
    floats: &FloatList,
    seat: &Seat,
    below: &Counts,
    column: &Column,
) -> i64
    requires floats { AreFloats galley.now.blocks style.now floats.now }
    requires may { MayPrint (seated (document galley.now style.now) seat.now column.now) }
    requires below { below.now ≡ before_bottom (seated (document galley.now style.now) seat.now column.now) }
    ensures value { result ≡ room (seated (document galley.now style.now) seat.now column.now) }
    ensures size { nat_abs result < 2 ^ 40 }
{
    style.stays_in_range();
    let top = top_height(floats, style, &seat.before, &column.top);
    let bottom = bottom_height(floats, style, below, &column.bottom);
    room_left(
        full_height(style, seat.run),
        wide_height(seat.wide),
        top,
        bottom,
    )
}

// What the gaps of the areas give to the text between them.
fn give_of(
    galley: &Galley,
    style: &Style,
    floats: &FloatList,
    seat: &Seat,
    below: &Counts,
    column: &Column,
) -> Give
    requires floats { AreFloats galley.now.blocks style.now floats.now }
    requires may { MayPrint (seated (document galley.now style.now) seat.now column.now) }
    requires below { below.now ≡ before_bottom (seated (document galley.now style.now) seat.now column.now) }
    ensures value { result ≡ (text_room (seated (document galley.now style.now) seat.now column.now)).give }
    ensures size { (nat_abs result.stretch < 2 ^ 40) × (nat_abs result.shrink < 2 ^ 40) }
{
    style.stays_in_range();
    let top = top_give(floats, style, &seat.before, &column.top);
    let bottom = bottom_give(floats, style, below, &column.bottom);
    top.plus(bottom)
}

/// The room of a column's text.
pub fn room_of(
    galley: &Galley,
    style: &Style,
    floats: &FloatList,
    seat: &Seat,
    below: &Counts,
    column: &Column,
) -> TextRoom
    requires floats { AreFloats galley.now.blocks style.now floats.now }
    requires may { MayPrint (seated (document galley.now style.now) seat.now column.now) }
    requires below { below.now ≡ before_bottom (seated (document galley.now style.now) seat.now column.now) }
    ensures value { result ≡ text_room (seated (document galley.now style.now) seat.now column.now) }
    ensures size { IsRoom result }
{
    TextRoom {
        size: size_of_room(galley, style, floats, seat, below, column),
        give: give_of(galley, style, floats, seat, below, column),
    }
}
