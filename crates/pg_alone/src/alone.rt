//! Floats that no column can hold.
ghost use Rattle.std.specs.Prelude.{◌≡◌, ◌≤◌, ◌<◌, ◌^◌, ◌&&◌, ◌||◌, ◌==◌, ◌+ℤ◌, not, int_lt, length};
ghost use Rattle.std.specs.List.{list_all};
ghost use Rattle.pg_floats.specs.AreFloats.{AreFloats};
ghost use Rattle.pg_floats.specs.Spots.{takes_of};
ghost use Rattle.pg_style.specs.declared.style.Run.{Run as ARun};
ghost use Rattle.pg_alone.specs.Alone.{FindsAlone, FindsAt, FindsIn, has_no_place as has_no_place_of};
ghost use Rattle.pg_alone.specs.Alone.{is_above_all as is_above_all_of, takes_none as takes_none_of};

use pg_floats::{FloatList, Spot, slots_of};
use pg_list::Galley;
use pg_scaled::{plus, wide};
use pg_style::{Run, Style};

/// A float that no column can hold: the slot of its class, its number in the class, its size in scaled points, and why.
#[derive(Clone, Copy)]
pub struct Alone {
    pub slot: usize,
    pub number: u32,
    pub size: i32,
    /// It is higher than a column on a page of any run.
    pub is_high: bool,
    /// No area may have floats of its class.
    pub is_placeless: bool,
}

/// More floats than a list of them has.
const LIMIT: u32 = 4096;

// Whether a column on a page of a run is lower than a size.
fn is_below(height: i32, run: &Run, size: i32) -> bool
    ensures { result ≡ int_lt (height +ℤ run.now.extra) size }
{
    plus(wide(height), wide(run.extra)) < wide(size)
}

// Whether a column on a page of each run is.
fn are_below(height: i32, runs: &[Run], size: i32) -> bool
    ensures { result ≡ list_all (λ (run : ARun). int_lt (height +ℤ run.extra) size) runs.now }
{
    let mut rest = runs;
    'runs: while let [run, after @ ..] = rest {
        if !is_below(height, run, size) {
            return false;
        }
        rest = after;
    }
    true
}

// Whether a size is above the height of a column on a page of any run.
fn is_above_all(style: &Style, size: i32) -> bool
    ensures { result ≡ is_above_all_of style.now size }
{
    are_below(style.height, style.runs.as_slice(), size)
}

// Whether an area that may have so many floats has none of a class.
fn takes_none(style: &Style, spot: Spot, count: u8, slot: usize) -> bool
    ensures { result ≡ takes_none_of style.now (takes_of spot) count slot }
{
    count == 0 || !spot.takes_slot(style, slot)
}

// Whether no area has floats of a class.
fn has_no_place(style: &Style, slot: usize) -> bool
    ensures { result ≡ has_no_place_of style.now slot }
{
    let across = takes_none(style, Spot::Across, style.wide.count, slot);
    let column = takes_none(style, Spot::Column, style.float_column.count, slot);
    let top = takes_none(style, Spot::Top, style.top.count, slot);
    let bottom = takes_none(style, Spot::Bottom, style.bottom.count, slot);
    (across & column) & (top & bottom)
}

// The float of this number and slot, if no column can hold it.
fn alone_at(
    galley: &Galley,
    style: &Style,
    list: &FloatList,
    slot: usize,
    number: u32,
) -> Option<Alone>
    requires { AreFloats galley.now.blocks style.now list.now }
    ensures { FindsAt galley.now style.now slot number result }
{
    // the clause alone speaks of the galley
    let _ = galley;
    let Some(size) = list.size(slot, number) else {
        return None;
    };
    let is_high = is_above_all(style, size);
    let is_placeless = has_no_place(style, slot);
    if is_high | is_placeless {
        Some(Alone {
            slot,
            number,
            size,
            is_high,
            is_placeless,
        })
    } else {
        None
    }
}

// The first float of a slot that no column can hold.
fn alone_in(galley: &Galley, style: &Style, list: &FloatList, slot: usize) -> Option<Alone>
    requires { AreFloats galley.now.blocks style.now list.now }
    ensures { FindsIn galley.now style.now slot result }
{
    list.stays_few();
    for number in 0..LIMIT {
        match alone_at(galley, style, list, slot, number) {
            Some(alone) => return Some(alone),
            None => {}
        }
    }
    None
}

/// The first float, by class and number, that no column can hold: it is higher than a column on a page of any run, or no
/// area may have floats of its class. Where there is one nothing is legal (`alone_forbids`). None where there is none.
///
/// Condition: the list is of this galley and style, as `FloatList::of` makes it. No memory is taken.
pub fn first_alone(galley: &Galley, style: &Style, list: &FloatList) -> Option<Alone>
    requires { AreFloats galley.now.blocks style.now list.now }
    ensures { FindsAlone galley.now style.now result }
{
    let slots = slots_of(style);
    for slot in 0..slots {
        match alone_in(galley, style, list, slot) {
            Some(alone) => return Some(alone),
            None => {}
        }
    }
    None
}
