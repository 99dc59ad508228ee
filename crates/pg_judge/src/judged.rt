//! The rules on one column by itself, with text or without.
ghost use Rattle.std.specs.Prelude.{◌≡◌, ◌≤◌, ◌<◌, ◌^◌, ◌==◌, ◌&&◌, ◌||◌, ◌+ℤ◌, ◌-ℤ◌, if◌then◌else◌, length, nat_abs, nat_lt, int_le, pos, true, false};
ghost use Rattle.pg_list.specs.Flat.{is_same_place};
ghost use Rattle.pg_rules.specs.Floats.{float_numbers};
ghost use Rattle.pg_rules.specs.Legal.{document};
ghost use Rattle.pg_rules.specs.Room.{ColumnContext};
ghost use Rattle.pg_column.specs.Fits.{does_fit_from};
ghost use Rattle.pg_judge.specs.Judged.{JudgesColumn};
ghost use Rattle.pg_judge.specs.Seats.{AreHeights, IsSeat};

use crate::seat::Seat;
use pg_column::judge_from;
use pg_floats::count_floats;
use pg_list::Galley;
use pg_plan::Column;
use pg_scaled::{minus, plus, wide};
use pg_style::Style;

/// What a column costs by itself, and the fitness of its text, from 0 (very loose) to 3 (tight).
#[derive(Clone, Copy)]
pub struct ColumnCost {
    pub demerits: i64,
    pub fitness: Option<u8>,
}

// The rules on a column with text.
pub fn judge_text(
    galley: &Galley,
    style: &Style,
    column: &Column,
    seat: &Seat,
) -> Result<ColumnCost, u8>
    requires heights { AreHeights seat.now }
    requires fits { does_fit_from galley.now.blocks column.now.from column.now.picks column.now.to ≡ true }
    requires text { is_same_place column.now.from column.now.to ≡ false }
    ensures { (it : ColumnContext) → it.document ≡ document galley.now style.now → it.column ≡ column.now →
        IsSeat it seat.now → JudgesColumn it result }
{
    match judge_from(
        galley,
        style,
        column.from,
        column.picks.as_slice(),
        column.to,
        &seat.room(),
    ) {
        Ok(numbers) => Ok(ColumnCost {
            demerits: numbers.demerits,
            fitness: Some(numbers.fitness),
        }),
        Err(rule) => Err(rule),
    }
}

// Whether a column without text has floats at its top alone, or stands below wide floats.
fn is_formed(picks: &[u32], top: u32, bottom: u32, has_wide: bool) -> bool
    ensures { result ≡ ((length picks.now == 0)
        && ((nat_lt 0 top && (bottom == 0)) || ((top == 0) && (bottom == 0) && has_wide))) }
{
    picks.is_empty() && ((top > 0 && bottom == 0) || (top == 0 && bottom == 0 && has_wide))
}

// The gap below floats without text, which is not counted; where a column has none, that below the wide floats.
fn gap_below(style: &Style, top: u32) -> i64
    ensures value { result ≡ (if top == 0 then style.now.wide.gap.size else style.now.top.gap.size) }
    ensures size { nat_abs result ≤ 2 ^ 31 }
{
    if top == 0 {
        wide(style.wide.gap.size)
    } else {
        wide(style.top.gap.size)
    }
}

// Whether floats without text are not higher than the column; the gap below them is not counted.
fn has_column(style: &Style, top: u32, seat: &Seat) -> bool
    requires heights { AreHeights seat.now }
    ensures { result ≡ int_le ((seat.now.wide +ℤ seat.now.top)
        -ℤ (if top == 0 then style.now.wide.gap.size else style.now.top.gap.size)) seat.now.full }
{
    minus(plus(seat.wide, seat.top), gap_below(style, top)) <= seat.full
}

fn demerits_of(style: &Style) -> i64
    ensures { result ≡ pos style.now.float_column.demerits }
{
    i64::from(style.float_column.demerits)
}

// The rules on a column without text.
pub fn judge_floats(
    style: &Style,
    slots: usize,
    column: &Column,
    seat: &Seat,
) -> Result<ColumnCost, u8>
    requires heights { AreHeights seat.now }
    requires slots { slots ≡ length (float_numbers style.now) }
    requires few { slots ≤ 8 }
    requires text { is_same_place column.now.from column.now.to ≡ true }
    ensures { (it : ColumnContext) → it.document.style ≡ style.now → it.column ≡ column.now →
        IsSeat it seat.now → JudgesColumn it result }
{
    let top = count_floats(slots, column.top.as_slice());
    let bottom = count_floats(slots, column.bottom.as_slice());
    if !is_formed(column.picks.as_slice(), top, bottom, seat.has_wide) {
        return Err(3);
    }
    if !has_column(style, top, seat) {
        return Err(6);
    }
    Ok(ColumnCost {
        demerits: demerits_of(style),
        fitness: None,
    })
}
