//! One column behind those before it: the least rule that it breaks, or what it costs.
ghost use Rattle.std.specs.Prelude.{◌≡◌, ◌≤◌, ◌<◌, ◌+◌, ◌^◌, ◌==◌, ◌&&◌, ◌+ℤ◌, if◌then◌else◌, length, nat_abs, pos, is_some, slice_get, true};
ghost use Rattle.std.specs.Option.{option_map_or};
ghost use Rattle.pg_rules.specs.Cost.{differs as differs_of, run_demerits as run_demerits_of};
ghost use Rattle.pg_rules.specs.Floats.{float_numbers};
ghost use Rattle.pg_rules.specs.Legal.{document};
ghost use Rattle.pg_rules.specs.Room.{ColumnContext};
ghost use Rattle.pg_column.specs.Fits.{does_fit_from};
ghost use Rattle.pg_judge.specs.Judged.{JudgesColumn};
ghost use Rattle.pg_judge.specs.Moves.{decided, fitness_cost, with_barriers as with_barriers_of};
ghost use Rattle.pg_judge.specs.Seats.{AreHeights, IsSeat};

use crate::judged::{ColumnCost, judge_floats, judge_text};
use crate::seat::{Seat, is_same_place};
use pg_list::Galley;
use pg_plan::Column;
use pg_scaled::{large, large_plus};
use pg_style::{Run, Style};

// The rules on a column by itself.
pub fn judge_own(
    galley: &Galley,
    style: &Style,
    slots: usize,
    column: &Column,
    seat: &Seat,
) -> Result<ColumnCost, u8>
    requires heights { AreHeights seat.now }
    requires slots { slots ≡ length (float_numbers style.now) }
    requires few { slots ≤ 8 }
    requires fits { does_fit_from galley.now.blocks column.now.from column.now.picks column.now.to ≡ true }
    ensures { (it : ColumnContext) → it.document ≡ document galley.now style.now → it.column ≡ column.now →
        IsSeat it seat.now → JudgesColumn it result }
{
    if is_same_place(column.from, column.to) {
        judge_floats(style, slots, column, seat)
    } else {
        judge_text(galley, style, column, seat)
    }
}

// Whether a run is there, and is the one that must be.
pub fn is_run_kept(runs: &[Run], must: Option<u8>, run: u8) -> bool
    ensures { result ≡ (is_some (slice_get runs.now run) && option_map_or (λ other. run == other) must true) }
{
    let is_it = match must {
        Some(other) => run == other,
        None => true,
    };
    (run as usize) < runs.len() && is_it
}

// What a page of a run costs, in its first column; 0 where there is no such run.
fn run_demerits(runs: &[Run], column: u8, run: u8) -> u32
    ensures { result ≡ (if column == 1 then option_map_or (λ it. it.demerits) (slice_get runs.now run) 0 else 0) }
{
    if column != 1 {
        return 0;
    }
    match runs.get(run as usize) {
        Some(run) => run.demerits,
        None => 0,
    }
}

// What a text of this fitness pays behind the last text before it.
pub fn fitness_price(style: &Style, last: Option<u8>, own: Option<u8>) -> u32
    ensures { result ≡ fitness_cost style.now last own }
{
    match last {
        Some(last) => match own {
            Some(own) => { if differs(last, own) { style.fitness } else { 0 } }
            None => 0,
        },
        None => 0,
    }
}

// Two texts are more than one step of fitness apart.
fn differs(a: u8, b: u8) -> bool
    ensures { result ≡ differs_of a b }
{
    let a = u16::from(a);
    let b = u16::from(b);
    !(a <= b + 1 && b <= a + 1)
}

/// What a column costs by itself, and what its floats pay.
#[derive(Clone, Copy)]
pub struct MoveCost {
    pub own: ColumnCost,
    pub price: u64,
}

/// The verdict from that on the column by itself, that on its floats, and that on its run.
pub fn decide(
    own: Result<ColumnCost, u8>,
    added: Result<u64, u8>,
    has_run: bool,
) -> Result<MoveCost, u8>
    ensures { result ≡ decided own added has_run }
{
    match own {
        Ok(own) => match added {
            Ok(price) => {
                if has_run {
                    Ok(MoveCost { own, price })
                } else {
                    Err(12)
                }
            }
            Err(rule) => Err(rule),
        },
        Err(rule) => match added {
            Ok(_) => {
                if rule < 12 {
                    Err(rule)
                } else if has_run {
                    Err(rule)
                } else {
                    Err(12)
                }
            }
            Err(other) => { if rule < 7 { Err(rule) } else { Err(other) } }
        },
    }
}

/// The verdict from that on the rules before the last, and that on barriers.
pub fn with_barriers(most: Result<MoveCost, u8>, keeps: bool) -> Result<MoveCost, u8>
    ensures { result ≡ with_barriers_of most keeps }
{
    match most {
        Ok(it) => { if keeps { Ok(it) } else { Err(14) } }
        Err(rule) => Err(rule),
    }
}

/// What a page of a run costs, in its first column.
pub fn run_price(style: &Style, column: u8, run: u8) -> u32
    ensures { pos result ≡ (if column == 1 then run_demerits_of style.now run else pos 0) }
{
    run_demerits(style.runs.as_slice(), column, run)
}

// A number of 64 bits in 128.
fn large_of(n: u64) -> i128
    ensures value { result ≡ pos n }
    ensures size { nat_abs result < 2 ^ 64 }
{
    i128::from(n)
}

// What a column adds: its demerits, its picks, its page's run, its floats, and its fitness.
fn cost_of(own: i64, picks: u64, run: u32, price: u64, fitness: u32) -> i128
    ensures value { result ≡ (own +ℤ pos picks) +ℤ ((pos run +ℤ pos price) +ℤ pos fitness) }
    ensures size { nat_abs result ≤ 2 ^ 69 }
{
    let alone = large_plus(large(own), large_of(picks));
    let floats = large_plus(large_of(u64::from(run)), large_of(price));
    large_plus(alone, large_plus(floats, large_of(u64::from(fitness))))
}

/// What is paid with one more column: its demerits, its picks, its page's run, its floats, and its fitness behind the
/// last text before it.
pub fn cost_with(paid: i128, own: i64, picks: u64, run: u32, price: u64, fitness: u32) -> i128
    requires paid { nat_abs paid < 2 ^ 110 }
    ensures value { result ≡ paid +ℤ ((own +ℤ pos picks) +ℤ ((pos run +ℤ pos price) +ℤ pos fitness)) }
    ensures size { nat_abs result ≤ nat_abs paid + 2 ^ 70 }
{
    large_plus(paid, cost_of(own, picks, run, price, fitness))
}
