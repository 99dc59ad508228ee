//! Where the lines from a place may end.
ghost use Rattle.std.specs.Prelude.{◌≡◌, ◌≤◌, ◌<◌, ◌++◌, ◌∷◌, ◌^◌, [], length, drop, take, false, true, slice_get, Some, OnOk, OnErr, IfOk, pos, ◌+ℤ◌, ◌<ℤ◌, nat_abs};
ghost use Rattle.pg_list.specs.Whole.{square as square_of};
ghost use Rattle.pg_hlist.specs.Items.{IsPara};
ghost use Rattle.law_lines.specs.Lines.{holds_box};
ghost use Rattle.pg_lines.specs.Ahead.{falls_of};
ghost use Rattle.pg_lines.specs.Ends.{end_by, end_with, ends_from as ends_from_place, fits as fits_by};
ghost use Rattle.pg_lines.specs.Near.{box_end as box_end_of, is_hbox, passes_at};
ghost use Rattle.pg_lines.specs.Sums.{AreSmall};
ghost use Rattle.pg_rules.specs.Cost.{penalty_demerits as demerits_of_penalty};

use crate::LineSums;
use crate::ahead::{Fall, stays_over};
use crate::near::{is_box, is_forced, penalty_of_break};
use law_lines::LineRule;
use pg_hlist::HItem;
use pg_scaled::{minus, plus, square, wide};
use std::alloc::{AllocError, Global};
use std::marker::Model;

/// Where a line may end, and its demerits.
#[derive(Clone, Copy, PartialEq, Eq)]
pub struct LineEnd {
    pub place: u32,
    pub demerits: i64,
}

/// The ends of the lines from a place, the nearest first.
#[derive(Drop)]
pub struct LineEnds {
    ends: Vec<LineEnd>,
}

impl Model for LineEnds {
    ghost use Rattle.std.specs.Prelude.{List};
    ghost use Rattle.pg_lines.specs.declared.ends.LineEnd.{LineEnd};

    ghost Value = { List LineEnd };

    ghost view = { λ a. a.ends.items };
}

impl LineEnds {
    /// No ends.
    pub fn new(alloc: Global) -> LineEnds
        ensures { result ≡ [] }
    {
        LineEnds {
            ends: Vec::new(alloc),
        }
    }

    /// The ends.
    pub fn as_slice(&self) -> &[LineEnd]
        ensures { result.now ≡ self.now }
    {
        self.ends.as_slice()
    }

    // One end more, behind the others.
    fn push(&mut self, end: LineEnd) -> Result<(), AllocError>
        ensures ok { OnOk result (self.new ≡ self.old ++ end ∷ []) }
    {
        self.ends.push(end)?;
        Ok(())
    }
}

// What a penalty adds to the demerits: its square, with its sign; nothing where it forces.
fn penalty_demerits(penalty: i32) -> i64
    ensures value { result ≡ demerits_of_penalty penalty }
    ensures size { nat_abs result < 2 ^ 62 }
{
    if penalty >= 0 {
        square(wide(penalty))
    } else if penalty > -10000 {
        minus(0, square(wide(penalty)))
    } else {
        0
    }
}

// The end of a line of these sums at a break with this penalty.
fn end_of(rule: &LineRule, sums: &LineSums, place: u32, penalty: i32) -> LineEnd
    requires { AreSmall sums.now }
    ensures { result ≡ end_with rule.now sums.now place penalty }
{
    let badness = sums.badness(rule.width);
    LineEnd {
        place,
        demerits: plus(
            square(plus(10, i64::from(badness))),
            penalty_demerits(penalty),
        ),
    }
}

// Whether a line of these sums may end at a break.
fn fits(rule: &LineRule, sums: &LineSums, is_forced: bool) -> bool
    requires { AreSmall sums.now }
    ensures { result ≡ fits_by rule.now sums.now is_forced }
{
    !sums.is_over(rule.width) && (sums.badness(rule.width) <= rule.tolerance || is_forced)
}

// Adds a place, where it is a break and a line of these sums may end there.
fn push_end(
    rule: &LineRule,
    items: &[HItem],
    sums: &LineSums,
    place: u32,
    is_forced: bool,
    found: &mut LineEnds,
) -> Result<(), AllocError>
    requires place { place ≤ length items.now }
    requires small { AreSmall sums.now }
    ensures { OnOk result (found.new ≡ found.old ++ end_by rule.now items.now sums.now place is_forced) }
{
    if let Some(penalty) = penalty_of_break(items, place as usize) {
        if fits(rule, sums, is_forced) {
            found.push(end_of(rule, sums, place, penalty))?;
        }
    }
    Ok(())
}

// The first box from a place on, or the end.
fn next_box(items: &[HItem], start: usize) -> usize
    requires { start ≤ length items.now }
    ensures low { start ≤ result }
    ensures high { result ≤ length items.now }
    ensures none { holds_box (drop start (take result items.now)) ≡ false }
    ensures some { result < length items.now → passes_at is_hbox items.now result ≡ true }
{
    let mut place = start;
    'front: while place < items.len() {
        if is_box(&items[place]) {
            return place;
        }
        place += 1;
    }
    place
}

/// The lines from a place of a paragraph that may stand: where each ends, the nearest first, and its demerits. `box_end`
/// and `falls` are those of the paragraph.
///
/// It looks no further than the first forced break behind the first box, and than where each longer line is over.
pub fn ends_from(
    alloc: Global,
    rule: &LineRule,
    items: &[HItem],
    box_end: usize,
    falls: &[Fall],
    start: usize,
) -> Result<LineEnds, AllocError>
    requires para { IsPara items.now }
    requires start { start ≤ length items.now }
    requires box_end { box_end ≡ box_end_of items.now }
    requires falls { falls.now ≡ falls_of items.now }
    ensures { IfOk result (λ ends. ends ≡ ends_from_place rule.now items.now start) }
{
    let mut found = LineEnds::new(alloc);
    let mut sums = LineSums::none();
    let first = next_box(items, start);
    let mut place = first;
    'along: while place < items.len() {
        sums.add(&items[place]);
        place += 1;
        let is_forced = is_forced(items, box_end, place);
        push_end(rule, items, &sums, place as u32, is_forced, &mut found)?;
        if is_forced || stays_over(rule.width, items, falls, place, &sums) {
            return Ok(found);
        }
    }
    Ok(found)
}
