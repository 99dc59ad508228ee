//! Past several breaks at once.
ghost use Rattle.std.specs.Prelude.{◌≡◌, ◌+◌, ◌≤◌, ◌^◌, true, ℤ, pos, ◌≤ℤ◌, List, Some, IfSome, IfNone, length};
ghost use Rattle.std.specs.Option.{option_copied};
ghost use Rattle.pg_list.specs.declared.blocks.Block.{Block};
ghost use Rattle.pg_rules.specs.Legal.{document};
ghost use Rattle.pg_column.specs.Passed.{fits};
ghost use Rattle.pg_hops.specs.Ahead.{items_ahead};
ghost use Rattle.pg_hops.specs.View.{IsFor, view};
ghost use Rattle.pg_hops.specs.Goes.{Counts};
ghost use Rattle.pg_hops.specs.Hop.{moved};
ghost use Rattle.pg_hops.specs.Index.{AreHops};
ghost use Rattle.pg_hops.specs.Leap.{GoesFar, Serves, leapt};

use crate::going::add_items;
use crate::index::BreakIndex;
use crate::leap::{Leap, raised};
use crate::{Cursor, Passed};
use pg_list::Galley;
use pg_scaled::plus;
use pg_style::Style;

// The leap from a cursor, where one is kept, a box was passed, and the shrink is not negative.
fn leap_ahead<'a>(index: &'a BreakIndex, passed: &Passed, at: Cursor) -> Option<&'a Leap>
    ensures { (blocks : List Block) (maxdepth : ℤ) → AreHops blocks maxdepth index.now →
        IfSome (option_copied result) (Serves blocks maxdepth (view passed.now) at) }
{
    let leap = index.leap(at)?;
    if passed.sums.has_box() && passed.sums.shrink() >= 0 {
        Some(leap)
    } else {
        None
    }
}

// The least room that lets all breaks of a leap pass.
fn bound_behind(style: &Style, leap: &Leap, passed: &Passed) -> i64
    requires { pos 0 ≤ℤ passed.now.sums.totals.shrink }
    ensures { Some result ≡ (leapt style.now (view passed.now) leap.now).bound }
{
    passed.sums.stays_bounded();
    let least = passed.least_room(style);
    let depth = passed.sums.totals().depth;
    let most = plus(plus(least, depth), leap.highest());
    raised(Some(raised(passed.bound, least)), most)
}

// Whether a room is not below a bound.
fn lets_pass(room: i64, bound: i64) -> bool
    ensures { result ≡ fits (Some bound) room }
{
    bound <= room
}

// Past the items and breaks of a leap, with the bound behind it.
fn take_leap(leap: &Leap, bound: i64, passed: &mut Passed)
    requires few { (passed.old.sums.count + leap.now.way.added.count ≤ 2 ^ 20)
        × (passed.old.notes.count + leap.now.way.added.count ≤ 2 ^ 20) }
    ensures value { view passed.new
        ≡ record (moved (view passed.old) leap.now.way.added.shift) { bound = Some bound } }
    ensures kept { (passed.new.sums.topskip ≡ passed.old.sums.topskip)
        × (passed.new.sums.maxdepth ≡ passed.old.sums.maxdepth) }
    ensures counts { (passed.new.sums.count ≡ passed.old.sums.count + leap.now.way.added.count)
        × (passed.new.notes.count ≡ passed.old.notes.count + leap.now.way.added.count) }
{
    add_items(leap.way(), passed);
    passed.bound = Some(bound);
}

/// Past a leap from a cursor, where one is kept that serves and that the greatest room lets pass: where it leads. Else nothing
/// is passed.
pub(crate) fn leap_over(
    galley: &Galley,
    style: &Style,
    index: &BreakIndex,
    top: i64,
    at: Cursor,
    passed: &mut Passed,
) -> Option<Cursor>
    requires hops { AreHops galley.now.blocks style.now.maxdepth index.now }
    requires style { IsFor style.now passed.old }
    requires few { (passed.old.sums.count + length (items_ahead galley.now.blocks at) ≤ 2 ^ 20)
        × (passed.old.notes.count + length (items_ahead galley.now.blocks at) ≤ 2 ^ 20) }
    ensures far { IfSome result (λ to.
        GoesFar (document galley.now style.now) top at to (view passed.old) (view passed.new)) }
    ensures bound { IfSome result (λ _. fits passed.new.bound top ≡ true) }
    ensures style { IsFor style.now passed.new }
    ensures counts { IfSome result (λ to.
        Counts galley.now.blocks at to passed.old.sums.count passed.new.sums.count
        × Counts galley.now.blocks at to passed.old.notes.count passed.new.notes.count) }
    ensures same { IfNone result (passed.new ≡ passed.old) }
{
    // The blocks keep their shape.
    let _shape = galley.blocks().as_slice();
    let leap = leap_ahead(index, passed, at)?;
    let bound = bound_behind(style, leap, passed);
    if !lets_pass(top, bound) {
        return None;
    }
    take_leap(leap, bound, passed);
    Some(leap.way().to())
}
