//! The hop and the leap from a place, found item by item.
ghost use Rattle.std.specs.Prelude.{◌≡◌, ◌≤◌, ◌^◌, ◌&&◌, not, if◌then◌else◌, true, false, IfSome, Some, is_some, nat_abs, pos, unwrap_or};
ghost use Rattle.pg_list.specs.Break.{is_forcing as is_forcing_of};
ghost use Rattle.pg_breaks.specs.Near.{place_penalty};
ghost use Rattle.pg_hops.specs.Ahead.{item_ahead, place_ahead};
ghost use Rattle.pg_list.specs.Shapes.{is_insert as is_insert_of};
ghost use Rattle.pg_column.specs.Passed.{raised as raised_of};
ghost use Rattle.pg_hops.specs.Hop.{IsHop, ends_hop};
ghost use Rattle.pg_hops.specs.Leap.{IsLeap, asked as asked_of, may_cross as may_cross_of};

use crate::hop::Hop;
use crate::leap::{Leap, raised};
use crate::{Added, Cursor, Shift};
use pg_breaks::is_forcing;
use pg_list::{Galley, Item};
use pg_scaled::minus;
use pg_style::Style;

// The most items that a hop passes.
const LONGEST: u32 = 64;

/// The most items that a leap passes.
pub(crate) const FARTHEST: u32 = 256;

/// Whether an item is an insert.
pub(crate) fn is_insert(item: &Item) -> bool
    ensures { result ≡ is_insert_of item.now }
{
    match item {
        Item::Insert { .. } => true,
        _ => false,
    }
}

// Whether a cursor is at a break that its next item does not force.
fn is_free(galley: &Galley, at: Cursor, item: &Item) -> bool
    requires { item_ahead galley.now.blocks at ≡ Some item.now }
    ensures at_break { result ≡ true → is_some (place_penalty galley.now.blocks (place_ahead at)) ≡ true }
    ensures free { result ≡ true → is_forcing_of item.now ≡ false }
{
    at.is_break(galley, item) && !is_forcing(item)
}

// Whether a hop ends before an item.
fn ends_here(galley: &Galley, at: Cursor, item: &Item) -> bool
    requires { item_ahead galley.now.blocks at ≡ Some item.now }
    ensures { result ≡ ends_hop galley.now.blocks at item.now }
{
    is_insert(item) || at.is_break(galley, item)
}

/// The hop from a cursor. None where its next item is at no break, or forces one.
pub(crate) fn hop_from(galley: &Galley, style: &Style, from: Cursor) -> Option<Hop>
    ensures { IfSome result (λ hop. IsHop galley.now.blocks style.now.maxdepth from hop) }
{
    let first = from.item(galley)?;
    if !is_free(galley, from, first) {
        return None;
    }
    let mut added = Added::start();
    added.add(style, first);
    let mut at = from.next(galley);
    'ahead: while added.count() < LONGEST {
        let Some(item) = at.item(galley) else {
            break;
        };
        if ends_here(galley, at, item) {
            break;
        }
        added.add(style, item);
        at = at.next(galley);
    }
    Hop::new(at, &added)
}

// Whether a leap passes a break before an item, behind what was added.
fn may_cross(shift: &Shift, item: &Item) -> bool
    ensures { result ≡ may_cross_of shift.now item.now }
{
    !is_forcing(item) && (shift.depth.is_some() && shift.shrink >= 0)
}

// Whether a leap passes an item, which is a break or not, behind what was added.
fn may_leap(added: &Added, is_break: bool, item: &Item) -> bool
    ensures { result ≡ (not (is_insert_of item.now)
        && (if is_break then may_cross_of added.now.shift item.now else true)) }
{
    !is_insert(item) && (!is_break || may_cross(&added.shift(), item))
}

// The depth that hangs, where there is one.
fn hanging(shift: &Shift) -> i64
    requires { IfSome shift.now.depth (λ depth. nat_abs depth ≤ 2 ^ 30) }
    ensures value { result ≡ unwrap_or shift.now.depth (pos 0) }
    ensures size { nat_abs result ≤ 2 ^ 30 }
{
    match shift.depth {
        Some(depth) => depth,
        None => 0,
    }
}

// What a break asks of a room behind what was added.
fn asked(added: &Added) -> i64
    ensures value { result ≡ asked_of added.now.shift }
    ensures size { nat_abs result ≤ 2 ^ 56 }
{
    let shift = added.shift();
    minus(minus(shift.height, hanging(&shift)), shift.shrink)
}

// The most that was asked so far, with what an item asks if it is a break.
fn with_asked(highest: Option<i64>, is_break: bool, added: &Added) -> Option<i64>
    requires { IfSome highest (λ most. nat_abs most ≤ 2 ^ 56) }
    ensures value { result ≡ (if is_break then raised_of highest (asked_of added.now.shift) else highest) }
    ensures size { IfSome result (λ most. nat_abs most ≤ 2 ^ 56) }
{
    if is_break {
        Some(raised(highest, asked(added)))
    } else {
        highest
    }
}

/// The leap from a cursor, which ends at the first break behind enough items. None where its next item is at no break,
/// or forces one, and where no break behind it is passed.
pub(crate) fn leap_from(galley: &Galley, style: &Style, from: Cursor, enough: u32) -> Option<Leap>
    ensures { IfSome result (λ leap. IsLeap galley.now.blocks style.now.maxdepth from leap) }
{
    let first = from.item(galley)?;
    if !is_free(galley, from, first) {
        return None;
    }
    let mut added = Added::start();
    added.add(style, first);
    let mut at = from.next(galley);
    let mut highest = None;
    'ahead: while added.count() < FARTHEST {
        let Some(item) = at.item(galley) else {
            break;
        };
        let is_break = at.is_break(galley, item);
        if is_break && enough <= added.count() {
            break;
        }
        if !may_leap(&added, is_break, item) {
            break;
        }
        highest = with_asked(highest, is_break, &added);
        added.add(style, item);
        at = at.next(galley);
    }
    Some(Leap::new(Hop::new(at, &added)?, highest?))
}
