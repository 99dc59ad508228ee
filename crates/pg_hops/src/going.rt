//! One step along a stretch.
ghost use Rattle.std.specs.Prelude.{◌≡◌, ◌+◌, ◌≤◌, ◌^◌, ℤ, List, Some, IfSome, IfNone, length};
ghost use Rattle.std.specs.Option.{option_copied};
ghost use Rattle.pg_list.specs.declared.blocks.Block.{Block as ABlock};
ghost use Rattle.pg_rules.specs.Legal.{document};
ghost use Rattle.pg_style.specs.Values.{StyleValue};
ghost use Rattle.pg_column.specs.Passed.{crossed, is_end_here};
ghost use Rattle.pg_hops.specs.Ahead.{item_ahead, items_ahead, place_ahead};
ghost use Rattle.pg_hops.specs.View.{IsFor, view};
ghost use Rattle.pg_hops.specs.Goes.{Counts, Goes, Stops};
ghost use Rattle.pg_hops.specs.Hop.{MayHop, moved};
ghost use Rattle.pg_hops.specs.Index.{AreHops};
ghost use Rattle.pg_hops.specs.Needs.{AreNeeds};

use crate::hop::Hop;
use crate::index::BreakIndex;
use crate::needs::Needs;
use crate::{Cursor, Passed};
use pg_list::{Galley, Item};
use pg_style::Style;

/// The hop from a cursor, where one is kept and a box was passed.
pub fn hop_ahead<'a>(index: &'a BreakIndex, passed: &Passed, at: Cursor) -> Option<&'a Hop>
    ensures { (blocks : List ABlock) (maxdepth : ℤ) → AreHops blocks maxdepth index.now →
        MayHop blocks maxdepth (view passed.now) at (option_copied result) }
{
    if passed.sums.has_box() {
        index.hop(at)
    } else {
        None
    }
}

/// Past the items of a way.
pub(crate) fn add_items(way: &Hop, passed: &mut Passed)
    requires few { (passed.old.sums.count + way.now.added.count ≤ 2 ^ 20)
        × (passed.old.notes.count + way.now.added.count ≤ 2 ^ 20) }
    ensures value { view passed.new ≡ moved (view passed.old) way.now.added.shift }
    ensures kept { (passed.new.sums.topskip ≡ passed.old.sums.topskip)
        × (passed.new.sums.maxdepth ≡ passed.old.sums.maxdepth) }
    ensures counts { (passed.new.sums.count ≡ passed.old.sums.count + way.now.added.count)
        × (passed.new.notes.count ≡ passed.old.notes.count + way.now.added.count) }
{
    let added = way.added();
    passed.sums.stays_bounded();
    let totals = added.moved(passed.sums.totals());
    passed.sums.take_totals(totals, added.count());
    passed.notes.count_others(added.count());
}

// Past a break, of whose place the needs are at hand, and the items of a hop from it.
fn hop_with(needs: &Needs, hop: &Hop, passed: &mut Passed)
    requires few { (passed.old.sums.count + hop.now.added.count ≤ 2 ^ 20)
        × (passed.old.notes.count + hop.now.added.count ≤ 2 ^ 20) }
    ensures value { (style : StyleValue) → AreNeeds style (view passed.old) needs.now →
        view passed.new ≡ moved (crossed style (view passed.old)) hop.now.added.shift }
    ensures style { (style : StyleValue) → IsFor style passed.old → IsFor style passed.new }
    ensures counts { (passed.new.sums.count ≡ passed.old.sums.count + hop.now.added.count)
        × (passed.new.notes.count ≡ passed.old.notes.count + hop.now.added.count) }
{
    passed.cross_with(needs);
    add_items(hop, passed);
}

// Past a break and the items of a hop from it.
fn hop_over(style: &Style, hop: &Hop, passed: &mut Passed)
    requires style { IsFor style.now passed.old }
    requires few { (passed.old.sums.count + hop.now.added.count ≤ 2 ^ 20)
        × (passed.old.notes.count + hop.now.added.count ≤ 2 ^ 20) }
    ensures value { view passed.new ≡ moved (crossed style.now (view passed.old)) hop.now.added.shift }
    ensures style { IsFor style.now passed.new }
    ensures counts { (passed.new.sums.count ≡ passed.old.sums.count + hop.now.added.count)
        × (passed.new.notes.count ≡ passed.old.notes.count + hop.now.added.count) }
{
    passed.cross(style);
    add_items(hop, passed);
}

/// Past a break behind a box and all items of the hop from it. Answers where the hop leads.
///
/// Conditions: the hop leads on from the cursor, a box was passed, the needs are those of the cursor's place behind what was
/// passed, and with the items ahead at most 2^20 are counted.
pub fn hop_on(
    galley: &Galley,
    style: &Style,
    at: Cursor,
    hop: &Hop,
    needs: &Needs,
    passed: &mut Passed,
) -> Cursor
    requires style { IsFor style.now passed.old }
    requires needs { AreNeeds style.now (view passed.old) needs.now }
    requires hop { MayHop galley.now.blocks style.now.maxdepth (view passed.old) at (Some hop.now) }
    requires few { (passed.old.sums.count + length (items_ahead galley.now.blocks at) ≤ 2 ^ 20)
        × (passed.old.notes.count + length (items_ahead galley.now.blocks at) ≤ 2 ^ 20) }
    ensures goes { Goes (document galley.now style.now) at result (view passed.old) (view passed.new) }
    ensures notes { passed.new.notes.sums ≡ passed.old.notes.sums }
    ensures style { IsFor style.now passed.new }
    ensures counts { Counts galley.now.blocks at result passed.old.sums.count passed.new.sums.count
        × Counts galley.now.blocks at result passed.old.notes.count passed.new.notes.count }
{
    // The blocks keep their shape.
    let _shape = galley.blocks().as_slice();
    hop_with(needs, hop, passed);
    hop.to()
}

/// One step from a cursor, past its next item. Answers where the step leads; none where the break at its place is forced, and
/// nothing more is passed then.
///
/// Conditions: the item is the cursor's next one, it is told whether its place is a break behind a box, and with the items
/// ahead at most 2^20 are counted.
pub fn go(
    galley: &Galley,
    style: &Style,
    at: Cursor,
    is_end: bool,
    item: &Item,
    passed: &mut Passed,
) -> Option<Cursor>
    requires style { IsFor style.now passed.old }
    requires item { item_ahead galley.now.blocks at ≡ Some item.now }
    requires end { is_end ≡ is_end_here galley.now.blocks (view passed.old) (place_ahead at) }
    requires few { (passed.old.sums.count + length (items_ahead galley.now.blocks at) ≤ 2 ^ 20)
        × (passed.old.notes.count + length (items_ahead galley.now.blocks at) ≤ 2 ^ 20) }
    ensures goes { IfSome result (λ to. Goes (document galley.now style.now) at to (view passed.old) (view passed.new)) }
    ensures stops { IfNone result (Stops (document galley.now style.now) at (view passed.old)) }
    ensures same { IfNone result (passed.new ≡ passed.old) }
    ensures style { IsFor style.now passed.new }
    ensures counts { IfSome result (λ to.
        Counts galley.now.blocks at to passed.old.sums.count passed.new.sums.count
        × Counts galley.now.blocks at to passed.old.notes.count passed.new.notes.count) }
{
    // The blocks keep their shape.
    let _shape = galley.blocks().as_slice();
    if passed.pass(galley, style, at.place(), is_end, item) {
        Some(at.next(galley))
    } else {
        None
    }
}

/// One step from a cursor: past all items of the hop from it, where one is told, or past its next item. Answers where the
/// step leads; none where the break at its place is forced, and nothing more is passed then.
///
/// Conditions: the item is the cursor's next one, and with the items ahead at most 2^20 are counted.
pub(crate) fn go_by(
    galley: &Galley,
    style: &Style,
    at: Cursor,
    item: &Item,
    hop: Option<&Hop>,
    passed: &mut Passed,
) -> Option<Cursor>
    requires style { IsFor style.now passed.old }
    requires item { item_ahead galley.now.blocks at ≡ Some item.now }
    requires hop { MayHop galley.now.blocks style.now.maxdepth (view passed.old) at (option_copied hop) }
    requires few { (passed.old.sums.count + length (items_ahead galley.now.blocks at) ≤ 2 ^ 20)
        × (passed.old.notes.count + length (items_ahead galley.now.blocks at) ≤ 2 ^ 20) }
    ensures goes { IfSome result (λ to. Goes (document galley.now style.now) at to (view passed.old) (view passed.new)) }
    ensures stops { IfNone result (Stops (document galley.now style.now) at (view passed.old)) }
    ensures same { IfNone result (passed.new ≡ passed.old) }
    ensures style { IsFor style.now passed.new }
    ensures counts { IfSome result (λ to.
        Counts galley.now.blocks at to passed.old.sums.count passed.new.sums.count
        × Counts galley.now.blocks at to passed.old.notes.count passed.new.notes.count) }
{
    // The blocks keep their shape.
    let _shape = galley.blocks().as_slice();
    match hop {
        Some(hop) => {
            hop_over(style, hop, passed);
            Some(hop.to())
        }
        None => {
            let is_end = passed.ends_at(galley, at, at.place(), item);
            go(galley, style, at, is_end, item, passed)
        }
    }
}
