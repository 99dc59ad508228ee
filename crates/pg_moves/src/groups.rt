//! The steps to the ends of a layout, group by group.
ghost use Rattle.std.specs.Prelude.{◌≡◌, take, drop, OnOk};
ghost use Rattle.std.specs.List.{AllByRecursion};
ghost use Rattle.pg_candidates.specs.declared.room_end.RoomEnd.{RoomEnd as ARoomEnd};
ghost use Rattle.pg_rules.specs.IsState.{IsState};
ghost use Rattle.pg_sources.specs.Document.{before_of};
ghost use Rattle.pg_rooms.specs.PlaceEnds.{AreGroups};
ghost use Rattle.pg_states.specs.Settling.{known_of};
ghost use Rattle.pg_moves.specs.Columns.{IsLaid, doc_at, steps_to};
ghost use Rattle.pg_moves.specs.Thinned.{Adds};

use crate::column::TextColumn;
use crate::steps::add_ends;
use pg_candidates::RoomEnd;
use pg_rooms::Group;
use pg_small::{SmallMove, SmallState};
use pg_sources::Before;
use pg_states::{PageMarks, may_end, settle};
use pg_table::{StepList, Wants};
use std::alloc::AllocError;

// Adds the wanted steps to ends before each of which, and before whose barriers, the same floats are called.
fn add_group<W: Wants<State = SmallState, Marks = PageMarks>>(
    column: &TextColumn<'_>,
    before: &Before,
    ends: &[RoomEnd],
    wants: &W,
    steps: &mut StepList<SmallState, SmallMove>,
) -> Result<(), AllocError>
    requires own { IsState (doc_at column.now) column.now.state.now }
    requires known { column.now.known.now ≡ known_of (doc_at column.now) column.now.state.now }
    requires laid { IsLaid column.now }
    ensures { OnOk result (AllByRecursion (λ (end : ARoomEnd).
        before.now ≡ before_of (doc_at column.now) end.to) ends.now →
        Adds (W.spares wants.now) steps.old (steps_to column.now ends.now) steps.new) }
{
    let sources = column.sources;
    let known = column.known;
    let after = &column.laid.after;
    if !may_end(sources, known, before, after.as_slice()) {
        return Ok(());
    }
    match settle(
        sources,
        column.state,
        known,
        before.called.as_slice(),
        after,
    )? {
        None => Ok(()),
        Some(settled) => add_ends(column, ends, &settled, wants, steps),
    }
}

// The first ends.
fn first_ends(ends: &[RoomEnd], count: usize) -> &[RoomEnd]
    ensures { result.now ≡ take count ends.now }
{
    match ends.get(..count) {
        Some(first) => first,
        None => ends,
    }
}

// The ends behind the first ones.
fn later_ends(ends: &[RoomEnd], count: usize) -> &[RoomEnd]
    ensures { result.now ≡ drop count ends.now }
{
    match ends.get(count..) {
        Some(later) => later,
        None => &[],
    }
}

/// Adds the wanted steps to the ends of a layout at which the column may end.
pub fn add_groups<W: Wants<State = SmallState, Marks = PageMarks>>(
    column: &TextColumn<'_>,
    groups: &[Group],
    ends: &[RoomEnd],
    wants: &W,
    steps: &mut StepList<SmallState, SmallMove>,
) -> Result<(), AllocError>
    requires own { IsState (doc_at column.now) column.now.state.now }
    requires known { column.now.known.now ≡ known_of (doc_at column.now) column.now.state.now }
    requires laid { IsLaid column.now }
    ensures { OnOk result (AreGroups (doc_at column.now) groups.now ends.now →
        Adds (W.spares wants.now) steps.old (steps_to column.now ends.now) steps.new) }
{
    let mut left = groups;
    let mut rest = ends;
    'groups: while let [group, after @ ..] = left {
        let first = first_ends(rest, group.count);
        add_group(column, &group.before, first, wants, steps)?;
        rest = later_ends(rest, group.count);
        left = after;
    }
    Ok(())
}
