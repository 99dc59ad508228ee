//! The columns that follow a state.
ghost use Rattle.std.specs.Prelude.{◌≡◌, [], IfOk, OnOk};
ghost use Rattle.law_space.specs.PageSpace.{page_meaning};
ghost use Rattle.law_space.specs.ReachAt.{reach_at};
ghost use Rattle.pg_rooms.specs.KeptLaid.{AreLayouts};
ghost use Rattle.pg_rooms.specs.PlaceEnds.{ArePlaceEnds};
ghost use Rattle.pg_rules.specs.IsState.{IsState};
ghost use Rattle.pg_sources.specs.Document.{counts_of, doc_of};
ghost use Rattle.pg_table.specs.Space.{AreWanted};

use pg_plan::State;
use pg_rooms::{Layouts, PlaceEnds};
use pg_small::{SmallMove, SmallState};
use pg_sources::Sources;
use pg_states::PageMarks;
use pg_table::{Opened, StepList, Wants};
use std::alloc::AllocError;

/// The columns that are wanted.
pub fn open_by<W: Wants<State = SmallState, Marks = PageMarks>>(
    sources: &Sources<'_>,
    state: &State,
    layouts: &mut Layouts,
    kept: &mut PlaceEnds,
    wants: &W,
    emptied: StepList<SmallState, SmallMove>,
) -> Result<Opened<SmallState, SmallMove>, AllocError>
    requires own { IsState (doc_of sources.now) state.now }
    requires reach { kept.old.walk.reach ≡ reach_at (doc_of sources.now) state.now.place }
    requires counts { kept.old.counts ≡ counts_of (doc_of sources.now) state.now.place }
    requires layouts { AreLayouts (doc_of sources.now) layouts.old }
    requires emptied { emptied ≡ [] }
    ensures moves { IfOk result (λ it. ArePlaceEnds (doc_of sources.now) state.now.place kept.old →
        AreWanted (page_meaning (doc_of sources.now)) state.now (W.spares wants.now) it.steps) }
    ensures reach { IfOk result (λ it. it.reach ≡ reach_at (doc_of sources.now) state.now.place) }
    ensures kept { OnOk result (ArePlaceEnds (doc_of sources.now) state.now.place kept.old →
        ArePlaceEnds (doc_of sources.now) state.now.place kept.new) }
    ensures walk { OnOk result (kept.new.walk ≡ kept.old.walk) }
    ensures counts { OnOk result (kept.new.counts ≡ kept.old.counts) }
    ensures layouts { OnOk result (AreLayouts (doc_of sources.now) layouts.new) }
{
    pg_moves::open_by(sources, state, layouts, kept, wants, emptied)
}
