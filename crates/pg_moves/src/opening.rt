//! All columns that may follow a state.
ghost use Rattle.std.specs.Prelude.{◌≡◌, ◌++◌, ◌||◌, [], is_some, length, nat_lt, IfOk, OnOk};
ghost use Rattle.pg_hops.specs.Index.{AreHops};
ghost use Rattle.pg_rules.specs.Floats.{float_numbers, total_count};
ghost use Rattle.pg_rules.specs.IsState.{IsPlace, IsState};
ghost use Rattle.law_space.specs.ReachAt.{reach_at};
ghost use Rattle.law_space.specs.PageSpace.{page_meaning};
ghost use Rattle.pg_table.specs.Space.{AreMoves, AreWanted};
ghost use Rattle.pg_candidates.specs.Nears.{AreNearOnPages};
ghost use Rattle.law_moves.specs.Listed.{listed_floats};
ghost use Rattle.pg_sources.specs.Document.{counts_of, doc_of};
ghost use Rattle.pg_rooms.specs.KeptLaid.{AreLayouts};
ghost use Rattle.pg_rooms.specs.PlaceEnds.{ArePlaceEnds};
ghost use Rattle.pg_states.specs.Settling.{known_of};

use crate::column::Opening;
use crate::stays::add_stays;
use crate::texts::text_steps;
use law_moves::listed_steps_are_moves;
use law_space::reach_laws::reach_is_the_greatest;
use pg_hops::BreakIndex;
use pg_list::Place;
use pg_plan::State;
use pg_rooms::{Calls, Layouts, PlaceEnds, has_floats};
use pg_small::{SmallMove, SmallState};
use pg_sources::Sources;
use pg_states::{Known, PageMarks, known};
use pg_table::{EveryMove, Opened, StepList, Wants};
use pg_walk::{PlaceWalk, walk_from};
use std::alloc::AllocError;

/// Where the columns of text from a place may end, and how far they may go.
///
/// Conditions: the place is the galley's, and the index is of the galley and style. The one refusal is want of memory.
pub fn walk_place(
    sources: &Sources<'_>,
    index: &BreakIndex,
    from: Place,
) -> Result<PlaceWalk, AllocError>
    requires hops { AreHops sources.now.galley.now.blocks sources.now.style.now.maxdepth index.now }
    requires place { IsPlace sources.now.galley.now.blocks from }
    ensures near { IfOk result (λ walk. AreNearOnPages (doc_of sources.now) from walk.near) }
    ensures reach { IfOk result (λ walk. walk.reach ≡ reach_at (doc_of sources.now) from) }
{
    reach_is_the_greatest(sources.galley, sources.style);
    walk_from(sources.alloc, sources.galley, sources.style, index, from)
}

// Whether a column without text may have a float, or a wide area above it.
fn may_have_floats(sources: &Sources<'_>, state: &State, known: &Known) -> bool
    requires { length known.now.waits ≡ length (float_numbers sources.now.style.now) }
    ensures { result ≡ (nat_lt 0 (total_count known.now.waits) || is_some state.now.wide) }
{
    has_floats(sources, &known.waits) || state.wide.is_some()
}

// Adds the steps of the columns without text.
fn add_floats(
    sources: &Sources<'_>,
    state: &State,
    known: &Known,
    layouts: &mut Layouts,
    steps: &mut StepList<SmallState, SmallMove>,
) -> Result<(), AllocError>
    requires own { IsState (doc_of sources.now) state.now }
    requires known { known.now ≡ known_of (doc_of sources.now) state.now }
    requires layouts { AreLayouts (doc_of sources.now) layouts.old }
    ensures steps { OnOk result (steps.new ≡ steps.old ++ listed_floats (doc_of sources.now) state.now) }
    ensures layouts { OnOk result (AreLayouts (doc_of sources.now) layouts.new) }
{
    if !may_have_floats(sources, state, known) {
        return Ok(());
    }
    let at = layouts.find_stays(sources, state, &known.called)?;
    let laid = layouts.stays(at);
    add_stays(sources, state, known, laid, steps)
}

/// The columns that may follow a state and are wanted, from the layouts that are kept and from what is kept of its place: each
/// once with its best picks, and how far an edit can be felt there. What it works out is kept. The steps stand in a list that has none yet. Columns without text are all made, wanted or not.
///
/// Condition: it is a state of the galley. The one refusal is want of memory.
pub fn open_by<'a, W: Wants<State = SmallState, Marks = PageMarks>>(
    sources: &'a Sources<'a>,
    state: &'a State,
    layouts: &mut Layouts,
    kept: &mut PlaceEnds,
    wants: &W,
    emptied: StepList<SmallState, SmallMove>,
) -> Result<Opened<SmallState, SmallMove>, AllocError>
    requires own { IsState (doc_of sources.now) state.now }
    requires reach { kept.old.walk.reach ≡ reach_at (doc_of sources.now) state.now.place }
    requires counts { kept.old.counts ≡ counts_of (doc_of sources.now) state.now.place }
    requires layouts { AreLayouts (doc_of sources.now) layouts.old }
    requires emptied { emptied ≡ [] }
    ensures moves { IfOk result (λ it. ArePlaceEnds (doc_of sources.now) state.now.place kept.old →
        AreWanted (page_meaning (doc_of sources.now)) state.now (W.spares wants.now) it.steps) }
    ensures reach { IfOk result (λ it. it.reach ≡ reach_at (doc_of sources.now) state.now.place) }
    ensures kept { OnOk result (ArePlaceEnds (doc_of sources.now) state.now.place kept.old →
        ArePlaceEnds (doc_of sources.now) state.now.place kept.new) }
    ensures walk { OnOk result (kept.new.walk ≡ kept.old.walk) }
    ensures counts { OnOk result (kept.new.counts ≡ kept.old.counts) }
    ensures layouts { OnOk result (AreLayouts (doc_of sources.now) layouts.new) }
{
    listed_steps_are_moves(sources.galley, sources.style);
    let reach = kept.walk.reach;
    let waiting = known(sources, state, &kept.counts)?;
    let opening = Opening {
        sources: &*sources,
        state: &*state,
        known: &waiting,
    };
    let mut steps = text_steps(&opening, layouts, kept, wants, emptied)?;
    add_floats(sources, state, &waiting, layouts, &mut steps)?;
    Ok(Opened { steps, reach })
}

/// All columns that may follow a state, with a walk of its own.
pub fn open(
    sources: &Sources<'_>,
    state: &State,
) -> Result<Opened<SmallState, SmallMove>, AllocError>
    requires { IsState (doc_of sources.now) state.now }
    ensures moves { IfOk result (λ it. AreMoves (page_meaning (doc_of sources.now)) state.now it.steps) }
    ensures reach { IfOk result (λ it. it.reach ≡ reach_at (doc_of sources.now) state.now.place) }
{
    let index = BreakIndex::empty(sources.alloc);
    let walk = walk_place(sources, &index, state.place)?;
    let counts = sources.counts_at(state.place, walk.reach)?;
    let mut kept = PlaceEnds::new(sources.alloc, walk, Calls::none(sources.alloc), counts);
    open_by(
        sources,
        state,
        &mut Layouts::none(sources.alloc),
        &mut kept,
        &EveryMove::<SmallState, PageMarks>::new(),
        StepList::new(sources.alloc),
    )
}
