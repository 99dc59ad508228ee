//! The space of pages of one document, which keeps the walk of the place that was opened last, what stands behind the front
//! of the next choice, and what is called before all ends.
ghost use Rattle.std.specs.Prelude.{◌≡◌, ◌+◌, ◌<ℤ◌, ◌≤ℤ◌, ◌^◌, [], true, false, is_some, pos, IfOk};
ghost use Rattle.pg_floats.specs.AreFloats.{AreFloats};
ghost use Rattle.pg_hops.specs.Index.{AreHops};
ghost use Rattle.pg_hops.specs.OneProof.{AreHops_prop};
ghost use Rattle.pg_list.specs.GalleyValue.{GalleyValue};
ghost use Rattle.pg_sources.specs.Document.{counts_of, doc_of};
ghost use Rattle.law_space.specs.ReachAt.{reach_at};
ghost use Rattle.pg_rooms.specs.Calls.{AreCalls};
ghost use Rattle.pg_rooms.specs.KeptLaid.{AreLayouts};
ghost use Rattle.pg_rooms.specs.OneProof.{AreLayouts_prop};
ghost use Rattle.pg_rooms.specs.PlaceEnds.{ArePlaceEnds};
ghost use Rattle.law_walk.specs.Reached.{quiet, tallest};
ghost use Rattle.pg_walk.specs.Blocks.{IsBegun};
ghost use Rattle.pg_walk.specs.Fronts.{ComesTo, is_same_state};
ghost use Rattle.pg_walk.specs.Straight.{TellsAll};
ghost use Rattle.pg_walk.specs.Meaning.{IsOwn, state_of};
ghost use Rattle.pg_rules.specs.IsState.{IsPlace, IsState};
ghost use Rattle.pg_rules.specs.Legal.{document};
ghost use Rattle.pg_rules.specs.Reach.{IsReach};
ghost use Rattle.law_space.specs.PageSpace.{page_meaning};
ghost use Rattle.pg_style.specs.Plain.{plain};
ghost use Rattle.pg_style.specs.Values.{StyleValue};
ghost use Rattle.pg_table.specs.Space.{AreWanted};
ghost use Rattle.pg_space.specs.OneProof.{counts_set, galley_set, style_set};

use crate::fronts::{Fronts, KeptFront, KeptReach};
use crate::space::PageSpace;
use law_space::reach_laws::reach_is_the_greatest;
use pg_candidates::{NearList, RoomEnd};
use pg_floats::FloatList;
use pg_hops::{BreakIndex, State as FrontState};
use pg_list::{Galley, Place};
use pg_moves::open_by;
use pg_plan::{Counts, PageKey, State};
use pg_rooms::{Behind, Calls, FrontEnds, Layouts, PlaceEnds};
use pg_small::{SmallMove, SmallState};
use pg_sources::PlaceCounts;
use pg_states::{PageMarks, no_worse};
use pg_style::Style;
use pg_table::{EveryMove, Offering, Opened, Space, StepList, Steps, Wants};
use pg_walk::{
    FirstWalk, Front, LoweredState, PlaceWalk, fronts_serve, lowered, reach_behind, reaches_serve,
    walk_behind, walk_first,
};
use std::alloc::{AllocError, Global};
use std::cell::RefCell;
use std::cmp::Ordering;
use std::marker::{Brand, PhantomData};
use std::sync::ledger::Ledger;

/// The galley and the style of which what is kept tells.
pub trait Document {
    ghost galley: { GalleyValue };

    ghost style: { StyleValue };
}

impl Document for Brand {
    ghost galley = { record { width = pos 0; blocks = [] } };

    ghost style = { plain (pos 65536) };
}

/// What is kept of a place of the document, of layouts, and behind the front of the next choice for columns from other places.
#[derive(Drop)]
struct Kept<D: Document> {
    from: Place,
    /// Behind pointers, since what is kept is handed on for each state.
    ends: Box<PlaceEnds>,
    layouts: Box<Layouts>,
    fronts: Box<Fronts<D>>,
    of: PhantomData<D>,
    ghost right: { ∥ ArePlaceEnds (document D.galley D.style) from ends.value ∥₁ },
    ghost laid: { AreLayouts (document D.galley D.style) layouts.value } by { AreLayouts_prop (document D.galley D.style) layouts.value },
    ghost reach: { ends.value.walk.reach ≡ reach_at (document D.galley D.style) from },
    ghost counts: { ends.value.counts ≡ counts_of (document D.galley D.style) from } by { counts_set ends.value.counts (counts_of (document D.galley D.style) from) },
}

/// What serves for each other place: what is called before ends, layouts, and what is kept behind the front of the next
/// choice.
#[derive(Drop)]
struct Shared<D: Document> {
    /// What was kept of a place. Of it what is called before ends serves, and the memory.
    ends: Box<PlaceEnds>,
    layouts: Box<Layouts>,
    fronts: Box<Fronts<D>>,
    ghost right: { ∥ AreCalls (document D.galley D.style) ends.value.calls.items.items ∥₁ },
    ghost alone: { is_some ends.value.behind ≡ false },
    ghost laid: { AreLayouts (document D.galley D.style) layouts.value } by { AreLayouts_prop (document D.galley D.style) layouts.value },
}

// Nothing that is kept. Not made part of its caller, since it is asked for once a search.
#[cold]
#[inline(never)]
fn nothing_shared<D: Document>(alloc: Global) -> Result<Shared<D>, AllocError> {
    let walk = PlaceWalk {
        near: NearList::none(alloc),
        reach: 0,
    };
    let counts = PlaceCounts {
        called: Counts::new(alloc),
        flushed: Counts::new(alloc),
        most: Counts::new(alloc),
    };
    let none = PlaceEnds::new(alloc, walk, Calls::none(alloc), counts);
    let ends = Box::new(alloc, none)?;
    Ok(Shared {
        ends,
        layouts: Box::new(alloc, Layouts::none(alloc))?,
        fronts: Box::new(alloc, Fronts::none(alloc))?,
    })
}

/// What serves of a place for each other one, and a list without ends for the ends there.
#[derive(Drop)]
struct Left<D: Document> {
    shared: Shared<D>,
    none: Vec<RoomEnd>,
}

// What is kept of a place, as far as it serves for each other one.
fn left_of<D: Document>(kept: Kept<D>) -> Result<Left<D>, AllocError>
    ensures { IfOk result (λ left. left.none.items ≡ []) }
{
    let mut ends = kept.ends;
    let layouts = kept.layouts;
    let mut fronts = kept.fronts;
    let none = ends.take_ends();
    if let Some(behind) = ends.take_behind() {
        let front = KeptFront {
            ends: behind.ends,
            of: PhantomData,
        };
        fronts.ends.push(front)?;
    }
    Ok(Left {
        shared: Shared {
            ends,
            layouts,
            fronts,
        },
        none,
    })
}

// What is kept behind a front, for columns that come there in a state that was lowered.
fn behind_by(ends: FrontEnds, lowered: &LoweredState) -> Behind
    requires up { pos 0 ≤ℤ lowered.now.by }
    requires small { lowered.now.by <ℤ pos (2 ^ 39) }
    ensures ends { result.ends ≡ ends }
    ensures by { result.by ≡ lowered.now.by }
    ensures bound { result.bound ≡ lowered.now.bound }
{
    Behind {
        ends,
        by: lowered.by,
        bound: lowered.bound,
    }
}

/// The columns behind a state, and what is kept of its place.
#[derive(Drop)]
struct OpenedBy<D: Document> {
    opened: Opened<SmallState, SmallMove>,
    kept: Kept<D>,
}

/// The pages of a galley under a style. States of one place that are opened one after another share one walk, and the
/// ends in each room that one of them asks for; states of all places share what is called before ends,
/// and layouts. To a table it
/// offers its columns of text before it makes them.
#[derive(Drop)]
pub struct KeptPages<'a, D: Document> {
    pub pages: PageSpace<'a>,
    index: &'a BreakIndex,
    kept: RefCell<Option<Kept<D>>>,
    ghost hops: { AreHops D.galley.blocks D.style.maxdepth index.now } by { AreHops_prop D.galley.blocks D.style.maxdepth index.now },
    ghost galley: { pages.sources.galley.now ≡ D.galley } by { galley_set pages.sources.galley.now D.galley },
    ghost style: { pages.sources.style.now ≡ D.style } by { style_set pages.sources.style.now D.style },
}

impl<'a, D: Document> KeptPages<'a, D> {
    /// The space of a galley, the list of its floats and the index of its breaks, under a style, with nothing kept. No memory
    /// is taken.
    pub fn new(
        alloc: Global,
        galley: &'a Galley,
        style: &'a Style,
        floats: &'a FloatList,
        index: &'a BreakIndex,
    ) -> KeptPages<'a, D>
        requires hops { AreHops galley.now.blocks style.now.maxdepth index.now }
        requires floats { AreFloats galley.now.blocks style.now floats.now }
        requires galley { galley.now ≡ D.galley }
        requires style { style.now ≡ D.style }
        ensures galley { result.pages.sources.galley.now ≡ galley.now }
        ensures style { result.pages.sources.style.now ≡ style.now }
    {
        KeptPages {
            pages: PageSpace::new(alloc, galley, style, floats),
            index,
            kept: RefCell::new(None),
        }
    }

    // A walk behind a front, from a state before it.
    fn walk_behind(&self, base: FrontState) -> Result<KeptFront<D>, AllocError>
        requires { IsOwn (doc_of self.now.pages.sources) (tallest self.now.pages.sources.style.now) base }
        ensures { IfOk result (λ it. is_same_state (state_of it.ends.walk.base) (state_of base) ≡ true) }
    {
        let sources = &self.pages.sources;
        let alloc = sources.alloc;
        let walk = walk_behind(alloc, sources.galley, sources.style, self.index, base)?;
        Ok(KeptFront {
            ends: FrontEnds::new(alloc, walk),
            of: PhantomData,
        })
    }

    // What stands behind a front, from a state before it: what is kept of it, or a walk where nothing is.
    fn behind(&self, base: FrontState, fronts: &mut Fronts<D>) -> Result<KeptFront<D>, AllocError>
        requires { IsOwn (doc_of self.now.pages.sources) (tallest self.now.pages.sources.style.now) base }
        ensures { IfOk result (λ it. is_same_state (state_of it.ends.walk.base) (state_of base) ≡ true) }
    {
        let Some(kept) = fronts.take(&base) else {
            return self.walk_behind(base);
        };
        Ok(kept)
    }

    // How far columns from a place may go, which come to the front of a choice in a state where they pass no notes.
    fn reach_behind(
        &self,
        from: Place,
        start: FrontState,
        fronts: &mut Fronts<D>,
    ) -> Result<u32, AllocError>
        requires place { IsPlace self.now.pages.sources.galley.now.blocks from }
        requires start { IsBegun (quiet (doc_of self.now.pages.sources)) (tallest self.now.pages.sources.style.now) from start }
        ensures { IfOk result (λ reach. reach ≡ reach_at (doc_of self.now.pages.sources) from) }
    {
        let sources = &self.pages.sources;
        let galley = sources.galley;
        let style = sources.style;
        reaches_serve(galley, style);
        reach_is_the_greatest(galley, style);
        if let Some(kept) = fronts.reach_from(&start) {
            return Ok(kept.reach);
        }
        let reach = reach_behind(sources.alloc, galley, style, self.index, from, start)?;
        let told = KeptReach {
            start,
            reach,
            of: PhantomData,
        };
        fronts.reaches.push(told)?;
        Ok(reach)
    }

    // What is kept of a place whose columns come to a front: the ends up to it, and what is kept behind it.
    #[inline(never)]
    fn keep_before(
        &self,
        from: Place,
        first: FirstWalk,
        front: Front,
        shared: Shared<D>,
    ) -> Result<Kept<D>, AllocError>
        requires place { IsPlace self.now.pages.sources.galley.now.blocks from }
        requires comes { ComesTo (doc_of self.now.pages.sources) from first front }
        ensures { IfOk result (λ kept. kept.from ≡ from) }
    {
        let sources = &self.pages.sources;
        fronts_serve(sources.galley, sources.style);
        let mut fronts = shared.fronts;
        fronts.go_on_to(front.start.block);
        let reach = self.reach_behind(from, front.quiet, &mut *fronts)?;
        let lowered = lowered(&front.start);
        let kept = self.behind(lowered.base, &mut *fronts)?;
        let behind = behind_by(kept.ends, &lowered);
        let counts = sources.counts_at(from, reach)?;
        let mut ends = shared.ends;
        ends.put_behind(behind);
        ends.go_on(sources, first, reach, counts)?;
        Ok(Kept {
            from,
            ends,
            layouts: shared.layouts,
            fronts,
            of: PhantomData,
        })
    }

    // What is kept of a place whose columns come to no front.
    fn keep_alone(
        &self,
        from: Place,
        first: FirstWalk,
        shared: Shared<D>,
    ) -> Result<Kept<D>, AllocError>
        requires place { IsPlace self.now.pages.sources.galley.now.blocks from }
        requires tells { TellsAll (doc_of self.now.pages.sources) from first }
        requires reach { IsReach (doc_of self.now.pages.sources) from first.reach }
        ensures { IfOk result (λ kept. kept.from ≡ from) }
    {
        let sources = &self.pages.sources;
        reach_is_the_greatest(sources.galley, sources.style);
        let reach = first.reach;
        let counts = sources.counts_at(from, reach)?;
        let mut ends = shared.ends;
        ends.go_on(sources, first, reach, counts)?;
        Ok(Kept {
            from,
            ends,
            layouts: shared.layouts,
            fronts: shared.fronts,
            of: PhantomData,
        })
    }

    // The walk from a place, with what is kept for others. The ends there may stand in a list that has none yet.
    fn walk(
        &self,
        from: Place,
        none: Vec<RoomEnd>,
        shared: Shared<D>,
    ) -> Result<Kept<D>, AllocError>
        requires place { IsPlace self.now.pages.sources.galley.now.blocks from }
        requires none { none.items ≡ [] }
        ensures { IfOk result (λ kept. kept.from ≡ from) }
    {
        let sources = &self.pages.sources;
        let galley = sources.galley;
        let style = sources.style;
        let first = walk_first(sources.alloc, galley, style, self.index, from, none)?;
        let front = match &first.front {
            Some(front) => **front,
            None => return self.keep_alone(from, first, shared),
        };
        self.keep_before(from, first, front, shared)
    }

    // What is kept of a place, taken out of the cell, or a walk where it is not this place, with what serves of that one.
    fn take(&self, from: Place) -> Result<Kept<D>, AllocError>
        requires { IsPlace self.now.pages.sources.galley.now.blocks from }
        ensures { IfOk result (λ kept. kept.from ≡ from) }
    {
        let Ok(Some(kept)) = self.kept.try_replace(None) else {
            let alloc = self.pages.sources.alloc;
            return self.walk(from, Vec::new(alloc), nothing_shared(alloc)?);
        };
        if kept.from == from {
            return Ok(kept);
        }
        let Left { shared, none } = left_of(kept)?;
        self.walk(from, none, shared)
    }

    // The columns that may follow a state and are wanted, by what is kept of its place.
    fn open_by<W: Wants<State = SmallState, Marks = PageMarks>>(
        &self,
        state: &State,
        kept: Kept<D>,
        wants: &W,
        emptied: StepList<SmallState, SmallMove>,
    ) -> Result<OpenedBy<D>, AllocError>
        requires own { IsState (doc_of self.now.pages.sources) state.now }
        requires from { kept.from ≡ state.now.place }
        requires emptied { emptied ≡ [] }
        ensures moves { IfOk result (λ it. AreWanted (page_meaning (doc_of self.now.pages.sources)) state.now
            (W.spares wants.now) it.opened.steps) }
        ensures reach { IfOk result (λ it.
            it.opened.reach ≡ reach_at (doc_of self.now.pages.sources) state.now.place) }
    {
        let from = kept.from;
        let mut ends = kept.ends;
        let mut layouts = kept.layouts;
        let opened = open_by(
            &self.pages.sources,
            state,
            &mut *layouts,
            &mut *ends,
            wants,
            emptied,
        )?;
        Ok(OpenedBy {
            opened,
            kept: Kept {
                from,
                ends,
                layouts,
                fronts: kept.fronts,
                of: PhantomData,
            },
        })
    }

    // The columns that may follow a state and are wanted. What is kept of its place serves for the next state.
    fn open<W: Wants<State = SmallState, Marks = PageMarks>>(
        &self,
        state: &SmallState,
        wants: &W,
        emptied: StepList<SmallState, SmallMove>,
    ) -> Result<Opened<SmallState, SmallMove>, AllocError>
        requires own { IsState (doc_of self.now.pages.sources) state.now }
        requires emptied { emptied ≡ [] }
        ensures moves { IfOk result (λ it. AreWanted (page_meaning (doc_of self.now.pages.sources)) state.now
            (W.spares wants.now) it.steps) }
        ensures reach { IfOk result (λ it. it.reach ≡ reach_at (doc_of self.now.pages.sources) state.now.place) }
    {
        let own = state.to_state(self.pages.sources.alloc)?;
        let kept = self.take(own.place)?;
        let by = self.open_by(&own, kept, wants, emptied)?;
        let _was = self.kept.try_replace(Some(by.kept));
        Ok(by.opened)
    }
}

impl<D: Document> Space for KeptPages<'_, D> {
    type State = SmallState;

    type Move = SmallMove;

    type Key = PageKey;

    ghost use Rattle.pg_sources.specs.Document.{counts_of, doc_of};
    ghost use Rattle.law_space.specs.PageSpace.{page_meaning};
    ghost use Rattle.pg_space.specs.PagesLawful.{pages_lawful};

    ghost meaning = { λ s. page_meaning (doc_of s.pages.sources) };

    ghost lawful = { λ s. pages_lawful s.pages.sources.galley.now s.pages.sources.style.now s.pages.sources.in_range };

    fn start(&self) -> Result<SmallState, AllocError> {
        self.pages.start()
    }

    fn key(&self, state: &SmallState) -> Result<PageKey, AllocError> {
        self.pages.key(state)
    }

    fn rank(&self, state: &SmallState) -> u64 {
        self.pages.rank(state)
    }

    fn block(&self, state: &SmallState) -> u32 {
        self.pages.block(state)
    }

    fn is_done(&self, state: &SmallState) -> bool {
        self.pages.is_done(state)
    }

    fn no_worse(&self, a: &SmallState, b: &SmallState) -> bool {
        self.pages.no_worse(a, b)
    }

    fn order(&self, a: &SmallMove, b: &SmallMove) -> Ordering {
        self.pages.order(a, b)
    }

    fn expand<L: Ledger>(
        &self,
        state: &SmallState,
        steps: &mut Steps<L>,
    ) -> Result<Opened<SmallState, SmallMove>, AllocError> {
        steps.tick();
        let emptied = StepList::new(self.pages.sources.alloc);
        self.open(state, &EveryMove::<SmallState, PageMarks>::new(), emptied)
    }
}

impl<D: Document> Offering for KeptPages<'_, D> {
    type Marks = PageMarks;

    fn outdoes(&self, a: &SmallState, b: &SmallState) -> bool {
        no_worse(a, b)
    }

    fn offer<L: Ledger, W: Wants<State = SmallState, Marks = PageMarks>>(
        &self,
        state: &SmallState,
        steps: &mut Steps<L>,
        wants: &W,
        emptied: StepList<SmallState, SmallMove>,
    ) -> Result<Opened<SmallState, SmallMove>, AllocError>
        requires own { IsState (doc_of self.now.pages.sources) state.now }
        requires emptied { emptied ≡ [] }
        ensures moves { IfOk result (λ it. AreWanted (page_meaning (doc_of self.now.pages.sources)) state.now
            (W.spares wants.now) it.steps) }
        ensures reach { IfOk result (λ it. it.reach ≡ reach_at (doc_of self.now.pages.sources) state.now.place) }
        ensures counted { steps.new ≡ steps.old + 1 }
    {
        steps.tick();
        self.open(state, wants, emptied)
    }

    ghost marked_alike = { λ s a b h. h };
}
