//! Pages as a space for the table.
ghost use Rattle.std.specs.Prelude.{◌≡◌, reverse, List, IfOk, IsTrue, ◌↔◌};
ghost use Rattle.law_columns.specs.Pages.{plan_of};
ghost use Rattle.pg_floats.specs.AreFloats.{AreFloats};
ghost use Rattle.pg_sources.specs.Document.{doc_of};
ghost use Rattle.pg_plan.specs.declared.pages.PageMove.{PageMove as AMove};
ghost use Rattle.pg_plan.specs.declared.states.State.{State as AState};
ghost use Rattle.pg_rules.specs.IsState.{IsState};
ghost use Rattle.law_space.specs.SpaceLaws.{TellsAll};
ghost use Rattle.law_space.specs.PageSpace.{page_meaning};
ghost use Rattle.pg_table.specs.Label.{IsTable};
ghost use Rattle.pg_table.specs.declared.table.Entry.{Entry};

use crate::{columns_are_paged, pages_of};
use law_space::filled_table_tells_all;
use pg_floats::FloatList;
use pg_list::Galley;
use pg_moves::open;
use pg_plan::{Moves, PageKey, Pagination, State};
use pg_small::{SmallMove, SmallState};
use pg_sources::Sources;
use pg_states::{is_done, is_state, key_of, no_worse, rank_of, start};
use pg_style::Style;
use pg_table::{Opened, Space, Steps};
use std::alloc::{AllocError, Global};
use std::cmp::Ordering;
use std::sync::ledger::Ledger;

/// The states and columns of a galley under a style.
#[derive(Drop)]
pub struct PageSpace<'a> {
    pub sources: Sources<'a>,
}

impl<'a> PageSpace<'a> {
    /// The space of a galley and the list of its floats, under a style. No memory is taken.
    pub fn new(
        alloc: Global,
        galley: &'a Galley,
        style: &'a Style,
        floats: &'a FloatList,
    ) -> PageSpace<'a>
        requires { AreFloats galley.now.blocks style.now floats.now }
        ensures galley { result.sources.galley.now ≡ galley.now }
        ensures style { result.sources.style.now ≡ style.now }
    {
        floats.stays_few();
        PageSpace {
            sources: Sources::new(alloc, galley, style, floats),
        }
    }

    /// Whether a state is one of the space's own.
    pub fn is_state(&self, state: &State) -> bool
        ensures { IsTrue result ↔ IsState (doc_of self.now.sources) state.now }
    {
        is_state(&self.sources, state)
    }

    /// The pagination whose columns these are, in order.
    pub fn pagination_of(&self, moves: &Moves) -> Result<Pagination, AllocError>
        ensures { IfOk result (λ plan. plan ≡ plan_of self.now.sources.style.now (reverse moves.now)) }
    {
        let style = self.sources.style;
        style.stays_in_range();
        columns_are_paged(style);
        Ok(Pagination {
            pages: pages_of(self.sources.alloc, style.columns, moves.as_slice())?,
        })
    }

    /// A filled table of the space tells the best pagination with its cost, that none is legal where no label is
    /// done, and the frontier.
    pub fn table_tells_all(&self)
        ensures { (es : List (Entry AState AMove)) → IsTable (page_meaning (doc_of self.now.sources)) es →
            TellsAll self.now.sources.galley.now self.now.sources.style.now es }
    {
        filled_table_tells_all(self.sources.galley, self.sources.style);
    }
}

impl Space for PageSpace<'_> {
    type State = SmallState;

    type Move = SmallMove;

    type Key = PageKey;

    ghost use Rattle.pg_sources.specs.Document.{doc_of};
    ghost use Rattle.law_space.specs.PageSpace.{page_meaning};
    ghost use Rattle.pg_space.specs.PagesLawful.{pages_lawful};

    ghost meaning = { λ s. page_meaning (doc_of s.sources) };

    ghost lawful = { λ s. pages_lawful s.sources.galley.now s.sources.style.now s.sources.in_range };

    fn start(&self) -> Result<SmallState, AllocError> {
        start(&self.sources)
    }

    fn key(&self, state: &SmallState) -> Result<PageKey, AllocError> {
        key_of(self.sources.alloc, state)
    }

    fn rank(&self, state: &SmallState) -> u64 {
        rank_of(&self.sources, state)
    }

    fn block(&self, state: &SmallState) -> u32 {
        state.place().block
    }

    fn is_done(&self, state: &SmallState) -> bool {
        is_done(&self.sources, state)
    }

    fn no_worse(&self, a: &SmallState, b: &SmallState) -> bool {
        no_worse(a, b)
    }

    fn order(&self, a: &SmallMove, b: &SmallMove) -> Ordering {
        a.compare(b)
    }

    fn expand<L: Ledger>(
        &self,
        state: &SmallState,
        steps: &mut Steps<L>,
    ) -> Result<Opened<SmallState, SmallMove>, AllocError> {
        steps.tick();
        open(&self.sources, &state.to_state(self.sources.alloc)?)
    }
}
