//! Where beginnings come to an end.
ghost use Rattle.std.specs.Prelude.{◌≡◌, ◌<◌, Some, IfOk, length, slice_get};
ghost use Rattle.pg_furthest.specs.Furthest.{StandsAt, page_behind};
ghost use Rattle.pg_plan.specs.declared.pages.PageMove.{PageMove as AMove};
ghost use Rattle.pg_plan.specs.declared.states.State.{State as AState};
ghost use Rattle.pg_table.specs.declared.table.Entry.{Entry as AnEntry};

use crate::search::Search;
use pg_list::Place;
use pg_plan::Pagination;
use pg_small::{SmallMove, SmallState};
use pg_table::Entry;
use std::alloc::AllocError;

/// The furthest place of a beginning, and the page and column that would begin there.
#[derive(Clone, Copy)]
pub struct Standing {
    pub at: Place,
    pub page: u64,
    pub column: u8,
}

// The place of a label.
fn place_at(labels: &[Entry<SmallState, SmallMove>], index: usize) -> Place
    requires { index < length labels.now }
    ensures { (label : AnEntry AState AMove) → slice_get labels.now index ≡ Some label → result ≡ label.state.place }
{
    let label = &labels[index];
    label.state.place()
}

// The next column of a label.
fn column_at(labels: &[Entry<SmallState, SmallMove>], index: usize) -> u8
    requires { index < length labels.now }
    ensures { (label : AnEntry AState AMove) → slice_get labels.now index ≡ Some label → result ≡ label.state.column }
{
    let label = &labels[index];
    label.state.column()
}

// The page of the next column behind these.
fn page_of(column: u8, plan: &Pagination) -> u64
    ensures { result ≡ page_behind column (length plan.now.pages) }
{
    let pages = plan.pages.as_slice().len() as u64;
    if column == 1 { pages + 1 } else { pages }
}

impl Search {
    /// The furthest place of a beginning, and the page and column that would begin there.
    pub fn standing(&self) -> Result<Standing, AllocError>
        ensures { IfOk result (StandsAt self.now.galley self.now.style) }
    {
        let label = self.furthest();
        let plan = self.beginning(label)?;
        let column = column_at(self.labels(), label);
        Ok(Standing {
            at: place_at(self.labels(), label),
            page: page_of(column, &plan),
            column,
        })
    }
}
