//! The best pagination, and what its columns add to the cost.
ghost use Rattle.std.specs.Prelude.{◌≡◌, ◌<◌, Some, IfOk, length, slice_get};
ghost use Rattle.pg_floats.specs.AreFloats.{AreFloats};
ghost use Rattle.pg_plan.specs.declared.pages.PageMove.{PageMove as AMove};
ghost use Rattle.pg_plan.specs.declared.states.State.{State as AState};
ghost use Rattle.pg_rules.specs.Legal.{document};
ghost use Rattle.pg_sources.specs.Document.{doc_of};
ghost use Rattle.pg_rules.specs.Ranges.{AreInRange};
ghost use Rattle.law_space.specs.PageSpace.{page_meaning};
ghost use Rattle.pg_table.specs.Label.{IsTable};
ghost use Rattle.pg_table.specs.declared.table.Entry.{Entry as AnEntry};
ghost use Rattle.pg_furthest.specs.Pages.{IsBestLabel, IsBestPages, TellsBest, TellsBestPages};

use crate::laws::columns_of_labels;
use pg_floats::FloatList;
use pg_list::Galley;
use pg_parts::{Pricing, price_columns};
use pg_plan::{PageKey, Pagination};
use pg_small::{SmallMove, SmallState};
use pg_space::{PageSpace, moves_of};
use pg_style::Style;
use pg_table::{Entry, Table};
use std::alloc::{AllocError, Global};

/// The best pagination with its cost, and what each of its columns adds to it.
#[derive(Drop)]
pub struct BestPages {
    pub plan: Pagination,
    pub cost: i128,
    pub pricing: Pricing,
}

// The cost of a label.
fn cost_at(labels: &[Entry<SmallState, SmallMove>], index: usize) -> i128
    requires { index < length labels.now }
    ensures { (label : AnEntry AState AMove) → slice_get labels.now index ≡ Some label → result ≡ label.cost }
{
    labels[index].cost
}

// The label of the best pagination of a space. None where no pagination is legal.
fn best_of(space: &PageSpace<'_>, table: &Table<SmallState, SmallMove, PageKey>) -> Option<usize>
    requires { IsTable (page_meaning (doc_of space.now.sources)) table.now }
    ensures { TellsBest space.now.sources.galley.now space.now.sources.style.now table.now result }
{
    space.table_tells_all();
    table.best(space)
}

/// The label of the best pagination. None where no pagination is legal.
pub fn best_in(
    alloc: Global,
    galley: &Galley,
    style: &Style,
    floats: &FloatList,
    table: &Table<SmallState, SmallMove, PageKey>,
) -> Option<usize>
    requires floats { AreFloats galley.now.blocks style.now floats.now }
    requires filled { IsTable (page_meaning (document galley.now style.now)) table.now }
    ensures { TellsBest galley.now style.now table.now result }
{
    let space = PageSpace::new(alloc, galley, style, floats);
    best_of(&space, table)
}

// The pagination of a best label.
fn pages_at(
    alloc: Global,
    galley: &Galley,
    style: &Style,
    floats: &FloatList,
    labels: &[Entry<SmallState, SmallMove>],
    at: usize,
) -> Result<BestPages, AllocError>
    requires range { AreInRange galley.now style.now }
    requires floats { AreFloats galley.now.blocks style.now floats.now }
    requires filled { IsTable (page_meaning (document galley.now style.now)) labels.now }
    requires best { IsBestLabel galley.now style.now labels.now at }
    ensures { IfOk result (IsBestPages galley.now style.now) }
{
    columns_of_labels(galley, style);
    let moves = moves_of(alloc, labels, at)?;
    let space = PageSpace::new(alloc, galley, style, floats);
    let plan = space.pagination_of(&moves)?;
    let pricing = price_columns(alloc, galley, style, floats, moves.as_slice())?;
    Ok(BestPages {
        plan,
        cost: cost_at(labels, at),
        pricing,
    })
}

/// The best pagination that labels tell, or nothing where no pagination is legal.
pub fn pages_in(
    alloc: Global,
    galley: &Galley,
    style: &Style,
    floats: &FloatList,
    table: &Table<SmallState, SmallMove, PageKey>,
) -> Result<Option<BestPages>, AllocError>
    requires range { AreInRange galley.now style.now }
    requires floats { AreFloats galley.now.blocks style.now floats.now }
    requires filled { IsTable (page_meaning (document galley.now style.now)) table.now }
    ensures { IfOk result (TellsBestPages galley.now style.now) }
{
    match best_in(alloc, galley, style, floats, table) {
        None => Ok(None),
        Some(at) => Ok(Some(pages_at(alloc, galley, style, floats, table.labels(), at)?)),
    }
}
