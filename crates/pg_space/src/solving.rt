//! The labels of a galley's pages, and the best pagination that they tell.
ghost use Rattle.std.specs.Prelude.{◌≡◌, ◌<◌, ◌+◌, ◌⊎◌, [], length, slice_get, Some, IfOk, OnOk, OnErr};
ghost use Rattle.pg_plan.specs.declared.pages.PageMove.{PageMove as AMove};
ghost use Rattle.pg_plan.specs.declared.states.State.{State as AState};
ghost use Rattle.pg_table.specs.declared.table.Entry.{Entry as AnEntry};
ghost use Rattle.pg_floats.specs.AreFloats.{AreFloats};
ghost use Rattle.pg_hops.specs.Index.{AreHops};
ghost use Rattle.pg_rules.specs.Legal.{document};
ghost use Rattle.pg_sources.specs.Document.{doc_of};
ghost use Rattle.law_space.specs.PageSpace.{page_meaning};
ghost use Rattle.pg_table.specs.Below.{IsRightBelow};
ghost use Rattle.pg_table.specs.Label.{IsBestOf, IsTable};
ghost use Rattle.pg_table.specs.Searching.{count_reaching};
ghost use Rattle.pg_space.specs.Solves.{Solves};

use crate::kept::{Document, KeptPages};
use crate::runs::moves_of;
use crate::space::PageSpace;
use pg_floats::FloatList;
use pg_hops::BreakIndex;
use pg_list::Galley;
use pg_plan::{PageKey, Pagination};
use pg_small::{SmallMove, SmallState};
use pg_style::Style;
use pg_table::{Entry, Steps, Table};
use std::alloc::{AllocError, Global};
use std::marker::Brand;
use std::sync::ledger::Ledger;

/// The best pagination of a galley with its cost, or that none is legal.
#[derive(Drop)]
pub enum Outcome {
    Best(Pagination, i128),
    NoLegal,
}

/// A galley under a style, the list of its floats, and the index of its breaks.
#[derive(Clone, Copy)]
pub struct Indexed<'a> {
    pub galley: &'a Galley,
    pub style: &'a Style,
    pub floats: &'a FloatList,
    pub index: &'a BreakIndex,
}

/// Fills a table with the labels of a galley's pages, from the block `below` on, below which it has to be right for
/// these pages. It keeps the labels that end below, and takes one step for each label of the new table whose reach is
/// at least `below`. After a refusal, which is want of memory, the table is empty.
pub fn refill_pages<L: Ledger>(
    alloc: Global,
    pages: &Indexed<'_>,
    table: &mut Table<SmallState, SmallMove, PageKey>,
    below: u32,
    steps: &mut Steps<L>,
) -> Result<(), AllocError>
    requires hops { AreHops pages.now.galley.now.blocks pages.now.style.now.maxdepth pages.now.index.now }
    requires floats { AreFloats pages.now.galley.now.blocks pages.now.style.now pages.now.floats.now }
    requires right { (below ≡ 0) ⊎
        IsRightBelow (page_meaning (document pages.now.galley.now pages.now.style.now)) below table.old }
    ensures table { OnOk result (IsTable (page_meaning (document pages.now.galley.now pages.now.style.now)) table.new) }
    ensures err { OnErr result (table.new ≡ []) }
    ensures counted { OnOk result (steps.new ≡ steps.old + count_reaching below table.new) }
{
    refill_kept::<Brand, L>(alloc, pages, table, below, steps)
}

// The same of one document, where states of one place share a walk.
fn refill_kept<D: Document, L: Ledger>(
    alloc: Global,
    pages: &Indexed<'_>,
    table: &mut Table<SmallState, SmallMove, PageKey>,
    below: u32,
    steps: &mut Steps<L>,
) -> Result<(), AllocError>
    requires hops { AreHops pages.now.galley.now.blocks pages.now.style.now.maxdepth pages.now.index.now }
    requires floats { AreFloats pages.now.galley.now.blocks pages.now.style.now pages.now.floats.now }
    requires galley { pages.now.galley.now ≡ D.galley }
    requires style { pages.now.style.now ≡ D.style }
    requires right { (below ≡ 0) ⊎
        IsRightBelow (page_meaning (document pages.now.galley.now pages.now.style.now)) below table.old }
    ensures table { OnOk result (IsTable (page_meaning (document pages.now.galley.now pages.now.style.now)) table.new) }
    ensures err { OnErr result (table.new ≡ []) }
    ensures counted { OnOk result (steps.new ≡ steps.old + count_reaching below table.new) }
{
    let space = KeptPages::<D>::new(alloc, pages.galley, pages.style, pages.floats, pages.index);
    table.refill_offered(&space, below, steps)?;
    Ok(())
}

/// The best pagination with its cost that a filled table of pages tells, or that none is legal.
pub fn outcome_of(
    alloc: Global,
    space: &PageSpace<'_>,
    table: &Table<SmallState, SmallMove, PageKey>,
) -> Result<Outcome, AllocError>
    requires { IsTable (page_meaning (doc_of space.now.sources)) table.now }
    ensures { IfOk result (Solves space.now.sources.galley.now space.now.sources.style.now) }
{
    space.table_tells_all();
    match table.best(space) {
        None => Ok(Outcome::NoLegal),
        Some(index) => best_at(alloc, space, table.labels(), index),
    }
}

fn cost_at(labels: &[Entry<SmallState, SmallMove>], index: usize) -> i128
    requires { index < length labels.now }
    ensures { (e : AnEntry AState AMove) → slice_get labels.now index ≡ Some e → result ≡ e.cost }
{
    labels[index].cost
}

// The pagination of a best label with its cost.
fn best_at(
    alloc: Global,
    space: &PageSpace<'_>,
    labels: &[Entry<SmallState, SmallMove>],
    index: usize,
) -> Result<Outcome, AllocError>
    requires table { IsTable (page_meaning (doc_of space.now.sources)) labels.now }
    requires best { IsBestOf (page_meaning (doc_of space.now.sources)) labels.now labels.now index }
    ensures { IfOk result (Solves space.now.sources.galley.now space.now.sources.style.now) }
{
    space.table_tells_all();
    let moves = moves_of(alloc, labels, index)?;
    let plan = space.pagination_of(&moves)?;
    Ok(Outcome::Best(plan, cost_at(labels, index)))
}
