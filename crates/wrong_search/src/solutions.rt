//! What a filled table of pages tells.
ghost use Rattle.std.specs.Prelude.{IfOk, map};
ghost use Rattle.std.specs.List.Sorted.{IsPermutation, IsSortedByKey};
ghost use Rattle.pg_plan.specs.declared.states.Label.{Label as ALabel};
ghost use Rattle.pg_rules.specs.Frontier.{state_cmp};
ghost use Rattle.law_space.specs.SpaceLaws.{label_of};
ghost use Rattle.pg_space.specs.Solves.{Solves};
ghost use Rattle.pg_sources.specs.Document.{doc_of};
ghost use Rattle.law_space.specs.PageSpace.{page_meaning};
ghost use Rattle.pg_table.specs.Label.{IsTable};

use pg_plan::{LabelList, PageKey};
use pg_small::{SmallMove, SmallState};
use pg_space::{Outcome, PageSpace};
use pg_table::{Entry, Table};
use std::alloc::{AllocError, Global};

/// The best pages, or that none are legal.
pub fn outcome_of(
    alloc: Global,
    space: &PageSpace<'_>,
    table: &Table<SmallState, SmallMove, PageKey>,
) -> Result<Outcome, AllocError>
    requires { IsTable (page_meaning (doc_of space.now.sources)) table.now }
    ensures { IfOk result (Solves space.now.sources.galley.now space.now.sources.style.now) }
{
    pg_space::outcome_of(alloc, space, table)
}

/// The labels of a table in order.
pub fn frontier_of(
    alloc: Global,
    entries: &[Entry<SmallState, SmallMove>],
) -> Result<LabelList, AllocError>
    ensures all { IfOk result (λ labels. IsPermutation (map label_of entries.now) labels) }
    ensures order { IfOk result (λ labels. IsSortedByKey (λ (label : ALabel). label.state) state_cmp labels) }
{
    pg_space::frontier_of(alloc, entries)
}
