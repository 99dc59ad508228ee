//! What a session keeps, brought up to the galley as it stands, and what it then tells.
ghost use Rattle.std.specs.Prelude.{◌≡◌, ◌+◌, ◌≤◌, true, IfOk, OnOk};
ghost use Rattle.pg_floats.specs.AreFloats.{AreFloats};
ghost use Rattle.pg_hops.specs.Index.{AreHops};
ghost use Rattle.pg_rules.specs.Ranges.{AreInRange};
ghost use Rattle.pg_rules.specs.Legal.{document};
ghost use Rattle.pg_space.specs.Solves.{Solves};
ghost use Rattle.law_space.specs.PageSpace.{page_meaning};
ghost use Rattle.pg_table.specs.Label.{IsTable};
ghost use Rattle.pg_table.specs.Searching.{count_reaching};
ghost use Rattle.pg_session.specs.Kept.{IsFilled, IsKnown, IsRight, seen};
ghost use Rattle.pg_session.specs.Sessions.{IsPaginated, labels_reaching};

use crate::kept::Kept;
use crate::told::Told;
use law_space::filled_table_tells_all;
use pg_space::{Indexed, Outcome, PageSpace, frontier_of, outcome_of, refill_pages};
use pg_table::Steps;
use std::alloc::{AllocError, Global};
use std::sync::ledger::Ledger;

// Fills the table from the touched block on. Then nothing is touched.
fn refill<L: Ledger>(
    alloc: Global,
    pages: &Indexed<'_>,
    kept: &mut Kept,
    steps: &mut Steps<L>,
) -> Result<(), AllocError>
    requires hops { AreHops pages.now.galley.now.blocks pages.now.style.now.maxdepth pages.now.index.now }
    requires floats { AreFloats pages.now.galley.now.blocks pages.now.style.now pages.now.floats.now }
    requires right { IsRight pages.now.galley.now pages.now.style.now kept.old }
    ensures filled { OnOk result (IsFilled pages.now.galley.now pages.now.style.now kept.old kept.new) }
    ensures counted { OnOk result (steps.new ≡ steps.old + count_reaching kept.old.touched kept.new.table) }
{
    refill_pages(alloc, pages, &mut kept.table, kept.touched, steps)?;
    kept.touched = u32::MAX;
    Ok(())
}

// The same, with its labels listed in order: the galley is solved.
fn renew<L: Ledger>(
    alloc: Global,
    pages: &Indexed<'_>,
    kept: &mut Kept,
    steps: &mut Steps<L>,
) -> Result<(), AllocError>
    requires hops { AreHops pages.now.galley.now.blocks pages.now.style.now.maxdepth pages.now.index.now }
    requires range { AreInRange pages.now.galley.now pages.now.style.now }
    requires floats { AreFloats pages.now.galley.now.blocks pages.now.style.now pages.now.floats.now }
    requires right { IsRight pages.now.galley.now pages.now.style.now kept.old }
    ensures known { OnOk result (IsKnown pages.now.galley.now pages.now.style.now kept.new) }
    ensures counted { OnOk result (steps.new ≡ steps.old + labels_reaching kept.old.touched pages.now.galley.now
        pages.now.style.now kept.new.labels) }
{
    refill(alloc, pages, kept, steps)?;
    filled_table_tells_all(pages.galley, pages.style);
    kept.labels = frontier_of(alloc, kept.table.labels())?;
    kept.solved = true;
    Ok(())
}

// Fills the table, where the galley is not solved.
fn fill<L: Ledger>(
    alloc: Global,
    pages: &Indexed<'_>,
    kept: &mut Kept,
    steps: &mut Steps<L>,
) -> Result<(), AllocError>
    requires hops { AreHops pages.now.galley.now.blocks pages.now.style.now.maxdepth pages.now.index.now }
    requires floats { AreFloats pages.now.galley.now.blocks pages.now.style.now pages.now.floats.now }
    requires right { IsRight pages.now.galley.now pages.now.style.now kept.old }
    requires known { kept.old.solved ≡ true → IsKnown pages.now.galley.now pages.now.style.now kept.old }
    ensures filled { OnOk result (IsFilled pages.now.galley.now pages.now.style.now kept.old kept.new) }
    ensures still { kept.old.solved ≡ true → steps.new ≡ steps.old }
    ensures bounded { OnOk result (steps.new ≤ steps.old + count_reaching kept.old.touched kept.new.table) }
{
    if !kept.solved {
        refill(alloc, pages, kept, steps)?;
    }
    Ok(())
}

// Solves the galley, where it is not solved.
fn bring_up<L: Ledger>(
    alloc: Global,
    pages: &Indexed<'_>,
    kept: &mut Kept,
    steps: &mut Steps<L>,
) -> Result<(), AllocError>
    requires hops { AreHops pages.now.galley.now.blocks pages.now.style.now.maxdepth pages.now.index.now }
    requires range { AreInRange pages.now.galley.now pages.now.style.now }
    requires floats { AreFloats pages.now.galley.now.blocks pages.now.style.now pages.now.floats.now }
    requires right { IsRight pages.now.galley.now pages.now.style.now kept.old }
    requires known { kept.old.solved ≡ true → IsKnown pages.now.galley.now pages.now.style.now kept.old }
    ensures known { OnOk result (IsKnown pages.now.galley.now pages.now.style.now kept.new) }
    ensures still { kept.old.solved ≡ true → steps.new ≡ steps.old }
    ensures bounded { OnOk result (steps.new ≤ steps.old + labels_reaching kept.old.touched pages.now.galley.now
        pages.now.style.now kept.new.labels) }
{
    if kept.solved {
        return Ok(());
    }
    renew(alloc, pages, kept, steps)
}

// What the table of a galley tells.
fn tell(alloc: Global, pages: &Indexed<'_>, kept: &Kept) -> Result<Outcome, AllocError>
    requires floats { AreFloats pages.now.galley.now.blocks pages.now.style.now pages.now.floats.now }
    requires filled { IsTable (page_meaning (document pages.now.galley.now pages.now.style.now)) kept.now.table }
    ensures { IfOk result (Solves pages.now.galley.now pages.now.style.now) }
{
    let space = PageSpace::new(alloc, pages.galley, pages.style, pages.floats);
    outcome_of(alloc, &space, &kept.table)
}

/// The outcome of a galley under a style, by what is kept of it.
pub fn solve_kept<L: Ledger>(
    alloc: Global,
    pages: &Indexed<'_>,
    kept: &mut Kept,
    steps: &mut Steps<L>,
) -> Result<Outcome, AllocError>
    requires hops { AreHops pages.now.galley.now.blocks pages.now.style.now.maxdepth pages.now.index.now }
    requires range { AreInRange pages.now.galley.now pages.now.style.now }
    requires floats { AreFloats pages.now.galley.now.blocks pages.now.style.now pages.now.floats.now }
    requires right { IsRight pages.now.galley.now pages.now.style.now kept.old }
    requires known { kept.old.solved ≡ true → IsKnown pages.now.galley.now pages.now.style.now kept.old }
    ensures solves { IfOk result (Solves pages.now.galley.now pages.now.style.now) }
    ensures known { OnOk result (IsKnown pages.now.galley.now pages.now.style.now kept.new) }
    ensures still { kept.old.solved ≡ true → steps.new ≡ steps.old }
    ensures bounded { OnOk result (steps.new ≤ steps.old + labels_reaching kept.old.touched pages.now.galley.now
        pages.now.style.now kept.new.labels) }
{
    bring_up(alloc, pages, kept, steps)?;
    tell(alloc, pages, kept)
}

/// The outcome of a galley under a style and the number of its labels, by what is kept of it. No labels are listed.
pub fn paginate_kept<L: Ledger>(
    alloc: Global,
    pages: &Indexed<'_>,
    kept: &mut Kept,
    steps: &mut Steps<L>,
) -> Result<Told, AllocError>
    requires hops { AreHops pages.now.galley.now.blocks pages.now.style.now.maxdepth pages.now.index.now }
    requires range { AreInRange pages.now.galley.now pages.now.style.now }
    requires floats { AreFloats pages.now.galley.now.blocks pages.now.style.now pages.now.floats.now }
    requires right { IsRight pages.now.galley.now pages.now.style.now kept.old }
    requires known { kept.old.solved ≡ true → IsKnown pages.now.galley.now pages.now.style.now kept.old }
    ensures told { IfOk result (λ told.
        IsPaginated (seen pages.now.galley.now pages.now.style.now pages.now.floats.now kept.old) told
        (seen pages.now.galley.now pages.now.style.now pages.now.floats.now kept.new) steps.old steps.new) }
    ensures right { OnOk result (IsRight pages.now.galley.now pages.now.style.now kept.new) }
    ensures known { OnOk result (kept.new.solved ≡ true → IsKnown pages.now.galley.now pages.now.style.now kept.new) }
{
    fill(alloc, pages, kept, steps)?;
    filled_table_tells_all(pages.galley, pages.style);
    let outcome = tell(alloc, pages, kept)?;
    Ok(Told {
        outcome,
        labels: kept.table.labels().len(),
    })
}
