//! Whether anything is legal.
ghost use Rattle.std.specs.Prelude.{IfOk};
ghost use Rattle.pg_floats.specs.AreFloats.{AreFloats};
ghost use Rattle.pg_rules.specs.Legal.{document};
ghost use Rattle.law_space.specs.PageSpace.{page_meaning};
ghost use Rattle.pg_table.specs.Label.{IsTable};
ghost use Rattle.pg_furthest.specs.Pages.{TellsLegal};

use crate::best::best_in;
use crate::search::{labels_of, stay_in_range};
use pg_floats::{FloatFault, FloatList};
use pg_list::Galley;
use pg_plan::PageKey;
use pg_small::{SmallMove, SmallState};
use pg_style::Style;
use pg_table::{Steps, Table};
use std::alloc::Global;
use std::sync::ledger::Ledger;

// Whether some label is that of a legal pagination.
fn has_best(
    alloc: Global,
    galley: &Galley,
    style: &Style,
    floats: &FloatList,
    table: &Table<SmallState, SmallMove, PageKey>,
) -> bool
    requires floats { AreFloats galley.now.blocks style.now floats.now }
    requires filled { IsTable (page_meaning (document galley.now style.now)) table.now }
    ensures { TellsLegal galley.now style.now result }
{
    match best_in(alloc, galley, style, floats, table) {
        None => false,
        Some(at) => {
            let _ = at;
            true
        }
    }
}

/// Whether some pagination of a galley is legal under a style. The faults are those of `Search::new`.
pub fn has_pages<L: Ledger>(
    alloc: Global,
    galley: &Galley,
    style: &Style,
    steps: &mut Steps<L>,
) -> Result<bool, FloatFault>
    ensures { IfOk result (TellsLegal galley.now style.now) }
{
    stay_in_range(galley, style);
    let floats = FloatList::of(alloc, galley, style)?;
    match labels_of(alloc, galley, style, &floats, steps) {
        Ok(table) => Ok(has_best(alloc, galley, style, &floats, &table)),
        Err(_) => Err(FloatFault::Memory),
    }
}
