//! The best number of lines of a paragraph.
ghost use Rattle.std.specs.Prelude.{◌≡◌, IfOk};
ghost use Rattle.pg_hlist.specs.Items.{IsPara};
ghost use Rattle.law_lines.specs.BestSpace.{best_meaning};
ghost use Rattle.pg_table.specs.Label.{IsTable};
ghost use Rattle.pg_lines.specs.Found.{IsBestNumber};

use crate::best::BestSpace;
use crate::runs::moves_back;
use pg_table::{Steps, Table};
use std::alloc::{AllocError, Global};
use std::sync::ledger::Ledger;

// The number of lines that a filled table tells.
fn told_count(
    alloc: Global,
    space: &BestSpace<'_>,
    table: &Table<u32, u32, u32>,
) -> Result<Option<u32>, AllocError>
    requires para { IsPara space.now.items.now }
    requires table { IsTable (best_meaning space.now.rule.now space.now.items.now) table.now }
    ensures { IfOk result (IsBestNumber space.now.rule.now space.now.items.now) }
{
    match table.best(space) {
        None => Ok(None),
        Some(index) => {
            let way = moves_back(alloc, table.labels(), index)?;
            Ok(Some(way.as_slice().len() as u32))
        }
    }
}

/// The number of lines of the legal way of least demerits, the fewest lines among equals; None where the paragraph
/// cannot be broken. The one refusal is want of memory.
pub fn best_count<L: Ledger>(
    alloc: Global,
    space: &BestSpace<'_>,
    steps: &mut Steps<L>,
) -> Result<Option<u32>, AllocError>
    requires { IsPara space.now.items.now }
    ensures { IfOk result (IsBestNumber space.now.rule.now space.now.items.now) }
{
    let mut table = Table::new(alloc);
    table.fill(space, steps)?;
    told_count(alloc, space, &table)
}
