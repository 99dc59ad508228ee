//! What would help.
ghost use Rattle.std.specs.Prelude.{IfOk, IfSome};
ghost use Rattle.pg_changes.specs.Changes.{Helps, NoneLegal};
ghost use Rattle.pg_changes.specs.Numbers.{IsNamed};

use pg_changes::{Number, Tried};
use pg_list::Galley;
use pg_style::Style;
use pg_table::Steps;
use std::alloc::{AllocError, Global};
use std::sync::ledger::Ledger;

/// The change of a number that helps, if any does.
pub fn try_number<L: Ledger>(
    alloc: Global,
    galley: &Galley,
    style: &Style,
    number: Number,
    left: u32,
    steps: &mut Steps<L>,
) -> Result<Tried, AllocError>
    requires none { NoneLegal galley.now style.now }
    requires named { IsNamed style.now number }
    ensures { IfOk result (λ tried. IfSome tried.change (Helps galley.now style.now)) }
{
    pg_changes::try_number(alloc, galley, style, number, left, steps)
}
