//! Tables of labels over any space.
ghost use Rattle.std.specs.Prelude.{◌≡◌, ◌+◌, ◌⊎◌, [], OnOk, OnErr, IfSome, IfNone};
ghost use Rattle.pg_table.specs.Label.{IsTable, AreLabels, IsBestOf, NoneDone};
ghost use Rattle.pg_table.specs.Below.{IsRightBelow, KeepsBelow};
ghost use Rattle.pg_table.specs.Searching.{count_reaching};

use pg_table::{Space, Steps, Table};
use std::alloc::AllocError;
use std::sync::ledger::Ledger;

/// A table is filled from a block on.
pub fn refill<S: Space, L: Ledger>(
    table: &mut Table<S::State, S::Move, S::Key>,
    space: &S,
    below: u32,
    steps: &mut Steps<L>,
) -> Result<(), AllocError>
    requires { (below ≡ 0) ⊎ IsRightBelow (S.meaning space.now) below table.old }
    ensures ok { OnOk result (IsTable (S.meaning space.now) table.new) }
    ensures kept { OnOk result (KeepsBelow (S.meaning space.now) below table.old table.new) }
    ensures err { OnErr result (table.new ≡ []) }
    ensures counted { OnOk result (steps.new ≡ steps.old + count_reaching below table.new) }
{
    table.refill(space, below, steps)
}

/// The best label of a table.
pub fn best<S: Space>(table: &Table<S::State, S::Move, S::Key>, space: &S) -> Option<usize>
    requires { AreLabels (S.meaning space.now) table.now }
    ensures some { IfSome result (λ i. IsBestOf (S.meaning space.now) table.now table.now i) }
    ensures none { IfNone result (NoneDone (S.meaning space.now) table.now) }
{
    table.best(space)
}
