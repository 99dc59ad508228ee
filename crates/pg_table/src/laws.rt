//! Laws of tables and spaces, each the contract of a function that does nothing.
ghost use Rattle.std.specs.Prelude.{◌≡◌, ◌≤◌, ℕ, []};
ghost use Rattle.pg_table.specs.Space.{Lawful, Reached, IsRun};
ghost use Rattle.pg_table.specs.Label.{IsTable, IsBestOf, NoneDone};
ghost use Rattle.pg_table.specs.Below.{AgreeBelow, IsRightBelow};
ghost use Rattle.pg_table.specs.Narrower.{narrowed, IsNarrower, BetteredBy};
ghost use Rattle.pg_table.specs.Laws.{UndercutsDone, NoRunDone, AreUnbettered, BeginsWithStart};

use crate::space::{Narrowing, Space};
use crate::table::Table;

/// The first entry of a filled table is the start, with no move and itself as parent.
pub fn table_begins_with_start<S: Space>(space: &S, table: &Table<S::State, S::Move, S::Key>)
    requires { IsTable (S.meaning space.now) table.now }
    ensures { BeginsWithStart (S.meaning space.now) table.now }
{}

/// The run of a best label undercuts each run that ends done.
pub fn best_undercuts_done_runs<S: Space>(space: &S, table: &Table<S::State, S::Move, S::Key>)
    requires { IsTable (S.meaning space.now) table.now }
    ensures { (i : ℕ) → IsBestOf (S.meaning space.now) table.now table.now i → UndercutsDone
        (S.meaning space.now) table.now i }
{}

/// Where no label is done, no run ends done.
pub fn none_done_no_run_done<S: Space>(space: &S, table: &Table<S::State, S::Move, S::Key>)
    requires table { IsTable (S.meaning space.now) table.now }
    requires none { NoneDone (S.meaning space.now) table.now }
    ensures { NoRunDone (S.meaning space.now) }
{}

/// A filled table is right below every block.
pub fn table_is_right_below<S: Space>(space: &S, table: &Table<S::State, S::Move, S::Key>)
    requires { IsTable (S.meaning space.now) table.now }
    ensures { (t : ℕ) → IsRightBelow (S.meaning space.now) t table.now }
{}

/// What is right below a block is right below each smaller one.
pub fn right_below_goes_down<S: Space>(space: &S, table: &Table<S::State, S::Move, S::Key>)
    ensures { (t u : ℕ) → u ≤ t → IsRightBelow (S.meaning space.now) t table.now → IsRightBelow
        (S.meaning space.now) u table.now }
{}

/// A table without labels is right below 0.
pub fn empty_table_is_right_below_0<S: Space>(space: &S, table: &Table<S::State, S::Move, S::Key>)
    requires { table.now ≡ [] }
    ensures { IsRightBelow (S.meaning space.now) 0 table.now }
{}

/// What is right below a block is right there for each space that agrees below that block.
pub fn right_below_for_agreeing<S: Space, R: Space<State = S::State, Move = S::Move, Key = S::Key>>(
    space: &S,
    other: &R,
    table: &Table<S::State, S::Move, S::Key>,
)
    ensures { (t : ℕ) → AgreeBelow (S.meaning space.now) (R.meaning other.now) t → IsRightBelow
        (S.meaning space.now) t table.now → IsRightBelow (R.meaning other.now) t table.now }
{}

/// A narrower space has the laws of the wide one, and betters each of its runs.
pub fn narrower_is_lawful<N: Narrowing>(space: &N)
    requires lawful { Lawful N.Key.eq (N.wide space.now) }
    requires narrower { IsNarrower (N.wide space.now) (N.Narrow space.now) }
    ensures laws { Lawful N.Key.eq (narrowed (N.wide space.now) (N.Narrow space.now)) }
    ensures betters { (r : Reached N.State N.Move) → IsRun (N.wide space.now) r →
        BetteredBy (N.wide space.now) (N.Narrow space.now) r }
{}

/// A filled table of a narrower space holds the labels of the wide one.
pub fn narrower_table_is_wide<N: Narrowing>(space: &N, table: &Table<N::State, N::Move, N::Key>)
    requires lawful { Lawful N.Key.eq (N.wide space.now) }
    requires narrower { IsNarrower (N.wide space.now) (N.Narrow space.now) }
    requires table { IsTable (narrowed (N.wide space.now) (N.Narrow space.now)) table.now }
    ensures labels { AreUnbettered (N.wide space.now) table.now }
    ensures best { (i : ℕ) → IsBestOf (narrowed (N.wide space.now)
        (N.Narrow space.now)) table.now table.now i → UndercutsDone (N.wide space.now) table.now i }
    ensures none { NoneDone (narrowed (N.wide space.now) (N.Narrow space.now)) table.now →
        NoRunDone (N.wide space.now) }
{}
