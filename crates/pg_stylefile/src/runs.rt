//! The runs of pages.
ghost use Rattle.std.specs.Prelude.{◌≡◌, ◌≤◌, ◌<◌, ◌^◌, pos, ◌≤ℤ◌, ◌<ℤ◌, ◌+ℤ◌, length, IfOk};
ghost use Rattle.toml.specs.View.{table_view};
ghost use Rattle.std.specs.List.{AllByRecursion};
ghost use Rattle.pg_style.specs.Ranges.{IsRun, IsHeight, AreRuns};
ghost use Rattle.pg_scaled.specs.Ranges.{IsScaled};
ghost use Rattle.pg_stylefile.specs.Faults.{Tells};
ghost use Rattle.pg_stylefile.specs.Values.{tables_in};
ghost use Rattle.pg_stylefile.specs.Tables.{extra_at, run_of, runs_of};

use crate::fault::{Fault, TableName};
use crate::keys::{Keys, MAX_DEMERITS, MAX_DIMENSION};
use crate::tables::Tables;
use pg_style::{Run, Runs};
use std::alloc::Global;
use toml::Table;

// What a run adds to the height, within which the height of its pages is a dimension above 0.
#[tactic(auto, unfolding(crate::specs::Tables::extra_at))]
fn read_extra<'t>(height: i32, keys: &Keys<'t>) -> Result<i32, Fault<'t>>
    requires some { pos 1 ≤ℤ height }
    requires limit { height <ℤ pos (2 ^ 30) }
    ensures value { Tells
        (λ extra. extra) result (extra_at height keys.now.table_name (table_view keys.now.table.now)) }
    ensures scaled { IfOk result IsScaled }
    ensures some { IfOk result (λ extra. pos 1 ≤ℤ (height +ℤ extra)) }
    ensures limit { IfOk result (λ extra. (height +ℤ extra) <ℤ pos (2 ^ 30)) }
{
    let low = 1 - height;
    let high = MAX_DIMENSION - height;
    keys.dimension("extra", low, high)
}

/// A run of pages, whose height with what the run adds is a dimension above 0.
#[tactic(auto, unfolding(crate::specs::Tables::run_of))]
fn read_run<'t>(height: i32, position: usize, table: &'t Table) -> Result<Run, Fault<'t>>
    requires some { pos 1 ≤ℤ height }
    requires limit { height <ℤ pos (2 ^ 30) }
    ensures value { Tells (λ run. run) result (run_of height position (table_view table.now)) }
    ensures range { IfOk result IsRun }
    ensures height { IfOk result (IsHeight height) }
{
    let keys = Keys {
        table_name: TableName::Run { position },
        table,
    };
    keys.named()?;
    let extra = read_extra(height, &keys)?;
    let demerits = keys.whole("demerits", 0, MAX_DEMERITS)?;
    Ok(Run { extra, demerits })
}

/// The runs of these tables.
#[tactic(auto, unfolding(crate::specs::Tables::runs_of))]
pub fn read_runs<'t>(alloc: Global, height: i32, tables: &Tables<'t>) -> Result<Runs, Fault<'t>>
    requires some { pos 1 ≤ℤ height }
    requires limit { height <ℤ pos (2 ^ 30) }
    requires any { 1 ≤ length (tables_in tables.now.values.now) }
    requires few { length (tables_in tables.now.values.now) ≤ 5 }
    ensures value { Tells (λ runs. runs) result (runs_of height (tables_in tables.now.values.now)) }
    ensures range { IfOk result AreRuns }
    ensures heights { IfOk result (AllByRecursion (IsHeight height)) }
{
    let first = read_run(height, 0, tables.at(0))?;
    let mut runs = Runs::new(alloc, first);
    for position in 1..tables.len() {
        let run = read_run(height, position, tables.at(position))?;
        runs.push(run);
    }
    // hands on what the type keeps
    let _runs = runs.as_slice();
    Ok(runs)
}
