//! The root table.
ghost use Rattle.std.specs.Prelude.{◌≡◌, ◌≤◌, length, IfOk, None};
ghost use Rattle.toml.specs.View.{table_view};
ghost use Rattle.pg_style.specs.Ranges.{IsFoot};
ghost use Rattle.pg_stylefile.specs.Faults.{Tells};
ghost use Rattle.pg_stylefile.specs.Values.{tables_in};
ghost use Rattle.pg_stylefile.specs.Root.{IsHead, AreLengths, AreLimits, AreSubtablesFew, subtables_view, head_of};
ghost use Rattle.pg_stylefile.specs.Root.{lengths_of, fitness_of, limits_of, most_classes, run_tables, class_tables};
ghost use Rattle.pg_stylefile.specs.Root.{subtables_of, no_fitness_yet, no_ragged_yet, ragged_of};

use crate::fault::{Fault, StyleKind};
use crate::keys::{Keys, MAX_DEMERITS, MAX_DIMENSION};
use crate::tables::Tables;
use pg_style::{First, MAX_COLUMNS};
use toml::Table;

/// The version, and how pages stand.
#[derive(Clone, Copy)]
pub struct Head {
    pub version: u8,
    pub columns: u8,
    pub first: First,
}

/// The dimensions of a column, in scaled points.
#[derive(Clone, Copy)]
pub struct Lengths {
    pub height: i32,
    pub topskip: i32,
    pub maxdepth: i32,
    pub min_text: i32,
}

/// What is tolerable, and what it costs.
#[derive(Clone, Copy)]
pub struct Limits {
    pub tolerance: u16,
    pub line: u16,
    pub max_looseness: u8,
    pub fitness: u32,
    pub ragged: Option<i32>,
}

/// The tables within the root table.
#[derive(Clone, Copy)]
pub struct Subtables<'t> {
    pub runs: Tables<'t>,
    pub top: &'t Table,
    pub bottom: &'t Table,
    pub wide: &'t Table,
    pub float_column: &'t Table,
    pub classes: Tables<'t>,
}

// Version 1 knows no fitness.
#[tactic(auto, unfolding(crate::specs::Root::no_fitness_yet))]
fn refuse_fitness<'t>(keys: &Keys<'t>, version: u32) -> Result<(), Fault<'t>>
    ensures { Tells (λ x. x) result (no_fitness_yet keys.now.table_name version (table_view keys.now.table.now)) }
{
    if version == 1 {
        return keys.absent("fitness");
    }
    Ok(())
}

// Versions 1 and 2 know no ragged texts.
#[tactic(auto, unfolding(crate::specs::Root::no_ragged_yet))]
fn refuse_ragged<'t>(keys: &Keys<'t>, version: u32) -> Result<(), Fault<'t>>
    ensures { Tells (λ x. x) result (no_ragged_yet keys.now.table_name version (table_view keys.now.table.now)) }
{
    if version == 3 {
        return Ok(());
    }
    keys.absent("ragged")
}

#[tactic(auto, unfolding(crate::specs::Root::head_of))]
pub fn read_head<'t>(keys: &Keys<'t>) -> Result<Head, Fault<'t>>
    ensures value { Tells (λ head. head) result (head_of keys.now.table_name (table_view keys.now.table.now)) }
    ensures range { IfOk result IsHead }
{
    let version = keys.whole("version", 1, 3)?;
    refuse_fitness(keys, version)?;
    refuse_ragged(keys, version)?;
    let columns = keys.whole("columns", 1, u32::from(MAX_COLUMNS))?;
    let first = keys.first("first")?;
    Ok(Head {
        version: version as u8,
        columns: columns as u8,
        first,
    })
}

#[tactic(auto, unfolding(crate::specs::Root::lengths_of))]
pub fn read_lengths<'t>(keys: &Keys<'t>) -> Result<Lengths, Fault<'t>>
    ensures value { Tells (λ lengths. lengths) result (lengths_of keys.now.table_name (table_view keys.now.table.now)) }
    ensures range { IfOk result AreLengths }
{
    let height = keys.dimension("height", 1, MAX_DIMENSION)?;
    let topskip = keys.length("topskip")?;
    let maxdepth = keys.length("maxdepth")?;
    let min_text = keys.length("min_text")?;
    Ok(Lengths {
        height,
        topskip,
        maxdepth,
        min_text,
    })
}

#[tactic(auto, unfolding(crate::specs::Root::fitness_of))]
fn read_fitness<'t>(keys: &Keys<'t>, version: u8) -> Result<u32, Fault<'t>>
    ensures value { Tells (λ fitness. fitness) result (fitness_of keys.now.table_name version
        (table_view keys.now.table.now)) }
    ensures range { IfOk result (λ fitness. fitness ≤ 100000000) }
    ensures first { IfOk result (λ fitness. version ≡ 1 → fitness ≡ 0) }
{
    if version == 1 {
        return Ok(0);
    }
    keys.whole("fitness", 0, MAX_DEMERITS)
}

#[tactic(auto, unfolding(crate::specs::Root::ragged_of))]
fn read_ragged<'t>(keys: &Keys<'t>, version: u8) -> Result<Option<i32>, Fault<'t>>
    ensures value { Tells (λ ragged. ragged) result (ragged_of keys.now.table_name version
        (table_view keys.now.table.now)) }
    ensures range { IfOk result IsFoot }
    ensures none { IfOk result (λ ragged. version ≤ 2 → ragged ≡ None) }
{
    if version == 3 {
        return keys.dimension_if_any("ragged", 1, MAX_DIMENSION);
    }
    Ok(None)
}

#[tactic(auto, unfolding(crate::specs::Root::limits_of))]
pub fn read_limits<'t>(keys: &Keys<'t>, version: u8) -> Result<Limits, Fault<'t>>
    ensures value { Tells
        (λ limits. limits) result (limits_of keys.now.table_name version (table_view keys.now.table.now)) }
    ensures range { IfOk result (AreLimits version) }
{
    let tolerance = keys.whole("tolerance", 0, 10000)?;
    let line = keys.whole("line", 0, 10000)?;
    let max_looseness = keys.whole("max_looseness", 0, 100)?;
    let fitness = read_fitness(keys, version)?;
    let ragged = read_ragged(keys, version)?;
    Ok(Limits {
        tolerance: tolerance as u16,
        line: line as u16,
        max_looseness: max_looseness as u8,
        fitness,
        ragged,
    })
}

#[tactic(auto, unfolding(crate::specs::Root::run_tables))]
fn read_run_tables<'t>(keys: &Keys<'t>) -> Result<Tables<'t>, Fault<'t>>
    ensures value { Tells (λ tables. tables_in tables.values.now) result (run_tables keys.now.table_name
        (table_view keys.now.table.now)) }
    ensures some { IfOk result (λ tables. 1 ≤ length (tables_in tables.values.now)) }
    ensures few { IfOk result (λ tables. length (tables_in tables.values.now) ≤ 5) }
{
    let tables = keys.tables("runs")?;
    let count = tables.len();
    if count == 0 {
        return Err(keys.fault(StyleKind::NoRun, "runs"));
    }
    if count > 5 {
        return Err(keys.fault(StyleKind::OutOfRange, "runs"));
    }
    Ok(tables)
}

#[tactic(auto, unfolding(crate::specs::Root::class_tables))]
fn read_class_tables<'t>(keys: &Keys<'t>, version: u8) -> Result<Tables<'t>, Fault<'t>>
    ensures value { Tells (λ tables. tables_in tables.values.now) result (class_tables keys.now.table_name version
        (table_view keys.now.table.now)) }
    ensures few { IfOk result (λ tables. length (tables_in tables.values.now) ≤ most_classes version) }
{
    let tables = keys.tables_if_any("classes")?;
    let most = if version == 1 { 4 } else { 8 };
    if tables.len() > most {
        return Err(keys.fault(StyleKind::OutOfRange, "classes"));
    }
    Ok(tables)
}

#[tactic(auto, unfolding(crate::specs::Root::subtables_of))]
pub fn read_subtables<'t>(keys: &Keys<'t>, version: u8) -> Result<Subtables<'t>, Fault<'t>>
    ensures value { Tells subtables_view result (subtables_of keys.now.table_name version (table_view keys.now.table.now)) }
    ensures few { IfOk result (AreSubtablesFew version) }
{
    let runs = read_run_tables(keys)?;
    let top = keys.table("top")?;
    let bottom = keys.table("bottom")?;
    let wide = keys.table("wide")?;
    let float_column = keys.table("float_column")?;
    let classes = read_class_tables(keys, version)?;
    Ok(Subtables {
        runs,
        top,
        bottom,
        wide,
        float_column,
        classes,
    })
}
