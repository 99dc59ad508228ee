//! Reading a style file.
ghost use Rattle.std.specs.Prelude.{◌≡◌, ◌≤◌, ◌<◌, ◌^◌, pos, ◌≤ℤ◌, ◌<ℤ◌, length, [], IfOk, IfErr};
ghost use Rattle.toml.specs.View.{table_view};
ghost use Rattle.pg_style.specs.Ranges.{IsStyle};
ghost use Rattle.pg_stylefile.specs.Faults.{Tells, Gives, bare_fault};
ghost use Rattle.pg_stylefile.specs.Root.{IsHead, AreLengths, AreLimits, AreSubtablesFew, subtables_view};
ghost use Rattle.pg_stylefile.specs.Style.{AreAreas, areas_of, AreRules, rules_of, root_of, root_view, IsRoot, style_with, style_of};
ghost use Rattle.pg_stylefile.specs.Style.{table_of_text, style_of_text};

use crate::areas::{read_area, read_column};
use crate::classes::read_classes;
use crate::fault::{Fault, StyleFault, StyleKind, TableName};
use crate::keys::Keys;
use crate::root::{
    Head, Lengths, Limits, Subtables, read_head, read_lengths, read_limits, read_subtables,
};
use crate::runs::read_runs;
use pg_style::{AreaRule, Classes, ColumnRule, Runs, Style};
use std::alloc::Global;
use toml::Table;

/// The root table, with its tables still to be read.
#[derive(Clone, Copy)]
pub struct Root<'t> {
    pub head: Head,
    pub lengths: Lengths,
    pub limits: Limits,
    pub subtables: Subtables<'t>,
}

/// The rules of the three areas.
#[derive(Clone, Copy)]
pub struct Areas {
    pub top: AreaRule,
    pub bottom: AreaRule,
    pub wide: AreaRule,
}

/// What the tables within the root table say.
#[derive(Drop)]
pub struct Rules {
    pub runs: Runs,
    pub areas: Areas,
    pub float_column: ColumnRule,
    pub classes: Classes,
}

#[tactic(auto, unfolding(crate::specs::Style::root_of))]
fn read_root<'t>(table: &'t Table) -> Result<Root<'t>, Fault<'t>>
    ensures value { Tells root_view result (root_of (table_view table.now)) }
    ensures range { IfOk result IsRoot }
{
    let keys = Keys {
        table_name: TableName::Root,
        table,
    };
    keys.named()?;
    let head = read_head(&keys)?;
    let lengths = read_lengths(&keys)?;
    let limits = read_limits(&keys, head.version)?;
    let subtables = read_subtables(&keys, head.version)?;
    Ok(Root {
        head,
        lengths,
        limits,
        subtables,
    })
}

#[tactic(auto, unfolding(crate::specs::Style::areas_of))]
fn read_areas<'t>(version: u8, subtables: &Subtables<'t>) -> Result<Areas, Fault<'t>>
    ensures value { Tells (λ areas. areas) result (areas_of version (subtables_view subtables.now)) }
    ensures range { IfOk result (AreAreas version) }
{
    let top = read_area(version, TableName::Top, subtables.top)?;
    let bottom = read_area(version, TableName::Bottom, subtables.bottom)?;
    let wide = read_area(version, TableName::Wide, subtables.wide)?;
    Ok(Areas { top, bottom, wide })
}

#[tactic(auto, unfolding(crate::specs::Style::rules_of))]
fn read_rules<'t>(
    alloc: Global,
    version: u8,
    height: i32,
    subtables: &Subtables<'t>,
) -> Result<Rules, Fault<'t>>
    requires some { pos 1 ≤ℤ height }
    requires limit { height <ℤ pos (2 ^ 30) }
    requires few { AreSubtablesFew version subtables.now }
    ensures value { Tells (λ rules. rules) result (rules_of version height (subtables_view subtables.now)) }
    ensures range { IfOk result (AreRules version height) }
{
    let runs = read_runs(alloc, height, &subtables.runs)?;
    let areas = read_areas(version, subtables)?;
    let float_column = read_column(subtables.float_column)?;
    let classes = read_classes(alloc, version, &subtables.classes)?;
    Ok(Rules {
        runs,
        areas,
        float_column,
        classes,
    })
}

fn style_from(root: &Root<'_>, rules: Rules) -> Style
    requires root { IsRoot root.now }
    requires rules { AreRules root.now.head.version root.now.lengths.height rules }
    ensures { result ≡ style_with (root_view root.now) rules }
{
    let (head, lengths, limits) = (root.head, root.lengths, root.limits);
    Style {
        version: head.version,
        columns: head.columns,
        first: head.first,
        height: lengths.height,
        topskip: lengths.topskip,
        maxdepth: lengths.maxdepth,
        min_text: lengths.min_text,
        tolerance: limits.tolerance,
        line: limits.line,
        max_looseness: limits.max_looseness,
        runs: rules.runs,
        top: rules.areas.top,
        bottom: rules.areas.bottom,
        wide: rules.areas.wide,
        float_column: rules.float_column,
        classes: rules.classes,
        fitness: limits.fitness,
        ragged: limits.ragged,
    }
}

#[tactic(auto, unfolding(crate::specs::Style::style_of))]
fn read_table<'t>(alloc: Global, table: &'t Table) -> Result<Style, Fault<'t>>
    ensures { Tells (λ style. style) result (style_of (table_view table.now)) }
{
    let root = read_root(table)?;
    let rules = read_rules(
        alloc,
        root.head.version,
        root.lengths.height,
        &root.subtables,
    )?;
    Ok(style_from(&root, rules))
}

#[tactic(auto, using(crate::proofs::TextLemmas::not_utf8, crate::proofs::TextLemmas::read_as, crate::proofs::TextLemmas::refused_as))]
fn parse(alloc: Global, text: &[u8]) -> Result<Table, StyleFault>
    ensures { Gives (λ table. table_view table) result (table_of_text text.now) }
{
    let Ok(text) = std::str::from_utf8(text) else {
        return Err(StyleFault::bare(alloc, StyleKind::Toml));
    };
    toml::table_from_str(alloc, text).map_err(|error| {
        let kind = if error.is_memory() {
            StyleKind::Memory
        } else {
            StyleKind::Toml
        };
        StyleFault::bare(alloc, kind)
    })
}

/// Reads a style file. The first fault in a fixed order is told: the text is no TOML, then the
/// tables from the root on, each key by key. Want of memory alone is told in place of that.
#[tactic(auto, unfolding(crate::specs::Style::style_of_text))]
pub fn read_style(alloc: Global, text: &[u8]) -> Result<Style, StyleFault>
    ensures { Gives (λ style. style) result (style_of_text text.now) }
{
    let table = parse(alloc, text)?;
    match read_table(alloc, &table) {
        Ok(style) => Ok(style),
        Err(fault) => Err(fault.told(alloc)),
    }
}
