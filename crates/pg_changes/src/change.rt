//! A style with one number changed.
ghost use Rattle.std.specs.Prelude.{◌≡◌, ◌≤◌, ◌<◌, ◌^◌, true, pos, IfSome};
ghost use Rattle.std.specs.List.{AllByRecursion};
ghost use Rattle.pg_style.specs.Ranges.{IsHeight, IsKind, IsRigidKind};
ghost use Rattle.pg_changes.specs.declared.number.Number.TheVariants.{Tolerance, Looseness, LeastText, Height, TopCount};
ghost use Rattle.pg_changes.specs.declared.number.Number.TheVariants.{BottomCount, WideCount, ColumnCount};
ghost use Rattle.pg_changes.specs.Numbers.{with_number as with_number_of};
ghost use Rattle.pg_changes.specs.Numbers.{lengthened as lengthened_kind, limited as limited_kind};
ghost use Rattle.pg_changes.specs.Numbers.{with_count as with_count_of, with_kind as with_kind_of, with_kind_by};

use crate::classes::{copied_classes, copied_runs, kinded_classes};
use crate::kinds::{kind_at, lengthened, limited};
use crate::number::Number;
use pg_scaled::{plus, wide};
use pg_style::{AreaRule, ColumnRule, Kind, Run, Style};
use std::alloc::Global;

/// A value of a number under which a galley has a legal pagination, and whether it has none under the next value towards
/// those that help less.
#[derive(Clone, Copy, PartialEq, Eq)]
pub struct Change {
    pub number: Number,
    pub value: u32,
    pub is_least: bool,
}

// The same style.
fn copied(alloc: Global, style: &Style) -> Style
    ensures { result ≡ style.now }
{
    Style {
        version: style.version,
        columns: style.columns,
        first: style.first,
        height: style.height,
        topskip: style.topskip,
        maxdepth: style.maxdepth,
        min_text: style.min_text,
        tolerance: style.tolerance,
        line: style.line,
        max_looseness: style.max_looseness,
        runs: copied_runs(alloc, &style.runs),
        top: style.top,
        bottom: style.bottom,
        wide: style.wide,
        float_column: style.float_column,
        classes: copied_classes(alloc, &style.classes),
        fitness: style.fitness,
        ragged: style.ragged,
    }
}

// The rule of an area with another count.
fn with_count(rule: AreaRule, count: u8) -> AreaRule
    requires { count ≤ 4 }
    ensures { result ≡ with_count_of rule count }
{
    AreaRule {
        count,
        sep: rule.sep,
        gap: rule.gap,
    }
}

fn with_tolerance(style: Style, tolerance: u16) -> Style
    requires { tolerance ≤ 10000 }
    ensures { result ≡ with_number_of style Tolerance tolerance }
{
    let mut made = style;
    made.tolerance = tolerance;
    made
}

fn with_looseness(style: Style, looseness: u8) -> Style
    requires { looseness ≤ 100 }
    ensures { result ≡ with_number_of style Looseness looseness }
{
    let mut made = style;
    made.max_looseness = looseness;
    made
}

fn with_least_text(style: Style, height: u32) -> Style
    requires { height < 2 ^ 30 }
    ensures { result ≡ with_number_of style LeastText height }
{
    let mut made = style;
    made.min_text = height as i32;
    made
}

fn with_top(style: Style, count: u8) -> Style
    requires { count ≤ 4 }
    ensures { result ≡ with_number_of style TopCount count }
{
    let mut made = style;
    let rule = made.top;
    made.top = with_count(rule, count);
    made
}

fn with_bottom(style: Style, count: u8) -> Style
    requires { count ≤ 4 }
    ensures { result ≡ with_number_of style BottomCount count }
{
    let mut made = style;
    let rule = made.bottom;
    made.bottom = with_count(rule, count);
    made
}

fn with_wide(style: Style, count: u8) -> Style
    requires { count ≤ 4 }
    ensures { result ≡ with_number_of style WideCount count }
{
    let mut made = style;
    let rule = made.wide;
    made.wide = with_count(rule, count);
    made
}

fn with_column(style: Style, count: u8) -> Style
    requires { count ≤ 4 }
    ensures { result ≡ with_number_of style ColumnCount count }
{
    let mut made = style;
    let rule = made.float_column;
    made.float_column = ColumnRule {
        count,
        demerits: rule.demerits,
    };
    made
}

fn with_kind(alloc: Global, style: Style, index: u8, kind: &Kind) -> Style
    requires range { IsKind kind.now }
    requires rigid { style.version ≤ 2 → IsRigidKind kind.now }
    ensures { result ≡ with_kind_of style index kind.now }
{
    let mut made = style;
    let classes = kinded_classes(alloc, &made.classes, index as usize, kind);
    made.classes = classes;
    made
}

// The style with another limit of a class.
fn with_limit(alloc: Global, style: Style, index: u8, limit: u32) -> Option<Style>
    requires { limit < 2 ^ 30 }
    ensures { IfSome result (λ made. made ≡ with_kind_by (limited_kind (pos limit)) style index) }
{
    let old = kind_at(&style, index)?;
    let kind = limited(&old, limit);
    Some(with_kind(alloc, style, index, &kind))
}

// The style with so many entries of a class.
fn with_distance(alloc: Global, style: Style, index: u8, count: u32) -> Option<Style>
    ensures { IfSome result (λ made. made ≡ with_kind_by (lengthened_kind count) style index) }
{
    let old = kind_at(&style, index)?;
    let kind = lengthened(alloc, &old, count as usize)?;
    Some(with_kind(alloc, style, index, &kind))
}

fn with_height(style: Style, height: u32) -> Style
    requires some { 1 ≤ height }
    requires few { height < 2 ^ 30 }
    requires runs { AllByRecursion (IsHeight (pos height)) style.runs }
    ensures { result ≡ with_number_of style Height height }
{
    let mut made = style;
    made.height = height as i32;
    made
}

// Whether each run has columns in range under a height.
fn fits_runs(height: u32, runs: &[Run]) -> bool
    requires { height < 2 ^ 30 }
    ensures { result ≡ true → AllByRecursion (IsHeight (pos height)) runs.now }
{
    let mut rest = runs;
    'runs: while let [run, after @ ..] = rest {
        let sum = plus(i64::from(height), wide(run.extra));
        if sum < 1 || sum >= 1073741824 {
            return false;
        }
        rest = after;
    }
    true
}

// The style with a height, if all columns are in range.
fn heightened(style: Style, height: u32) -> Option<Style>
    requires { height ≤ 1073741823 }
    ensures { IfSome result (λ made. made ≡ with_number_of style Height height) }
{
    if height == 0 || !fits_runs(height, style.runs.as_slice()) {
        return None;
    }
    Some(with_height(style, height))
}

// The style with another count, if a style may have it.
fn counted(style: Style, number: Number, count: u32) -> Option<Style>
    ensures { IfSome result (λ made. made ≡ with_number_of style number count) }
{
    if count > 4 {
        return None;
    }
    match number {
        Number::TopCount => Some(with_top(style, count as u8)),
        Number::BottomCount => Some(with_bottom(style, count as u8)),
        Number::WideCount => Some(with_wide(style, count as u8)),
        Number::ColumnCount => Some(with_column(style, count as u8)),
        _ => None,
    }
}

// The style with another tolerance or looseness, if a style may have it.
fn loosened(style: Style, number: Number, value: u32) -> Option<Style>
    ensures { IfSome result (λ made. made ≡ with_number_of style number value) }
{
    match number {
        Number::Tolerance => {
            if value <= 10000 {
                Some(with_tolerance(style, value as u16))
            } else {
                None
            }
        }
        Number::Looseness => {
            if value <= 100 {
                Some(with_looseness(style, value as u8))
            } else {
                None
            }
        }
        _ => None,
    }
}

/// The style with another value of a number. None where a style may not have it. No memory is taken.
pub fn with_number(alloc: Global, style: &Style, number: Number, value: u32) -> Option<Style>
    requires { value ≤ 1073741823 }
    ensures { IfSome result (λ made. made ≡ with_number_of style.now number value) }
{
    let made = copied(alloc, style);
    match number {
        Number::Tolerance => loosened(made, number, value),
        Number::Looseness => loosened(made, number, value),
        Number::LeastText => Some(with_least_text(made, value)),
        Number::Height => heightened(made, value),
        Number::TopCount => counted(made, number, value),
        Number::BottomCount => counted(made, number, value),
        Number::WideCount => counted(made, number, value),
        Number::ColumnCount => counted(made, number, value),
        Number::Limit { index, .. } => with_limit(alloc, made, index, value),
        Number::Distance { index, .. } => with_distance(alloc, made, index, value),
    }
}
