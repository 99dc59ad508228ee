//! Numbers of a style.
ghost use Rattle.std.specs.Prelude.{◌≡◌, ◌≤◌, length, IfSome};
ghost use Rattle.std.specs.Option.{option_map_or};
ghost use Rattle.pg_changes.specs.Numbers.{entries_in as entries_in_kind, falls as falls_of, kind_at};
ghost use Rattle.pg_changes.specs.Numbers.{IsNamed, limit_in as limit_in_kind};
ghost use Rattle.pg_changes.specs.Numbers.{step_back as step_back_of, value_in};

use pg_scaled::{minus, wide};
use pg_style::{Distance, Kind, Style};

/// A number of a style. A limit is that of the class of notes at an index, which has a number; a distance is how many
/// entries that of a class of floats has.
#[derive(Clone, Copy, PartialEq, Eq)]
pub enum Number {
    Tolerance,
    Looseness,
    LeastText,
    Height,
    TopCount,
    BottomCount,
    WideCount,
    ColumnCount,
    Limit { index: u8, class: u8 },
    Distance { index: u8, class: u8 },
}

/// The greatest length, in scaled points.
pub const LENGTH: u32 = 1073741823;

// The limit of a kind of notes.
fn limit_in(kind: &Kind) -> u32
    ensures { result ≡ limit_in_kind kind.now }
{
    match kind {
        Kind::Note { limit, .. } => limit.unsigned_abs(),
        Kind::Float { .. } => 0,
    }
}

// How many entries a kind of floats has.
fn entries_in(kind: &Kind) -> u32
    ensures { result ≡ entries_in_kind kind.now }
{
    match kind {
        Kind::Note { .. } => 0,
        Kind::Float { distance, .. } => entry_count(distance),
    }
}

// How many entries a table of distances has.
fn entry_count(distance: &Distance) -> u32
    ensures { result ≡ length distance.now }
{
    distance.as_slice().len() as u32
}

// The limit of the class at an index, or 0.
fn limit_at(style: &Style, index: u8) -> u32
    ensures { result ≡ option_map_or limit_in_kind (kind_at style.now.classes index) 0 }
{
    match style.classes.as_slice().get(index as usize) {
        Some(class) => limit_in(&class.kind),
        None => 0,
    }
}

// How many entries the class at an index has, or 0.
fn entries_at(style: &Style, index: u8) -> u32
    ensures { result ≡ option_map_or entries_in_kind (kind_at style.now.classes index) 0 }
{
    match style.classes.as_slice().get(index as usize) {
        Some(class) => entries_in(&class.kind),
        None => 0,
    }
}

/// The value that a style has of a number; a length counts scaled points.
pub fn value_of(style: &Style, number: Number) -> u32
    ensures { result ≡ value_in style.now number }
{
    match number {
        Number::Tolerance => u32::from(style.tolerance),
        Number::Looseness => u32::from(style.max_looseness),
        Number::LeastText => style.min_text.unsigned_abs(),
        Number::Height => style.height.unsigned_abs(),
        Number::TopCount => u32::from(style.top.count),
        Number::BottomCount => u32::from(style.bottom.count),
        Number::WideCount => u32::from(style.wide.count),
        Number::ColumnCount => u32::from(style.float_column.count),
        Number::Limit { index, .. } => limit_at(style, index),
        Number::Distance { index, .. } => entries_at(style, index),
    }
}

/// The number of the class at an index: the limit of one of notes, the entries of one of floats.
pub fn number_at(style: &Style, index: u8) -> Option<Number>
    ensures { IfSome result (IsNamed style.now) }
{
    let class = style.classes.as_slice().get(index as usize)?;
    match class.kind {
        Kind::Note { .. } => Some(Number::Limit {
            index,
            class: class.number,
        }),
        Kind::Float { .. } => Some(Number::Distance {
            index,
            class: class.number,
        }),
    }
}

// The greatest height of a style's columns under which each run has one in range.
fn greatest_height(style: &Style) -> u32 {
    let mut extra = 0;
    for run in style.runs.as_slice() {
        if extra < run.extra {
            extra = run.extra;
        }
    }
    let left = minus(i64::from(LENGTH), wide(extra));
    if 0 < left && left < i64::from(LENGTH) {
        left as u32
    } else {
        LENGTH
    }
}

/// The value of a number that helps most.
pub fn far_of(style: &Style, number: Number) -> u32 {
    match number {
        Number::Tolerance => 10000,
        Number::Looseness => 100,
        Number::LeastText => 0,
        Number::Height => greatest_height(style),
        Number::Limit { .. } => LENGTH,
        Number::Distance { .. } => 9,
        Number::TopCount => 4,
        Number::BottomCount => 4,
        Number::WideCount => 4,
        Number::ColumnCount => 4,
    }
}

// Whether a number helps where it is lower.
fn falls(number: Number) -> bool
    ensures { result ≡ falls_of number }
{
    match number {
        Number::LeastText => true,
        _ => false,
    }
}

/// The next value towards those that help less.
pub fn step_back(number: Number, value: u32) -> u32
    requires { value ≤ 1073741823 }
    ensures { result ≡ step_back_of number value }
{
    if falls(number) {
        value.saturating_add(1)
    } else {
        value.saturating_sub(1)
    }
}
