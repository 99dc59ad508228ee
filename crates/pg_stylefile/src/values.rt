//! What one value of a style file says.
ghost use Rattle.std.specs.Prelude.{◌≡◌, ◌≤◌, pos, ◌≤ℤ◌, IfOk};
ghost use Rattle.toml.specs.View.{view, table_view};
ghost use Rattle.pg_stylefile.specs.Values.{Answers, whole_of, text_of, table_of, dimension_in, dimension_of};
ghost use Rattle.pg_stylefile.specs.Values.{first_of, first_named, area_of, area_named, sort_of, sort_named};

use crate::fault::StyleKind;
use pg_scaled::{Front, read_scaled};
use pg_style::{Area, First};
use toml::{Table, Value};

/// What the inserts of a class are.
#[derive(Clone, Copy, PartialEq, Eq)]
pub enum Sort {
    Note,
    Float,
}

/// A whole number within a range.
#[tactic(auto, unfolding(crate::specs::Values::whole_of))]
pub fn as_whole(value: &Value, low: u32, high: u32) -> Result<u32, StyleKind>
    ensures value { result ≡ whole_of low high (view value.now) }
    ensures low { IfOk result (λ n. low ≤ n) }
    ensures high { IfOk result (λ n. n ≤ high) }
{
    let Some(number) = value.as_integer() else {
        return Err(StyleKind::WrongKind);
    };
    match u32::try_from(number) {
        Ok(number) if low <= number && number <= high => Ok(number),
        _ => Err(StyleKind::OutOfRange),
    }
}

#[tactic(auto, unfolding(crate::specs::Values::text_of))]
pub fn as_text(value: &Value) -> Result<&str, StyleKind>
    ensures { Answers (λ text. text.now) result (text_of (view value.now)) }
{
    match value.as_str() {
        Some(text) => Ok(text),
        None => Err(StyleKind::WrongKind),
    }
}

#[tactic(auto, unfolding(crate::specs::Values::table_of))]
pub fn as_table(value: &Value) -> Result<&Table, StyleKind>
    ensures { Answers (λ table. table_view table.now) result (table_of (view value.now)) }
{
    match value.as_table() {
        Some(table) => Ok(table),
        None => Err(StyleKind::WrongKind),
    }
}

#[tactic(auto, unfolding(crate::specs::Values::dimension_in))]
fn dimension(text: &[u8], low: i32, high: i32) -> Result<i32, StyleKind>
    ensures value { result ≡ dimension_in low high text.now }
    ensures low { IfOk result (λ z. low ≤ℤ z) }
    ensures high { IfOk result (λ z. z ≤ℤ high) }
{
    match read_scaled(text) {
        Front::Value { value, len } if len == text.len() => {
            if low <= value && value <= high {
                Ok(value)
            } else {
                Err(StyleKind::OutOfRange)
            }
        }
        Front::TooLarge { len } if len == text.len() => Err(StyleKind::OutOfRange),
        _ => Err(StyleKind::WrongKind),
    }
}

/// A text that is wholly a scaled number within a range.
#[tactic(auto, unfolding(crate::specs::Values::dimension_of))]
pub fn as_dimension(value: &Value, low: i32, high: i32) -> Result<i32, StyleKind>
    ensures value { result ≡ dimension_of low high (view value.now) }
    ensures low { IfOk result (λ z. low ≤ℤ z) }
    ensures high { IfOk result (λ z. z ≤ℤ high) }
{
    let text = as_text(value)?;
    dimension(text.as_bytes(), low, high)
}

#[tactic(auto, unfolding(crate::specs::Values::first_named))]
fn first_word(text: &str) -> Result<First, StyleKind>
    ensures { result ≡ first_named text.now }
{
    if text == "left" {
        Ok(First::Left)
    } else if text == "right" {
        Ok(First::Right)
    } else if text == "single" {
        Ok(First::Single)
    } else {
        Err(StyleKind::WrongKind)
    }
}

/// The side of the first page.
#[tactic(auto, unfolding(crate::specs::Values::first_of))]
pub fn as_first(value: &Value) -> Result<First, StyleKind>
    ensures { result ≡ first_of (view value.now) }
{
    let text = as_text(value)?;
    first_word(text)
}

#[tactic(auto, unfolding(crate::specs::Values::area_named))]
fn area_word(text: &str) -> Result<Area, StyleKind>
    ensures { result ≡ area_named text.now }
{
    if text == "top" {
        Ok(Area::Top)
    } else if text == "bottom" {
        Ok(Area::Bottom)
    } else if text == "both" {
        Ok(Area::Both)
    } else if text == "wide" {
        Ok(Area::Wide)
    } else {
        Err(StyleKind::WrongKind)
    }
}

/// Where the floats of a class may stand.
#[tactic(auto, unfolding(crate::specs::Values::area_of))]
pub fn as_area(value: &Value) -> Result<Area, StyleKind>
    ensures { result ≡ area_of (view value.now) }
{
    let text = as_text(value)?;
    area_word(text)
}

#[tactic(auto, unfolding(crate::specs::Values::sort_named))]
fn sort_word(text: &str) -> Result<Sort, StyleKind>
    ensures { result ≡ sort_named text.now }
{
    if text == "note" {
        Ok(Sort::Note)
    } else if text == "float" {
        Ok(Sort::Float)
    } else {
        Err(StyleKind::WrongKind)
    }
}

/// What the inserts of a class are.
#[tactic(auto, unfolding(crate::specs::Values::sort_of))]
pub fn as_sort(value: &Value) -> Result<Sort, StyleKind>
    ensures { result ≡ sort_of (view value.now) }
{
    let text = as_text(value)?;
    sort_word(text)
}
