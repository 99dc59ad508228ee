//! Gaps.
ghost use Rattle.std.specs.Prelude.{◌≡◌, ◌≤◌, IfOk, IfSome};
ghost use Rattle.toml.specs.View.{view};
ghost use Rattle.pg_scaled.specs.Ranges.{IsScaled};
ghost use Rattle.pg_style.specs.Ranges.{IsGap, IsRigid};
ghost use Rattle.pg_stylefile.specs.Values.{Answers, part_at, part_behind as behind_said, gap_of_numbers, gap_from as gap_said, gap_in, gap_of};

use crate::fault::StyleKind;
use crate::keys::MAX_DIMENSION;
use crate::values::{as_dimension, as_text};
use pg_scaled::{Front, read_scaled};
use pg_scan::skip;
use pg_style::Gap;
use toml::Value;

// The number in front of a text, none where it is too large, and what stands behind it.
#[tactic(auto, unfolding(crate::specs::Values::part_at))]
fn part(text: &[u8]) -> Result<(Option<i32>, &[u8]), StyleKind>
    ensures value { Answers (λ x. (x.0, x.1.now)) result (part_at text.now) }
    ensures range { IfOk result (λ x. IfSome x.0 IsScaled) }
{
    match read_scaled(text) {
        Front::Value { value, len } => Ok((Some(value), &text[len..])),
        Front::TooLarge { len } => Ok((None, &text[len..])),
        Front::NotNumber => Err(StyleKind::WrongKind),
    }
}

// The number behind a word, 0 where the word does not stand in front.
#[tactic(auto, unfolding(crate::specs::Values::part_behind))]
fn part_behind<'a>(word: &[u8], text: &'a [u8]) -> Result<(Option<i32>, &'a [u8]), StyleKind>
    ensures value { Answers (λ x. (x.0, x.1.now)) result (behind_said word.now text.now) }
    ensures range { IfOk result (λ x. IfSome x.0 IsScaled) }
{
    match skip(word, text) {
        Some(rest) => part(rest),
        None => Ok((Some(0), text)),
    }
}

fn checked_gap(size: i32, stretch: i32, shrink: i32) -> Result<Gap, StyleKind>
    requires size { IsScaled size }
    requires stretch { IsScaled stretch }
    ensures value { result ≡ gap_of_numbers size stretch shrink }
    ensures range { IfOk result IsGap }
{
    if 0 <= size && (0 <= stretch && (0 <= shrink && shrink <= size)) {
        Ok(Gap {
            size,
            stretch,
            shrink,
        })
    } else {
        Err(StyleKind::OutOfRange)
    }
}

// The gap of three numbers that are there.
#[tactic(auto, unfolding(crate::specs::Values::gap_from))]
fn gap_from(size: Option<i32>, stretch: Option<i32>, shrink: Option<i32>) -> Result<Gap, StyleKind>
    requires size { IfSome size IsScaled }
    requires stretch { IfSome stretch IsScaled }
    ensures value { result ≡ gap_said size stretch shrink }
    ensures range { IfOk result IsGap }
{
    let Some(size) = size else {
        return Err(StyleKind::OutOfRange);
    };
    let Some(stretch) = stretch else {
        return Err(StyleKind::OutOfRange);
    };
    let Some(shrink) = shrink else {
        return Err(StyleKind::OutOfRange);
    };
    checked_gap(size, stretch, shrink)
}

// A text that is wholly a gap.
#[tactic(auto, unfolding(crate::specs::Values::gap_in))]
fn gap(text: &[u8]) -> Result<Gap, StyleKind>
    ensures value { result ≡ gap_in text.now }
    ensures range { IfOk result IsGap }
{
    let (size, rest) = part(text)?;
    let (stretch, rest) = part_behind(b" plus ", rest)?;
    let (shrink, rest) = part_behind(b" minus ", rest)?;
    if !rest.is_empty() {
        return Err(StyleKind::WrongKind);
    }
    gap_from(size, stretch, shrink)
}

/// A gap, which before version 3 is a length.
#[tactic(auto, unfolding(crate::specs::Values::gap_of))]
pub fn as_gap(version: u8, value: &Value) -> Result<Gap, StyleKind>
    ensures value { result ≡ gap_of version (view value.now) }
    ensures range { IfOk result IsGap }
    ensures rigid { IfOk result (λ gap. version ≤ 2 → IsRigid gap) }
{
    if version == 3 {
        return gap(as_text(value)?.as_bytes());
    }
    let size = as_dimension(value, 0, MAX_DIMENSION)?;
    Ok(Gap::rigid(size))
}
