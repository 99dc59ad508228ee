//! The fewest lines from each place to the end.
ghost use Rattle.std.specs.Prelude.{◌≡◌, ◌≤◌, ◌+◌, Contains, length, IfOk};
ghost use Rattle.pg_hlist.specs.Items.{IsPara};
ghost use Rattle.law_lines.specs.LineSpace.{IsLow};
ghost use Rattle.pg_lines.specs.declared.ends.LineEnd.{LineEnd as AnEnd};
ghost use Rattle.pg_lines.specs.Ends.{all_ends};
ghost use Rattle.pg_lines.specs.Moves.{low_by};

use crate::best::BestSpace;
use crate::ends::LineEnd;
use std::alloc::{AllocError, Global};

/// How many lines stand at least from a place to the end of a paragraph of so many items, told from the end back.
pub fn low_at(low: &[u32], len: usize, place: u32) -> u32
    ensures { result ≡ low_by len low.now place }
{
    match low.get(len.saturating_sub(place as usize)) {
        Some(low) => *low,
        None => 0,
    }
}

// One line more than behind an end, where that is fewer than these.
fn fewer_by(fewest: u32, end: &LineEnd, low: &[u32], len: usize) -> u32
    ensures fewer { result ≤ fewest }
    ensures by { result ≤ low_by len low.now end.now.place + 1 }
{
    let behind = low_at(low, len, end.place);
    if behind < fewest { behind + 1 } else { fewest }
}

// One line more than behind one of these ends, where that is fewest, and no more than a cap.
fn fewest_over(ends: &[LineEnd], low: &[u32], len: usize, cap: u32) -> u32
    ensures { (e : AnEnd) → Contains ends.now e → result ≤ low_by len low.now e.place + 1 }
{
    let mut fewest = cap;
    let mut rest = ends;
    'ends: while let [end, after @ ..] = rest {
        fewest = fewer_by(fewest, end, low, len);
        rest = after;
    }
    fewest
}

/// How many lines stand at least from each place of a paragraph to its end: 0 at the end, and one more than at the end of
/// a line from there. The end stands first, the front last.
pub fn fewest_lines(alloc: Global, space: &BestSpace<'_>) -> Result<Vec<u32>, AllocError>
    requires para { IsPara space.now.items.now }
    requires lists { space.now.lists.now ≡ all_ends space.now.rule.now space.now.items.now }
    ensures { IfOk result (λ low. IsLow space.now.rule.now space.now.items.now
        (low_by (length space.now.items.now) low.items)) }
{
    let len = space.items.len();
    let cap = len as u32 + 1;
    let mut low = Vec::new(alloc);
    low.push(0)?;
    let mut place = len;
    'back: while place > 0 {
        place -= 1;
        let fewest = fewest_over(space.lists.ends_at(place), low.as_slice(), len, cap);
        low.push(fewest)?;
    }
    Ok(low)
}
