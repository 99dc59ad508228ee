//! Heights of areas and columns, in scaled points.
ghost use Rattle.std.specs.Prelude.{◌≡◌, ◌≤◌, ◌<◌, ◌^◌, ◌+ℤ◌, List, length, nat_abs, pos, slice_get};
ghost use Rattle.std.specs.Option.{option_map_or};
ghost use Rattle.pg_list.specs.declared.blocks.Block.{Block as ABlock};
ghost use Rattle.pg_style.specs.Ranges.{IsStyle};
ghost use Rattle.pg_style.specs.Values.{StyleValue};
ghost use Rattle.pg_rules.specs.Floats.{floats, gap_shrink, gap_stretch};
ghost use Rattle.pg_rules.specs.Room.{checked_give as the_checked_give, checked_height, extra};
ghost use Rattle.pg_floats.specs.AreFloats.{AreFloats};

use crate::FloatList;
use pg_column::area_give;
use pg_plan::Counts;
use pg_scaled::{plus, wide};
use pg_style::{AreaRule, Give, Run, Style};

/// The height of an area with the next floats of each class; 0 where its counts are not allowed, or a float is not there.
pub fn checked_area(
    list: &FloatList,
    is_allowed: bool,
    rule: &AreaRule,
    placed: &Counts,
    counts: &Counts,
) -> i64
    ensures { (blocks : List ABlock) (style : StyleValue) → AreFloats blocks style list.now →
        result ≡ checked_height (floats blocks style) is_allowed rule.now placed.now counts.now }
{
    if !is_allowed {
        return 0;
    }
    list.area(rule, placed, counts).unwrap_or(0)
}

/// What the gaps of an area with the next floats of each class give to the text beside it; nothing where its counts are
/// not allowed, or a float is not there.
pub fn checked_give(
    list: &FloatList,
    is_allowed: bool,
    rule: &AreaRule,
    placed: &Counts,
    counts: &Counts,
) -> Give
    ensures stretch { (blocks : List ABlock) (style : StyleValue) → AreFloats blocks style list.now →
        result.stretch ≡ the_checked_give gap_stretch (floats blocks style) is_allowed rule.now placed.now counts.now }
    ensures shrink { (blocks : List ABlock) (style : StyleValue) → AreFloats blocks style list.now →
        result.shrink ≡ the_checked_give gap_shrink (floats blocks style) is_allowed rule.now placed.now counts.now }
    ensures size { (nat_abs result.stretch < 2 ^ 43) × (nat_abs result.shrink < 2 ^ 43) }
{
    if !is_allowed {
        return Give::none();
    }
    match list.count(placed, counts) {
        None => Give::none(),
        Some(count) => area_give(rule, count),
    }
}

// What a run adds to the height; 0 where there is no such run.
fn extra_of(runs: &[Run], run: u8) -> i64
    ensures value { result ≡ option_map_or (λ it. it.extra) (slice_get runs.now run) (pos 0) }
    ensures size { nat_abs result ≤ 2 ^ 31 }
{
    match runs.get(run as usize) {
        Some(run) => wide(run.extra),
        None => 0,
    }
}

/// The height of a column on a page of a run.
pub fn full_height(style: &Style, run: u8) -> i64
    ensures value { result ≡ style.now.height +ℤ extra style.now run }
    ensures size { nat_abs result < 2 ^ 33 }
{
    plus(wide(style.height), extra_of(style.runs.as_slice(), run))
}
