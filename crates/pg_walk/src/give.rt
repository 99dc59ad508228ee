//! The most that gaps give.
ghost use Rattle.std.specs.Prelude.{◌≡◌, ◌<◌, ◌^◌, ◌≤◌, length, nat_abs};
ghost use Rattle.pg_list.specs.Whole.{whole_sum_by};
ghost use Rattle.pg_style.specs.Ranges.{IsAreaRule};
ghost use Rattle.pg_style.specs.declared.style.Class.{Class as AClass};
ghost use Rattle.pg_rules.specs.Floats.{area_give as area_give_of, gap_shrink, gap_stretch};
ghost use Rattle.pg_rules.specs.Reach.{greatest_areas, greatest_give as greatest_give_of, skip_give as skip_give_of};

use pg_column::area_give;
use pg_scaled::plus;
use pg_style::{AreaRule, Class, Give, Kind, Style};

// What the skip of a class of notes gives.
fn skip_give(class: &Class) -> Give
    ensures shrink { result.shrink ≡ skip_give_of gap_shrink class.now.kind }
    ensures size { (nat_abs result.stretch ≤ 2 ^ 31) × (nat_abs result.shrink ≤ 2 ^ 31) }
{
    match &class.kind {
        Kind::Note { skip, .. } => skip.give(),
        Kind::Float { .. } => Give::none(),
    }
}

// What the skips of all classes give.
fn skips_give(classes: &[Class]) -> Give
    requires { length classes.now ≤ 8 }
    ensures shrink { result.shrink ≡ whole_sum_by (λ (class : AClass). skip_give_of gap_shrink class.kind) classes.now }
    ensures size { (nat_abs result.stretch ≤ 2 ^ 34) × (nat_abs result.shrink ≤ 2 ^ 34) }
{
    let mut give = Give::none();
    let mut rest = classes;
    'classes: while let [class, after @ ..] = rest {
        give = give.plus(skip_give(class));
        rest = after;
    }
    give
}

// What the gaps of a full area give.
fn full_give(rule: &AreaRule) -> Give
    requires { IsAreaRule rule.now }
    ensures stretch { result.stretch ≡ area_give_of gap_stretch rule.now rule.now.count }
    ensures shrink { result.shrink ≡ area_give_of gap_shrink rule.now rule.now.count }
    ensures size { (nat_abs result.stretch < 2 ^ 33) × (nat_abs result.shrink < 2 ^ 33) }
{
    area_give(rule, u32::from(rule.count))
}

/// The most by which the gaps of two full areas may be stretched and shrunk.
pub(crate) fn areas_give(style: &Style) -> Give
    ensures stretch { result.stretch ≡ greatest_areas gap_stretch style.now }
    ensures shrink { result.shrink ≡ greatest_areas gap_shrink style.now }
    ensures size { (nat_abs result.stretch < 2 ^ 40) × (nat_abs result.shrink < 2 ^ 40) }
{
    style.stays_in_range();
    full_give(&style.top).plus(full_give(&style.bottom))
}

/// The most by which the gaps around a text may be shrunk.
pub(crate) fn greatest_shrink(style: &Style) -> i64
    ensures value { result ≡ greatest_give_of gap_shrink style.now }
    ensures size { nat_abs result < 2 ^ 41 }
{
    style.stays_in_range();
    let areas = areas_give(style);
    let skips = skips_give(style.classes.as_slice());
    plus(areas.shrink, skips.shrink)
}
