//! What the gaps of an area give.
ghost use Rattle.std.specs.Prelude.{◌≡◌, ◌≤◌, ◌<◌, ◌^◌, ◌-◌, ◌+ℤ◌, ◌*ℤ◌, pos, nat_abs};
ghost use Rattle.pg_scaled.specs.Ranges.{IsScaled};
ghost use Rattle.pg_rules.specs.Floats.{area_give as area_give_of, gap_stretch, gap_shrink};

use pg_scaled::{plus, times, wide};
use pg_style::{AreaRule, Give};

// One amount of each gap between floats, and that of the gap next to the text.
fn amounts(sep: i32, gap: i32, between: u32) -> i64
    requires sep { IsScaled sep }
    requires gap { IsScaled gap }
    requires between { between < 2 ^ 12 }
    ensures value { result ≡ (sep *ℤ pos between) +ℤ gap }
    ensures size { nat_abs result < 2 ^ 43 }
{
    plus(times(wide(sep), i64::from(between)), wide(gap))
}

/// What the gaps of an area with so many floats give to the text beside it.
///
/// Condition: there are at most 4096 floats. Takes no memory.
pub fn area_give(rule: &AreaRule, floats: u32) -> Give
    requires { floats ≤ 2 ^ 12 }
    ensures stretch { result.stretch ≡ area_give_of gap_stretch rule.now floats }
    ensures shrink { result.shrink ≡ area_give_of gap_shrink rule.now floats }
    ensures size { (nat_abs result.stretch < 2 ^ 43) × (nat_abs result.shrink < 2 ^ 43) }
{
    if floats == 0 {
        return Give::none();
    }
    let between = floats - 1;
    Give {
        stretch: amounts(rule.sep.stretch, rule.gap.stretch, between),
        shrink: amounts(rule.sep.shrink, rule.gap.shrink, between),
    }
}
