//! How many floats of each class an area may take.
ghost use Rattle.std.specs.Prelude.{◌≡◌, ◌-◌, length, if◌then◌else◌, IfOk};
ghost use Rattle.pg_rules.specs.Floats.{entry as entry_of, float_numbers};
ghost use Rattle.pg_floats.specs.Spots.{takes_of, takes_slot};
ghost use Rattle.pg_layouts.specs.Layouts.{limits};

use pg_floats::{Spot, entry};
use pg_plan::Counts;
use pg_style::Style;
use std::alloc::{AllocError, Global};

// How many floats of a slot an area may take.
fn limit_of(spot: Spot, style: &Style, before: &[u16], ceiling: &[u16], slot: usize) -> u16
    ensures { result ≡ (if takes_slot style.now (takes_of spot) slot
        then entry_of ceiling.now slot - entry_of before.now slot else 0) }
{
    if spot.takes_slot(style, slot) {
        entry(ceiling, slot).saturating_sub(entry(before, slot))
    } else {
        0
    }
}

/// Of each class that an area takes, the floats between those that are placed and a ceiling.
pub fn area_limits(
    alloc: Global,
    spot: Spot,
    style: &Style,
    slots: usize,
    before: &[u16],
    ceiling: &[u16],
) -> Result<Counts, AllocError>
    requires { slots ≡ length (float_numbers style.now) }
    ensures { IfOk result (λ counts. counts ≡ limits style.now (takes_of spot) before.now ceiling.now) }
{
    let mut counts = Counts::new(alloc);
    for slot in 0..slots {
        counts.push(limit_of(spot, style, before, ceiling, slot))?;
    }
    Ok(counts)
}
