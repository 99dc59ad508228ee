//! Counts of floats by class.
ghost use Rattle.std.specs.Prelude.{◌≡◌, ◌≤◌, ◌<◌, ◌*◌, ◌==◌, ◌||◌, ◌&&◌, ◌^◌, length, slice_index, IfOk};
ghost use Rattle.std.specs.List.{list_all, range_with_len};
ghost use Rattle.pg_rules.specs.Floats.{float_numbers, is_area_allowed, total_count};
ghost use Rattle.pg_floats.specs.Counts.{capped_sum, count_in, is_slot_allowed};
ghost use Rattle.pg_floats.specs.Spots.{takes_of};

use crate::spot::Spot;
use pg_plan::Counts;
use pg_style::Style;
use std::alloc::{AllocError, Global};

/// An entry; 0 where the list lacks it.
pub fn entry(counts: &[u16], slot: usize) -> u16
    ensures value { result ≡ slice_index counts.now slot }
{
    match counts.get(slot) {
        Some(count) => *count,
        None => 0,
    }
}

/// How many floats counts deal out; entries beyond the slots deal out none.
pub fn count_floats(slots: usize, counts: &[u16]) -> u32
    requires { slots ≤ 8 }
    ensures { result ≡ count_in slots counts.now }
{
    let mut count = 0;
    for slot in 0..slots {
        count += u32::from(entry(counts, slot));
    }
    count
}

/// Counts added, class by class; none goes above 65535.
pub fn plus(alloc: Global, slots: usize, a: &[u16], b: &[u16]) -> Result<Counts, AllocError>
    ensures { IfOk result (λ counts. counts ≡ capped_sum slots a.now b.now) }
{
    let mut counts = Counts::new(alloc);
    for slot in 0..slots {
        counts.push(entry(a, slot).saturating_add(entry(b, slot)))?;
    }
    Ok(counts)
}

// All counts together.
pub fn total(counts: &[u16]) -> u32
    requires { length counts.now ≤ 8 }
    ensures { result ≡ total_count counts.now }
{
    let mut total = 0;
    for count in counts {
        total += u32::from(*count);
    }
    total
}

fn is_allowed_at(style: &Style, spot: Spot, counts: &[u16], slot: usize) -> bool
    ensures { result ≡ is_slot_allowed style.now (takes_of spot) counts.now slot }
{
    entry(counts, slot) == 0 || spot.takes_slot(style, slot)
}

// Whether each class of which counts deal out a float may stand at a spot.
fn are_slots_allowed(style: &Style, spot: Spot, counts: &[u16]) -> bool
    ensures { result ≡ list_all (is_slot_allowed style.now (takes_of spot) counts.now) (range_with_len 0 (length counts.now)) }
{
    for slot in 0..counts.len() {
        if !is_allowed_at(style, spot, counts, slot) {
            return false;
        }
    }
    true
}

/// Whether counts have an entry for each class, deal out no more floats than the limit, and only such as may stand at a
/// spot.
pub fn is_allowed(style: &Style, spot: Spot, limit: u8, slots: usize, counts: &[u16]) -> bool
    requires slots { slots ≡ length (float_numbers style.now) }
    requires few { slots ≤ 8 }
    ensures { result ≡ is_area_allowed style.now (takes_of spot) limit counts.now }
{
    if counts.len() != slots || total(counts) > u32::from(limit) {
        return false;
    }
    are_slots_allowed(style, spot, counts)
}
