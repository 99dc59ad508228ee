//! Counts of floats by class, one beside another.
ghost use Rattle.std.specs.Prelude.{◌≡◌, ◌≤◌, ◌-◌, map};
ghost use Rattle.std.specs.List.{list_all, range_with_len};
ghost use Rattle.pg_rules.specs.Floats.{entry as entry_of};
ghost use Rattle.pg_states.specs.Lines.{covers, covers_one as covers_one_of};

use pg_floats::entry;
use pg_plan::Counts;
use std::alloc::Global;

/// By how many the one counts are greater in a class; 0 where they are not.
pub fn excess(a: &[u16], b: &[u16], slot: usize) -> u16
    ensures { result ≡ entry_of a.now slot - entry_of b.now slot }
{
    entry(a, slot).saturating_sub(entry(b, slot))
}

/// The same for each class. No memory is taken.
pub fn excess_counts(alloc: Global, slots: usize, a: &[u16], b: &[u16]) -> Counts
    requires { slots ≤ 8 }
    ensures { result ≡ map (λ slot. entry_of a.now slot - entry_of b.now slot) (range_with_len 0 slots) }
{
    let mut counts = Counts::zeros(alloc, slots);
    for slot in 0..slots {
        counts.set(slot, excess(a, b, slot));
    }
    counts
}

// Whether the one counts are at least the others in a class.
fn covers(a: &[u16], b: &[u16], slot: usize) -> bool
    ensures { result ≡ covers a.now b.now slot }
{
    entry(b, slot) <= entry(a, slot)
}

/// The same for each class.
pub fn covers_all(slots: usize, a: &[u16], b: &[u16]) -> bool
    ensures { result ≡ list_all (covers a.now b.now) (range_with_len 0 slots) }
{
    for slot in 0..slots {
        if !covers(a, b, slot) {
            return false;
        }
    }
    true
}

// Whether the one counts are at least the second or the third in a class.
fn covers_one(a: &[u16], b: &[u16], c: &[u16], slot: usize) -> bool
    ensures { result ≡ covers_one_of a.now b.now c.now slot }
{
    covers(a, b, slot) || covers(a, c, slot)
}

/// The same for each class.
pub fn covers_either(slots: usize, a: &[u16], b: &[u16], c: &[u16]) -> bool
    ensures { result ≡ list_all (covers_one_of a.now b.now c.now) (range_with_len 0 slots) }
{
    for slot in 0..slots {
        if !covers_one(a, b, c, slot) {
            return false;
        }
    }
    true
}
