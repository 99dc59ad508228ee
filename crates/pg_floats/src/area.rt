//! The height of an area.
ghost use Rattle.std.specs.Prelude.{◌≡◌, ◌+◌, ◌*◌, ◌<◌, ◌≤◌, ◌^◌, List, length, slice_index, false, MatchOption};
ghost use Rattle.std.specs.Prelude.{unsigned_abs};
ghost use Rattle.std.specs.List.{AllByRecursion};
ghost use Rattle.pg_style.specs.Ranges.{IsAreaRule};
ghost use Rattle.pg_floats.specs.FloatsValue.{IsInRange, total_of};
ghost use Rattle.pg_floats.specs.Areas.{area_size as area_size_of, has_dealt, has_next, sizes_together, IsDealt};
ghost use Rattle.pg_floats.specs.Areas.{IsNext};

use crate::callouts::{Callout, Callouts};
use crate::list::ClassFloats;
use pg_plan::Counts;
use pg_style::AreaRule;

/// Floats dealt out: how many, and their sizes together in scaled points.
#[derive(Clone, Copy, PartialEq, Eq)]
pub struct Dealt {
    pub count: u64,
    pub sizes: u64,
}

// An entry that a count list lacks is 0.
fn entry(counts: &Counts, slot: usize) -> usize
    ensures value { result ≡ slice_index counts.now slot }
    ensures size { result < 2 ^ 16 }
{
    match counts.as_slice().get(slot) {
        Some(count) => *count as usize,
        None => 0,
    }
}

fn together(callouts: &[Callout]) -> u64
    requires range { AllByRecursion IsInRange callouts.now }
    requires few { length callouts.now ≤ 2 ^ 16 }
    ensures value { result ≡ sizes_together callouts.now }
    ensures size { result ≤ 2 ^ 30 * length callouts.now }
{
    callouts.iter().map(|callout| callout.size as u64).sum()
}

// The next floats of a class. None where it has not so many.
fn next_floats(callouts: &Callouts, from: usize, count: usize) -> Option<Dealt>
    requires from { from < 2 ^ 16 }
    requires count { count < 2 ^ 16 }
    ensures { MatchOption result (has_next callouts.now from count ≡ false) (IsNext callouts.now from count) }
{
    let all = callouts.as_slice();
    if count == 0 {
        Some(Dealt { count: 0, sizes: 0 })
    } else if from + count <= all.len() {
        let next = &all[from..from + count];
        Some(Dealt {
            count: next.len() as u64,
            sizes: together(next),
        })
    } else {
        None
    }
}

/// The floats that counts deal out behind those that are placed. None where a class has not so many.
pub fn deal(list: &[ClassFloats], placed: &Counts, counts: &Counts) -> Option<Dealt>
    requires few { total_of list.now ≤ 2 ^ 12 }
    requires slots { length list.now ≤ 8 }
    ensures { MatchOption result (has_dealt 0 list.now placed.now counts.now ≡ false)
        (IsDealt list.now placed.now counts.now) }
{
    let mut dealt = Dealt { count: 0, sizes: 0 };
    let mut rest = list;
    let mut slot = 0;
    'each: while let [floats, after @ ..] = rest {
        let Some(next) = next_floats(&floats.callouts, entry(placed, slot), entry(counts, slot))
        else {
            return None;
        };
        dealt.count += next.count;
        dealt.sizes += next.sizes;
        rest = after;
        slot += 1;
    }
    Some(dealt)
}

/// The height of an area with these floats.
pub fn area_size(rule: &AreaRule, dealt: &Dealt) -> u64
    requires few { dealt.now.count ≤ 2 ^ 12 }
    requires bounded { dealt.now.sizes ≤ 2 ^ 30 * dealt.now.count }
    ensures value { result ≡ area_size_of rule.now dealt.now.count dealt.now.sizes }
    ensures size { result < 2 ^ 44 }
    ensures range { IsAreaRule rule.now }
{
    let sep = rule.sep.size.unsigned_abs() as u64;
    let gap = rule.gap.size.unsigned_abs() as u64;
    if dealt.count == 0 {
        0
    } else {
        dealt.sizes + sep * (dealt.count - 1) + gap
    }
}
