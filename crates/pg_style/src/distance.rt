//! The demerits of a float by its distance.
ghost use Rattle.std.specs.Prelude.{◌≡◌, ℕ, nat_le};
ghost use Rattle.std.specs.List.{list_all};
ghost use Rattle.pg_style.specs.Ranges.{rises, has_table_range};

use std::alloc::Global;
use std::marker::Model;

/// The demerits of a float by how many pages it waited: 1 to 9 entries, none below the one before.
#[derive(Clone, Copy)]
pub struct Distance {
    // the first `count` are meant, and the others are 0
    entries: [u32; 9],
    count: usize,
}

impl Model for Distance {
    ghost use Rattle.std.specs.Prelude.{List, ℕ, length, take};

    ghost Value = { List ℕ };

    ghost use Rattle.pg_style.specs.Filled.{IsFilled, filled};

    ghost view = { λ a. take a.count a.entries };

    ghost invariant = { IsFilled };

    ghost inverse = { λ v. record { entries = filled v; count = length v } };

    ghost inverse_ok = { λ a h i. record { entries = h.places i; count = h.count i } };
}

/// Why entries are no distance table.
#[derive(Clone, Copy, PartialEq, Eq)]
pub enum DistanceFault {
    Range,
    Decreasing,
}

fn each_in_range(entries: &[u32]) -> bool
    ensures { result ≡ list_all (λ (n : ℕ). nat_le n 100000000) entries.now }
{
    entries.iter().all(|entry| *entry <= 100_000_000)
}

fn have_range(entries: &[u32]) -> bool
    ensures { result ≡ has_table_range entries.now }
{
    entries.len() > 0 && (entries.len() <= 9 && each_in_range(entries))
}

fn do_rise(entries: &[u32]) -> bool
    ensures { result ≡ rises entries.now }
{
    let mut rest = entries;
    'entries: while let [first, after @ ..] = rest {
        if let [second, ..] = after {
            if *second < *first {
                return false;
            }
        }
        rest = after;
    }
    true
}

impl Distance {
    ghost use Rattle.pg_style.specs.Ranges.{IsDistance, MakesDistance};

    /// A table of these entries. `Range` comes where there are none or more than 9, or one is above
    /// 100000000, else `Decreasing` where one is below the one before. No memory is taken.
    #[tactic(auto, using(crate::proofs::DistanceLemmas::is_distance))]
    pub fn new(alloc: Global, entries: &[u32]) -> Result<Distance, DistanceFault>
        ensures { MakesDistance result entries.now }
    {
        if !have_range(entries) {
            return Err(DistanceFault::Range);
        }
        if !do_rise(entries) {
            return Err(DistanceFault::Decreasing);
        }
        let count = entries.len();
        let mut places = [0; 9];
        places[..count].copy_from_slice(entries);
        Ok(Distance {
            entries: places,
            count,
        })
    }

    /// The entries, the one of no wait first.
    pub fn as_slice(&self) -> &[u32]
        ensures entries { result.now ≡ self.now }
        ensures range { IsDistance self.now }
    {
        &self.entries[..self.count]
    }
}
