//! How many floats of each class are called before a place, and before the last barrier in front of it.
ghost use Rattle.std.specs.Prelude.{◌≡◌, ◌≤◌, ◌^◌, true, IfOk};
ghost use Rattle.pg_rules.specs.Floats.{called, entry, flushed};
ghost use Rattle.pg_sources.specs.Document.{before_of, doc_of};

use crate::sources::Sources;
use pg_list::Place;
use pg_plan::Counts;
use std::alloc::AllocError;

/// How many floats of each class are called before a place, and how many of these before the last barrier in front of
/// it.
#[derive(Drop)]
pub struct Before {
    pub called: Counts,
    pub flushed: Counts,
}

// Whether so many floats of each class are as many as those.
fn are_equal(a: &Counts, b: &Counts) -> bool
    ensures { result ≡ true → a.now ≡ b.now }
{
    *a == *b
}

impl Before {
    /// Whether as many are called here as there.
    pub fn is_same(&self, other: &Before) -> bool
        ensures { result ≡ true → self.now ≡ other.now }
    {
        are_equal(&self.called, &other.called) && are_equal(&self.flushed, &other.flushed)
    }
}

impl Sources<'_> {
    // How many floats of a slot are called before a place.
    fn count_called(&self, place: Place, slot: usize) -> u32
        ensures value { result ≡ entry (called self.now.galley.now.blocks self.now.style.now place) slot }
        ensures few { result ≤ 2 ^ 12 }
    {
        self.floats.called(self.galley, place, slot)
    }

    /// How many floats of a slot are called before a place.
    pub fn called_at(&self, place: Place, slot: usize) -> u16
        ensures { result ≡ entry (called self.now.galley.now.blocks self.now.style.now place) slot }
    {
        self.count_called(place, slot) as u16
    }

    /// How many floats of each class are called before a place.
    pub fn called(&self, place: Place) -> Result<Counts, AllocError>
        ensures { IfOk result (λ counts. counts ≡ called self.now.galley.now.blocks self.now.style.now place) }
    {
        let mut counts = Counts::new(self.alloc);
        let slots = self.slots();
        for slot in 0..slots {
            counts.push(self.called_at(place, slot))?;
        }
        Ok(counts)
    }

    // How many floats of a slot are called before the last barrier in front of a block.
    fn count_flushed(&self, block: u32, slot: usize) -> u32
        ensures value { result ≡ entry (flushed self.now.galley.now.blocks self.now.style.now block) slot }
        ensures few { result ≤ 2 ^ 12 }
    {
        self.floats.flushed(self.galley, block, slot)
    }

    // The same in 16 bits.
    fn flushed_at(&self, block: u32, slot: usize) -> u16
        ensures { result ≡ entry (flushed self.now.galley.now.blocks self.now.style.now block) slot }
    {
        self.count_flushed(block, slot) as u16
    }

    /// How many floats of each class are called before the last barrier in front of a block.
    pub fn flushed(&self, block: u32) -> Result<Counts, AllocError>
        ensures { IfOk result (λ counts. counts ≡ flushed self.now.galley.now.blocks self.now.style.now block) }
    {
        let mut counts = Counts::new(self.alloc);
        let slots = self.slots();
        for slot in 0..slots {
            counts.push(self.flushed_at(block, slot))?;
        }
        Ok(counts)
    }

    /// How many floats of each class are called before a place, and before the last barrier in front of it.
    pub fn before(&self, place: Place) -> Result<Before, AllocError>
        ensures { IfOk result (λ it. it ≡ before_of (doc_of self.now) place) }
    {
        Ok(Before {
            called: self.called(place)?,
            flushed: self.flushed(place.block)?,
        })
    }
}
