//! What is called around a place, worked out once for all states there.
ghost use Rattle.std.specs.Prelude.{◌≡◌, length, min, IfOk};
ghost use Rattle.law_moves.specs.Listed.{beyond};
ghost use Rattle.law_space.specs.ReachAt.{reach_at};
ghost use Rattle.pg_list.specs.declared.galley.Place.{Place as APlace};
ghost use Rattle.pg_rules.specs.Floats.{called, float_numbers, flushed};
ghost use Rattle.pg_list.specs.Barrier.{text_block};
ghost use Rattle.pg_sources.specs.Document.{counts_of, doc_of};

use crate::sources::Sources;
use pg_floats::text_block_at;
use pg_list::{Galley, Place};
use pg_plan::Counts;
use std::alloc::AllocError;

/// How many floats of each class are called before a place, how many of these before the last barrier in front of the block
/// at which a text from there begins, and how many before all blocks that a column from there does not reach.
#[derive(Drop)]
pub struct PlaceCounts {
    pub called: Counts,
    pub flushed: Counts,
    pub most: Counts,
}

// The lesser of a reach and the number of blocks.
fn last_block(galley: &Galley, reach: u32) -> u32
    ensures { result ≡ min reach (length galley.now.blocks) }
{
    (reach as usize).min(galley.blocks().as_slice().len()) as u32
}

impl Sources<'_> {
    // How many floats of each class are called before the last barrier in front of the block at which a text begins.
    fn flushed_from(&self, from: Place) -> Result<Counts, AllocError>
        ensures { IfOk result (λ counts. counts ≡ flushed self.now.galley.now.blocks self.now.style.now
            (text_block self.now.galley.now.blocks from)) }
    {
        self.flushed(text_block_at(self.galley, from))
    }

    // How many floats of each class are called before all blocks that a column from a place does not reach.
    fn called_within(&self, from: Place, reach: u32) -> Result<Counts, AllocError>
        requires { reach ≡ reach_at (doc_of self.now) from }
        ensures { IfOk result (λ counts. counts
            ≡ called self.now.galley.now.blocks self.now.style.now (beyond (doc_of self.now) from)) }
    {
        self.called(Place {
            block: last_block(self.galley, reach),
            variant: 0,
            index: 0,
        })
    }

    // The counts at each place, where the style has no class of floats.
    fn no_counts(&self) -> PlaceCounts
        requires { length (float_numbers self.now.style.now) ≡ 0 }
        ensures { (from : APlace) → result ≡ counts_of (doc_of self.now) from }
    {
        PlaceCounts {
            called: Counts::new(self.alloc),
            flushed: Counts::new(self.alloc),
            most: Counts::new(self.alloc),
        }
    }

    /// The counts at a place, from which a column may go so far.
    pub fn counts_at(&self, from: Place, reach: u32) -> Result<PlaceCounts, AllocError>
        requires { reach ≡ reach_at (doc_of self.now) from }
        ensures { IfOk result (λ it. it ≡ counts_of (doc_of self.now) from) }
    {
        if self.slots() == 0 {
            return Ok(self.no_counts());
        }
        Ok(PlaceCounts {
            called: self.called(from)?,
            flushed: self.flushed_from(from)?,
            most: self.called_within(from, reach)?,
        })
    }
}
