//! Where the labels of a rank stand. What is kept here decides nothing: it is only looked at first.
ghost use Rattle.std.specs.Prelude.{◌≤◌};
ghost use Rattle.pg_cover.specs.Covered.{AreOwn};

use pg_small::{SmallLabel, SmallState};
use pg_table::Space;
use std::alloc::{AllocError, Global};

/// How many numbers a chain tells apart.
const NUMBERS: usize = 1 << 32;

/// Labels in chains, by a hash of block and rank. A label has as its number its index and one more, and 0 stands behind
/// the last one of a chain. Nothing is promised of a number: who follows it has to look at what is there.
#[derive(Drop)]
pub(crate) struct Hints {
    heads: Vec<u32>,
    nexts: Vec<u32>,
    /// How many bits of a hash are left out.
    shift: u32,
}

impl Hints {
    /// Empty chains, more than so many labels.
    fn new(alloc: Global, count: usize) -> Result<Hints, AllocError> {
        let log = count.max(1).ilog2();
        Ok(Hints {
            heads: vec![in alloc; 0u32; 2 << log]?,
            nexts: vec![in alloc; 0u32; count]?,
            shift: 63 - log,
        })
    }

    /// Where the chains have their memory from.
    pub(crate) fn alloc(&self) -> Global {
        *self.nexts.allocator()
    }

    /// Which of the chains is for labels of this block and rank.
    fn spot_of(&self, block: u32, rank: u64) -> usize {
        let mixed = rank ^ u64::from(block).rotate_left(40);
        mixed
            .wrapping_mul(0x9E37_79B9_7F4A_7C15)
            .wrapping_shr(self.shift) as usize
    }

    /// Puts the label at an index in front of the chain for its block and rank.
    fn put(&mut self, index: usize, block: u32, rank: u64) {
        let spot = self.spot_of(block, rank);
        if spot < self.heads.len() && index < self.nexts.len() {
            self.nexts[index] = self.heads[spot];
            self.heads[spot] = ((index + 1) % NUMBERS) as u32;
        }
    }

    /// The number of the first label in the chain for a block and a rank; 0 where there is none.
    pub(crate) fn first(&self, block: u32, rank: u64) -> usize {
        match self.heads.get(self.spot_of(block, rank)) {
            Some(number) => *number as usize,
            None => 0,
        }
    }

    /// The number of the label behind the one at an index, which is of a lesser index; 0 where there is none.
    pub(crate) fn behind(&self, index: usize) -> usize
        ensures { result ≤ index }
    {
        match self.nexts.get(index) {
            Some(number) => index.min(*number as usize),
            None => 0,
        }
    }
}

/// The chains of labels.
pub(crate) fn hints_of<S: Space<State = SmallState>>(
    alloc: Global,
    space: &S,
    labels: &[SmallLabel],
) -> Result<Hints, AllocError>
    requires { AreOwn (S.meaning space.now) labels.now }
{
    let mut hints = Hints::new(alloc, labels.len())?;
    for index in 0..labels.len() {
        let label = &labels[index];
        hints.put(index, space.block(&label.state), space.rank(&label.state));
    }
    Ok(hints)
}
