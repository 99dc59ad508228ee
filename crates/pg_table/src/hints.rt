//! Where pending labels are held that are likely to better others.

use std::alloc::{AllocError, Global};

/// How many hints a long search has.
const COUNT: usize = 1 << 15;

/// How many labels a search adds before it has hints.
const ADDED_BEFORE: u32 = 256;

/// How many places a hint tells apart.
const PLACES: usize = 1 << 32;

/// The place of a bucket, and a place in the bucket.
#[derive(Copy, Clone)]
pub(crate) struct Hint {
    pub(crate) place: u32,
    pub(crate) index: u32,
}

impl Hint {
    /// A hint to this place. One that is too far for it becomes another one.
    pub(crate) fn to(place: usize, index: usize) -> Hint {
        Hint {
            place: (place % PLACES) as u32,
            index: (index % PLACES) as u32,
        }
    }
}

/// Where a label was held, by a hash of its block, its rank and what else the marks tell of its state. Nothing is
/// promised of a hint: who follows it has to look at what is there. A search that is short has none, so that it pays nothing for them.
#[derive(Drop)]
pub(crate) struct Hints {
    added: u32,
    list: Vec<Hint>,
}

/// Which of the hints is for labels of this block, rank and detail.
pub(crate) fn spot_of(block: u32, rank: u64, detail: u64) -> usize {
    let mixed = rank ^ u64::from(block).rotate_left(40) ^ detail;
    (mixed.wrapping_mul(0x9E37_79B9_7F4A_7C15) >> 49) as usize
}

impl Hints {
    /// No hints.
    pub(crate) fn new(alloc: Global) -> Hints {
        Hints {
            added: 0,
            list: Vec::new(alloc),
        }
    }

    /// Takes memory for the hints where so many labels were added that they pay.
    pub(crate) fn prepare(&mut self) -> Result<(), AllocError> {
        if self.added >= ADDED_BEFORE && self.list.is_empty() {
            let nowhere = Hint {
                place: u32::MAX,
                index: 0,
            };
            self.list = vec![in *self.list.allocator(); nowhere; COUNT]?;
        }
        Ok(())
    }

    /// The hint at this spot.
    pub(crate) fn get(&self, spot: usize) -> Option<Hint> {
        let hint = self.list.get(spot)?;
        Some(*hint)
    }

    /// Makes this the hint at this spot. Before there are hints it counts the label.
    pub(crate) fn set(&mut self, spot: usize, hint: Hint) {
        if spot < self.list.len() {
            self.list[spot] = hint;
        } else if self.added < ADDED_BEFORE {
            self.added += 1;
        }
    }
}
