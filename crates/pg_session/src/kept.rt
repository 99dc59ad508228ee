//! What a session keeps of its last solution.
ghost use Rattle.std.specs.Prelude.{◌≡◌, [], false, min};

use pg_plan::{LabelList, PageKey};
use pg_small::{SmallMove, SmallState};
use pg_table::Table;
use std::alloc::Global;

/// A table of labels, these labels in order, the block below which the table is right, and whether all of it is that
/// of the galley as it stands.
#[derive(Drop)]
pub struct Kept {
    pub table: Table<SmallState, SmallMove, PageKey>,
    pub labels: LabelList,
    pub touched: u32,
    pub solved: bool,
}

impl Kept {
    /// Nothing is kept.
    pub fn new(alloc: Global) -> Kept
        ensures { result ≡ record { table = []; labels = []; touched = 0; solved = false } }
    {
        Kept {
            table: Table::new(alloc),
            labels: LabelList::new(alloc),
            touched: 0,
            solved: false,
        }
    }

    /// A block is touched: the table is kept, the list of its labels is not.
    pub fn touch(&mut self, alloc: Global, block: u32)
        ensures { self.new ≡ record self.old { labels = []; touched = min self.old.touched block; solved = false } }
    {
        self.labels = LabelList::new(alloc);
        self.touched = self.touched.min(block);
        self.solved = false;
    }
}
