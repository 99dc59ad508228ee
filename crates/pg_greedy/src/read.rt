//! What is kept of the items that a page may take.
ghost use Rattle.std.specs.Prelude.{◌≡◌, ◌<◌, ◌+◌, ◌^◌, ◌++◌, ◌∷◌, [], List, take};
ghost use Rattle.pg_list.specs.Ranges.{IsItemInRange};
ghost use Rattle.pg_list.specs.declared.item.Item.{Item as AnItem};
ghost use Rattle.pg_greedy.specs.Looking.{AreRead};

use pg_list::Item;
use pg_notes::NoteSums;
use pg_style::Style;
use pg_sums::Sums;

/// The number of items read so far, their sums and their notes.
#[derive(Clone, Copy)]
pub struct Read {
    pub count: u32,
    pub sums: Sums,
    pub notes: NoteSums,
}

impl Read {
    /// Nothing was read.
    pub fn start(style: &Style) -> Read
        ensures read { (items : List AnItem) → AreRead style.now items result }
        ensures count { result.count ≡ 0 }
    {
        style.stays_in_range();
        Read {
            count: 0,
            sums: Sums::start(style.topskip, style.maxdepth),
            notes: NoteSums::start(),
        }
    }

    /// Reads the next item. At most 2^20 items are read.
    pub fn add(&mut self, style: &Style, item: &Item)
        requires few { self.old.count < 2 ^ 20 }
        requires in_range { IsItemInRange item.now }
        requires sums { self.old.sums.count ≡ self.old.count }
        requires notes { self.old.notes.count ≡ self.old.count }
        ensures read { (items : List AnItem) → AreRead style.now items self.old →
            take (self.old.count + 1) items ≡ take self.old.count items ++ item.now ∷ [] →
            AreRead style.now items self.new }
        ensures count { self.new.count ≡ self.old.count + 1 }
    {
        self.sums.add(item);
        self.notes.add(style, item);
        self.count += 1;
    }
}
