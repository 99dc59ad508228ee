//! What layouts are looked for.
ghost use Rattle.std.specs.Prelude.{◌≡◌, ◌≤◌, ◌<◌, ℕ, length, IfOk};
ghost use Rattle.pg_rules.specs.Floats.{entry, float_numbers};
ghost use Rattle.pg_floats.specs.Spots.{takes_of};
ghost use Rattle.pg_layouts.specs.Fit.{short_prop};
ghost use Rattle.pg_layouts.specs.Layouts.{area_lists};

use crate::counting::count_lists;
use crate::kind::ColumnKind;
use crate::limits::area_limits;
use crate::lists::ListedCounts;
use pg_floats::Spot;
use pg_style::Style;
use std::alloc::{AllocError, Global};

/// What layouts are looked for: those of a column of this kind, with floats of so many classes up to a ceiling.
#[derive(Drop)]
pub struct Search<'a> {
    pub alloc: Global,
    pub style: &'a Style,
    pub slots: usize,
    pub kind: ColumnKind,
    pub ceiling: &'a [u16],
    ghost count: { slots ≡ length (float_numbers style.now) },
    ghost few: { slots ≤ 8 },
    ghost short: { (slot : ℕ) → entry ceiling.now slot < 65536 } by { short_prop ceiling.now },
}

impl Search<'_> {
    /// All counts of an area that takes so many floats, behind those that are placed.
    pub fn area_lists(
        &self,
        spot: Spot,
        most: u8,
        before: &[u16],
    ) -> Result<ListedCounts, AllocError>
        ensures { IfOk result (λ lists. lists
            ≡ area_lists self.now.style.now (takes_of spot) most before.now self.now.ceiling.now) }
    {
        let limits = area_limits(
            self.alloc,
            spot,
            self.style,
            self.slots,
            before,
            self.ceiling,
        )?;
        count_lists(self.alloc, most, limits.as_slice())
    }
}
