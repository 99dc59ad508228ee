//! A galley with its floats, under a style.
ghost use Rattle.std.specs.Prelude.{◌≡◌, ◌≤◌, length};
ghost use Rattle.pg_rules.specs.Floats.{float_numbers};
ghost use Rattle.pg_rules.specs.Ranges.{AreInRange, AreInRange_prop};
ghost use Rattle.pg_floats.specs.Given.{IsListOf};
ghost use Rattle.pg_sources.specs.OneProof.{IsListOf_prop};

use pg_floats::{FloatList, slots_of};
use pg_list::Galley;
use pg_style::Style;
use std::alloc::Global;

/// A galley, a style, the list of its floats, and how many float classes there are.
#[derive(Drop)]
pub struct Sources<'a> {
    pub galley: &'a Galley,
    pub style: &'a Style,
    pub floats: &'a FloatList,
    pub alloc: Global,
    slots: usize,
    ghost in_range: { AreInRange galley.now style.now } by { AreInRange_prop galley.now style.now },
    ghost list: { IsListOf galley.now.blocks style.now floats.now } by { IsListOf_prop galley.now.blocks style.now floats.now },
    ghost count: { slots ≡ length (float_numbers style.now) },
    ghost few: { slots ≤ 8 },
}

impl<'a> Sources<'a> {
    /// The floats of a galley under a style. No memory is taken.
    pub fn new(
        alloc: Global,
        galley: &'a Galley,
        style: &'a Style,
        floats: &'a FloatList,
    ) -> Sources<'a>
        requires { IsListOf galley.now.blocks style.now floats.now }
        ensures galley { result.galley.now ≡ galley.now }
        ensures style { result.style.now ≡ style.now }
        ensures floats { result.floats.now ≡ floats.now }
    {
        style.stays_in_range();
        // hands on the ranges of the blocks
        let _ = galley.blocks().as_slice();
        Sources {
            galley,
            style,
            floats,
            alloc,
            slots: slots_of(style),
        }
    }

    /// How many float classes there are.
    pub fn slots(&self) -> usize
        ensures value { result ≡ length (float_numbers self.now.style.now) }
        ensures few { result ≤ 8 }
    {
        self.slots
    }
}
