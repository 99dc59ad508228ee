//! What so many items add.
ghost use Rattle.std.specs.Prelude.{◌≡◌, ℕ, ◌+◌, ◌<◌, ◌≤◌, ◌^◌};
ghost use Rattle.pg_list.specs.Ranges.{IsItemInRange};
ghost use Rattle.pg_sums.specs.SumsValue.{IsBounded};
ghost use Rattle.pg_hops.specs.Bounds.{IsWellKept};
ghost use Rattle.pg_hops.specs.Shift.{no_shift, shifted, with_shift};

use crate::shift::Shift;
use pg_list::Item;
use pg_style::Style;
use pg_sums::Totals;
use std::marker::Model;

/// What items behind a box or rule add to sums, and how many items these are.
#[derive(Clone, Copy)]
pub struct Added {
    count: u32,
    shift: Shift,
}

impl Model for Added {
    ghost use Rattle.pg_hops.specs.Bounds.{AddedValue, IsWellKept};

    ghost Value = { AddedValue };

    ghost view = { λ a. record { count = a.count; shift = a.shift } };

    ghost inverse = { λ v. record { count = v.count; shift = v.shift } };

    ghost invariant = { λ a. IsWellKept a.count a.shift };
}

impl Added {
    /// What no items add.
    pub fn start() -> Added
        ensures { result ≡ record { count = 0; shift = no_shift } }
    {
        Added {
            count: 0,
            shift: Shift::none(),
        }
    }

    /// What is added by so many items together.
    pub fn of(count: u32, shift: Shift) -> Added
        requires { IsWellKept count shift }
        ensures { result ≡ record { count = count; shift = shift } }
    {
        Added { count, shift }
    }

    /// What the items add.
    pub fn shift(&self) -> Shift
        ensures value { result ≡ self.now.shift }
        ensures kept { IsWellKept self.now.count self.now.shift }
    {
        self.shift
    }

    /// With one more item, for a style. At most 2^20 items are added.
    pub fn add(&mut self, style: &Style, item: &Item)
        requires few { self.old.count < 2 ^ 20 }
        requires in_range { IsItemInRange item.now }
        ensures count { self.new.count ≡ self.old.count + 1 }
        ensures value { self.new.shift ≡ with_shift style.now.maxdepth self.old.shift item.now }
    {
        self.shift.add(style.maxdepth, item);
        self.count += 1;
    }

    /// How many items these are.
    pub fn count(&self) -> u32
        ensures value { result ≡ self.now.count }
        ensures few { result ≤ 2 ^ 20 }
    {
        self.count
    }

    /// The totals of items with a box or rule among them, with these items behind them.
    pub fn moved(&self, totals: Totals) -> Totals
        requires { IsBounded totals (2 ^ 20) }
        ensures value { result ≡ shifted totals self.now.shift }
        ensures bounded { (count : ℕ) → IsBounded totals count → IsBounded result (count + self.now.count) }
    {
        self.shift.moved(totals)
    }
}
