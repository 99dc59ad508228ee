//! The sums of a segment, and what they say of a goal.
ghost use Rattle.std.specs.Prelude.{◌≡◌, ◌||◌, not, List, ◌++◌, ◌∷◌, [], ◌+◌, ◌*◌, ◌<◌, ◌≤◌, ◌^◌, ℤ, pos, true, false, ◌≤ℤ◌, ◌<ℤ◌, ◌+ℤ◌, ◌-ℤ◌, if◌then◌else◌, nat_abs};
ghost use Rattle.std.specs.List.{list_any};
ghost use Rattle.pg_list.specs.Ranges.{IsItemInRange};
ghost use Rattle.pg_scaled.specs.Ranges.{IsScaled};
ghost use Rattle.pg_list.specs.Shapes.{is_box, is_discardable};
ghost use Rattle.pg_list.specs.declared.item.Item.{Item as AnItem};
ghost use Rattle.pg_list.specs.Totals.{total, shrink, stretch, trimmed};
ghost use Rattle.pg_list.specs.Badness.{is_over, fill_badness, has_infinite as has_infinite_of};
ghost use Rattle.pg_list.specs.declared.item.Order.TheVariants.{Finite};
ghost use Rattle.pg_sums.specs.AreSums.{AreSums};
ghost use Rattle.pg_sums.specs.SumsValue.{IsBounded};
ghost use Rattle.pg_sums.specs.Step.{badness_by, counted, has_infinite as has_infinite_by, no_totals};

use crate::totals::Totals;
use pg_badness::badness;
use pg_list::{Item, item_is_discardable};
use pg_scaled::minus;
use std::marker::Model;

/// The sums of a segment so far, in scaled points (65536 to the point). Discardable items before its first box
/// or rule are left out.
///
/// Each number is the number of the items added since `start`, whatever they are.
#[derive(Clone, Copy)]
pub struct Sums {
    topskip: i32,
    maxdepth: i32,
    count: u32,
    totals: Totals,
}

impl Model for Sums {
    ghost use Rattle.pg_sums.specs.SumsValue.{SumsValue};

    ghost Value = { SumsValue };

    ghost use Rattle.pg_sums.specs.SumsValue.{IsWellKept};

    ghost view = { λ a. record { topskip = a.topskip; maxdepth = a.maxdepth; count = a.count; totals = a.totals } };

    ghost inverse = { λ v. record { topskip = v.topskip; maxdepth = v.maxdepth; count = v.count; totals = v.totals } };

    ghost invariant = { λ a. IsWellKept (record { topskip = a.topskip; maxdepth = a.maxdepth; count = a.count; totals = a.totals }) };
}

impl Sums {
    /// The sums of no items, for this topskip and this limit of a depth (TeX: The Program, §1000).
    pub fn start(topskip: i32, maxdepth: i32) -> Sums
        requires topskip { IsScaled topskip }
        requires maxdepth { IsScaled maxdepth }
        requires hanging { pos 0 ≤ℤ maxdepth }
        ensures sums { AreSums topskip maxdepth [] result }
        ensures count { result.count ≡ 0 }
        ensures value { result.totals ≡ no_totals }
        ensures kept { (result.topskip ≡ topskip) × (result.maxdepth ≡ maxdepth) }
    {
        Sums {
            topskip,
            maxdepth,
            count: 0,
            totals: Totals::none(),
        }
    }

    // Whether an item counts after those so far: any but a discardable one before the first box or rule.
    fn counts(&self, item: &Item) -> bool
        ensures { result ≡ (self.now.totals.has_box || not (is_discardable item.now)) }
    {
        self.totals.has_box || !item_is_discardable(item)
    }

    /// Adds the next item (TeX: The Program, §1001 to §1004). At most 2^20 items are added.
    pub fn add(&mut self, item: &Item)
        requires few { self.old.count < 2 ^ 20 }
        requires in_range { IsItemInRange item.now }
        ensures sums { (topskip maxdepth : ℤ) (items : List AnItem) → AreSums topskip maxdepth items self.old →
            AreSums topskip maxdepth (items ++ item.now ∷ []) self.new }
        ensures count { self.new.count ≡ self.old.count + 1 }
        ensures value { self.new.totals ≡ counted self.old.topskip self.old.maxdepth self.old.totals item.now }
        ensures kept { (self.new.topskip ≡ self.old.topskip) × (self.new.maxdepth ≡ self.old.maxdepth) }
    {
        if self.counts(item) {
            self.totals.add(self.topskip, self.maxdepth, item);
        }
        self.count += 1;
    }

    /// All sums.
    pub fn totals(&self) -> Totals
        ensures { result ≡ self.now.totals }
    {
        self.totals
    }

    /// The sums keep their bounds.
    pub fn stays_bounded(&self)
        ensures { IsBounded self.now.totals self.now.count }
    {
        let _totals = self.totals;
    }

    /// Takes other totals, as those of so many more items.
    // `bounded` is a condition: the body owes the invariant, which a premise of a clause does not serve.
    pub fn take_totals(&mut self, totals: Totals, more: u32)
        requires few { self.old.count + more ≤ 2 ^ 20 }
        requires bounded { IsBounded totals (self.old.count + more) }
        ensures { self.new ≡ record {
          topskip = self.old.topskip;
          maxdepth = self.old.maxdepth;
          count = self.old.count + more;
          totals = totals;
        } }
    {
        self.totals = totals;
        self.count += more;
    }

    /// The natural size: the glue above the first box, all widths, heights and depths, less the depth that hangs.
    pub fn total(&self) -> i64
        ensures sums { (topskip maxdepth : ℤ) (items : List AnItem) →
            AreSums topskip maxdepth items self.now → result ≡ total topskip maxdepth (trimmed items) }
        ensures value { result ≡ self.now.totals.total }
        ensures size { nat_abs result < 2 ^ 55 }
    {
        self.totals.total
    }

    /// How much can shrink: the sum of the shrink of all glue.
    pub fn shrink(&self) -> i64
        ensures sums { (topskip maxdepth : ℤ) (items : List AnItem) →
            AreSums topskip maxdepth items self.now → result ≡ shrink (trimmed items) }
        ensures value { result ≡ self.now.totals.shrink }
        ensures size { nat_abs result < 2 ^ 52 }
    {
        self.totals.shrink
    }

    /// How much can stretch by what is finite: the sum of the finite stretch of all glue.
    pub fn stretch(&self) -> i64
        ensures sums { (topskip maxdepth : ℤ) (items : List AnItem) →
            AreSums topskip maxdepth items self.now → result ≡ stretch Finite (trimmed items) }
        ensures value { result ≡ self.now.totals.finite }
        ensures size { nat_abs result < 2 ^ 52 }
    {
        self.totals.finite
    }

    /// Whether a box or rule was added.
    pub fn has_box(&self) -> bool
        ensures value { result ≡ self.now.totals.has_box }
        ensures sums { (topskip maxdepth : ℤ) (items : List AnItem) → AreSums topskip maxdepth items self.now →
            result ≡ list_any is_box items }
    {
        self.totals.has_box
    }

    /// Whether the total passes a goal by more than can shrink; one that just fits is not over (TeX: The
    /// Program, §1007).
    pub fn over(&self, goal: i64) -> bool
        requires { nat_abs goal < 2 ^ 53 }
        ensures value { result ≡ is_over self.now.totals.total self.now.totals.shrink goal }
        ensures sums { (topskip maxdepth : ℤ) (items : List AnItem) →
            AreSums topskip maxdepth items self.now →
            result ≡ is_over (total topskip maxdepth (trimmed items)) (shrink (trimmed items)) goal }
    {
        self.total() >= goal && minus(self.total(), goal) > self.shrink()
    }

    // Whether some infinite stretch does not sum to 0.
    fn has_infinite(&self) -> bool
        ensures sums { (topskip maxdepth : ℤ) (items : List AnItem) → AreSums topskip maxdepth items self.now →
            result ≡ has_infinite_of (trimmed items) }
        ensures value { result ≡ has_infinite_by self.now.totals }
    {
        self.totals.fil != 0 || self.totals.fill != 0 || self.totals.filll != 0
    }

    // The same of a segment that is not spent.
    fn glue_badness(&self, goal: i64, stretch: i64, shrink: i64) -> u16
        requires size { nat_abs goal < 2 ^ 53 }
        ensures sums { (topskip maxdepth : ℤ) (items : List AnItem) → AreSums topskip maxdepth items self.now →
            result ≡ fill_badness false goal (total topskip maxdepth (trimmed items)) (has_infinite_of (trimmed items))
            stretch shrink }
        ensures value { result ≡ badness_by false goal stretch shrink self.now.totals }
    {
        let total = self.total();
        if total >= goal {
            badness(minus(total, goal), shrink)
        } else if self.has_infinite() {
            0
        } else {
            badness(minus(goal, total), stretch)
        }
    }

    /// How badly the segment fills a goal that it is not over, from 0 to 10000, where so much may stretch and so much
    /// may shrink (TeX: The Program, §1007): 0 where it is short and has infinite stretch, or where it is spent, with no
    /// box behind it, and not too high.
    pub fn page_badness(&self, goal: i64, spent: bool, stretch: i64, shrink: i64) -> u16
        requires size { nat_abs goal < 2 ^ 53 }
        ensures sums { (topskip maxdepth : ℤ) (items : List AnItem) → AreSums topskip maxdepth items self.now →
            result ≡ fill_badness spent goal (total topskip maxdepth (trimmed items)) (has_infinite_of (trimmed items))
            stretch shrink }
        ensures value { result ≡ badness_by spent goal stretch shrink self.now.totals }
    {
        if spent && self.total() <= goal {
            0
        } else {
            self.glue_badness(goal, stretch, shrink)
        }
    }
}
