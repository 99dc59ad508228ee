//! The sums over the items of a line.
ghost use Rattle.std.specs.Prelude.{◌≡◌, ◌<◌, ◌^◌, [], nat_abs, pos, ◌≤ℤ◌, if◌then◌else◌};
ghost use Rattle.pg_scaled.specs.Ranges.{IsScaled};
ghost use Rattle.pg_list.specs.Badness.{badness as badness_of, is_over as is_over_by};
ghost use Rattle.pg_hlist.specs.Items.{IsInRange};
ghost use Rattle.pg_lines.specs.Sums.{AreSmall, is_infinite as is_infinite_sum, shrinking, stretched, sums_badness, sums_of, sums_with, wider};

use pg_badness::badness;
use pg_hlist::HItem;
use pg_list::Order;
use pg_scaled::{minus, plus, wide};

/// The sums over the items of a line, in scaled points: of widths, of stretch by its order, and of shrink.
#[derive(Clone, Copy, PartialEq, Eq)]
pub struct LineSums {
    pub total: i64,
    pub finite: i64,
    pub fil: i64,
    pub fill: i64,
    pub filll: i64,
    pub shrink: i64,
}

impl LineSums {
    /// The sums over no items.
    pub fn none() -> LineSums
        ensures { result ≡ sums_of [] }
    {
        LineSums {
            total: 0,
            finite: 0,
            fil: 0,
            fill: 0,
            filll: 0,
            shrink: 0,
        }
    }

    // A width more.
    fn add_width(&mut self, width: i32)
        requires size { nat_abs self.old.total < 2 ^ 42 }
        requires width { IsScaled width }
        ensures { self.new ≡ wider self.old width }
    {
        self.total = plus(self.total, wide(width));
    }

    // An amount of stretch, to the sum of its order.
    fn add_stretch(&mut self, order: Order, amount: i32)
        requires small { AreSmall self.old }
        requires amount { IsScaled amount }
        ensures { self.new ≡ stretched self.old order amount }
    {
        match order {
            Order::Finite => self.finite = plus(self.finite, wide(amount)),
            Order::Fil => self.fil = plus(self.fil, wide(amount)),
            Order::Fill => self.fill = plus(self.fill, wide(amount)),
            Order::Filll => self.filll = plus(self.filll, wide(amount)),
        }
    }

    // An amount of shrink.
    fn add_shrink(&mut self, amount: i32)
        requires size { nat_abs self.old.shrink < 2 ^ 42 }
        requires amount { IsScaled amount }
        ensures { self.new ≡ shrinking self.old amount }
    {
        self.shrink = plus(self.shrink, wide(amount));
    }

    // One glue more.
    fn add_glue(&mut self, width: i32, stretch: i32, order: Order, shrink: i32)
        requires small { AreSmall self.old }
        requires sizes { IsScaled width × IsScaled stretch × IsScaled shrink }
        ensures { self.new ≡ shrinking (stretched (wider self.old width) order stretch) shrink }
    {
        self.add_stretch(order, stretch);
        self.add_width(width);
        self.add_shrink(shrink);
    }

    /// One item more.
    pub fn add(&mut self, item: &HItem)
        requires small { AreSmall self.old }
        requires range { IsInRange item.now }
        ensures { self.new ≡ sums_with self.old item.now }
    {
        match item {
            HItem::BoxItem { width, .. } => self.add_width(*width),
            HItem::Glue {
                width,
                stretch,
                order,
                shrink,
                ..
            } => self.add_glue(*width, *stretch, *order, *shrink),
            HItem::Kern { width, .. } => self.add_width(*width),
            HItem::Penalty { .. } => {}
        }
    }

    /// Whether the line is wider than this by more than can shrink.
    pub fn is_over(&self, width: i32) -> bool
        requires small { AreSmall self.now }
        ensures { result ≡ is_over_by self.now.total self.now.shrink width }
    {
        self.total >= wide(width) && minus(self.total, wide(width)) > self.shrink
    }

    // Whether some infinite stretch does not sum to 0.
    fn is_infinite(&self) -> bool
        ensures { result ≡ is_infinite_sum self.now }
    {
        self.fil != 0 || self.fill != 0 || self.filll != 0
    }

    // How badly the stretch fills a width that the line does not reach.
    fn stretch_badness(&self, excess: i64) -> u16
        requires { pos 0 ≤ℤ excess }
        ensures { result ≡ (if is_infinite_sum self.now then 0 else badness_of excess self.now.finite) }
    {
        if self.is_infinite() {
            0
        } else {
            badness(excess, self.finite)
        }
    }

    /// How badly the line fills a width, from 0 to 10000 (TeX: The Program, §851).
    pub fn badness(&self, width: i32) -> u16
        requires small { AreSmall self.now }
        ensures { result ≡ sums_badness width self.now }
    {
        let width = wide(width);
        if self.total < width {
            self.stretch_badness(minus(width, self.total))
        } else {
            badness(minus(self.total, width), self.shrink)
        }
    }
}
