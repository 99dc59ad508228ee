//! What items behind a box add to totals.
ghost use Rattle.std.specs.Prelude.{◌≡◌, ◌+◌, ◌*◌, ◌<◌, ◌≤◌, ◌^◌, ℤ, pos, ◌≤ℤ◌, ◌+ℤ◌, ◌-ℤ◌, Some, if◌then◌else◌, nat_abs, unwrap_or};
ghost use Rattle.std.specs.Int.{int_min};
ghost use Rattle.pg_list.specs.Ranges.{IsItemInRange};
ghost use Rattle.pg_scaled.specs.Ranges.{IsScaled};
ghost use Rattle.pg_list.specs.declared.item.Order.TheVariants.{Finite, Fil, Fill, Filll};
ghost use Rattle.pg_list.specs.Totals.{is_same_order};
ghost use Rattle.pg_sums.specs.SumsValue.{IsBounded};
ghost use Rattle.pg_hops.specs.Bounds.{HasMoreGlue, HasRisen, HasSameGlue, IsLight};
ghost use Rattle.pg_hops.specs.Shift.{no_shift, shifted, with_shift};

use pg_list::{Item, Order};
use pg_scaled::{minus, plus, wide};
use pg_sums::{Totals, hanging_depth};

/// What items behind a box or rule add to totals, in scaled points: to the natural size with the depth that hangs below,
/// the depth that hangs then, if one of them has a size, and to the stretch of each order and the shrink.
#[derive(Clone, Copy, PartialEq, Eq)]
pub struct Shift {
    pub height: i64,
    pub depth: Option<i64>,
    pub finite: i64,
    pub fil: i64,
    pub fill: i64,
    pub filll: i64,
    pub shrink: i64,
}

// A total that grows, with the depth that hung below it, less the one that hangs then.
fn risen(total: i64, depth: i64, height: i64, behind: i64) -> i64
    requires total { nat_abs total ≤ 2 ^ 60 }
    requires depth { nat_abs depth ≤ 2 ^ 31 }
    requires height { nat_abs height ≤ 2 ^ 60 }
    requires behind { nat_abs behind ≤ 2 ^ 31 }
    ensures value { result ≡ ((total +ℤ depth) +ℤ height) -ℤ behind }
    ensures size { nat_abs result ≤ nat_abs total + nat_abs height + 2 ^ 32 }
{
    minus(plus(plus(total, depth), height), behind)
}

// An amount more in a total.
fn raise(total: &mut i64, amount: i32)
    requires total { nat_abs total.old < 2 ^ 62 }
    requires amount { IsScaled amount }
    ensures value { total.new ≡ total.old +ℤ amount }
    ensures size { nat_abs total.new ≤ nat_abs total.old + 2 ^ 30 }
{
    *total = plus(*total, wide(amount));
}

impl Shift {
    /// What no items add.
    pub fn none() -> Shift
        ensures value { result ≡ no_shift }
        ensures light { IsLight result 0 }
    {
        Shift {
            height: 0,
            depth: None,
            finite: 0,
            fil: 0,
            fill: 0,
            filll: 0,
            shrink: 0,
        }
    }

    // One more box or rule.
    fn add_box(&mut self, maxdepth: i32, height: i32, depth: i32)
        requires height { nat_abs self.old.height ≤ 2 ^ 61 }
        requires skip { IsScaled maxdepth }
        requires sizes { IsScaled height × IsScaled depth }
        ensures height { self.new.height ≡ (self.old.height +ℤ height) +ℤ depth }
        ensures depth { self.new.depth ≡ Some (int_min maxdepth depth) }
        ensures glue { HasSameGlue self.new self.old }
        ensures size { HasRisen self.new self.old }
    {
        raise(&mut self.height, height);
        raise(&mut self.height, depth);
        self.depth = Some(hanging_depth(depth, maxdepth));
    }

    // The width of glue or a kern.
    fn add_width(&mut self, width: i32)
        requires height { nat_abs self.old.height ≤ 2 ^ 61 }
        requires width { IsScaled width }
        ensures height { self.new.height ≡ self.old.height +ℤ width }
        ensures depth { self.new.depth ≡ Some (pos 0) }
        ensures glue { HasSameGlue self.new self.old }
        ensures size { HasRisen self.new self.old }
    {
        raise(&mut self.height, width);
        self.depth = Some(0);
    }

    // An amount of stretch, to the sum of its order.
    fn add_stretch(&mut self, order: Order, amount: i32)
        requires finite { nat_abs self.old.finite ≤ 2 ^ 61 }
        requires fil { nat_abs self.old.fil ≤ 2 ^ 61 }
        requires fill { nat_abs self.old.fill ≤ 2 ^ 61 }
        requires filll { nat_abs self.old.filll ≤ 2 ^ 61 }
        requires amount { IsScaled amount }
        ensures finite { self.new.finite ≡ self.old.finite
            +ℤ (if is_same_order Finite order then amount else pos 0) }
        ensures fil { self.new.fil ≡ self.old.fil +ℤ (if is_same_order Fil order then amount else pos 0) }
        ensures fill { self.new.fill ≡ self.old.fill +ℤ (if is_same_order Fill order then amount else pos 0) }
        ensures filll { self.new.filll ≡ self.old.filll
            +ℤ (if is_same_order Filll order then amount else pos 0) }
        ensures size { HasMoreGlue self.new self.old }
        ensures others { (self.new.height ≡ self.old.height) × (self.new.depth ≡ self.old.depth)
            × (self.new.shrink ≡ self.old.shrink) }
    {
        match order {
            Order::Finite => raise(&mut self.finite, amount),
            Order::Fil => raise(&mut self.fil, amount),
            Order::Fill => raise(&mut self.fill, amount),
            Order::Filll => raise(&mut self.filll, amount),
        }
    }

    // One more glue.
    fn add_glue(&mut self, width: i32, stretch: i32, order: Order, shrink: i32)
        requires light { IsLight self.old (2 ^ 24) }
        requires sizes { IsScaled width × IsScaled stretch × IsScaled shrink }
        ensures height { self.new.height ≡ self.old.height +ℤ width }
        ensures depth { self.new.depth ≡ Some (pos 0) }
        ensures finite { self.new.finite ≡ self.old.finite
            +ℤ (if is_same_order Finite order then stretch else pos 0) }
        ensures fil { self.new.fil ≡ self.old.fil +ℤ (if is_same_order Fil order then stretch else pos 0) }
        ensures fill { self.new.fill ≡ self.old.fill +ℤ (if is_same_order Fill order then stretch else pos 0) }
        ensures filll { self.new.filll ≡ self.old.filll
            +ℤ (if is_same_order Filll order then stretch else pos 0) }
        ensures shrink { self.new.shrink ≡ self.old.shrink +ℤ shrink }
        ensures size { HasRisen self.new self.old }
    {
        self.add_width(width);
        self.add_stretch(order, stretch);
        raise(&mut self.shrink, shrink);
    }

    /// With one more item; penalties, inserts and carries add nothing.
    pub fn add(&mut self, maxdepth: i32, item: &Item)
        requires light { IsLight self.old (2 ^ 24) }
        requires skip { IsScaled maxdepth }
        requires in_range { IsItemInRange item.now }
        ensures value { self.new ≡ with_shift maxdepth self.old item.now }
        ensures size { IsLight self.old (2 ^ 24) → HasRisen self.new self.old }
    {
        match item {
            Item::BoxItem { height, depth, .. } => {
                self.add_box(maxdepth, *height, *depth);
            }
            Item::Rule { height, depth, .. } => {
                self.add_box(maxdepth, *height, *depth);
            }
            Item::Glue {
                width,
                stretch,
                order,
                shrink,
                ..
            } => self.add_glue(*width, *stretch, *order, *shrink),
            Item::Kern { width, .. } => self.add_width(*width),
            _ => {}
        }
    }

    // The depth that hangs then, below totals with this one.
    fn depth_behind(&self, depth: i64) -> i64
        requires light { IsLight self.now (2 ^ 20) }
        requires depth { nat_abs depth ≤ 2 ^ 31 }
        ensures value { result ≡ unwrap_or self.now.depth depth }
        ensures size { nat_abs result ≤ 2 ^ 31 }
    {
        match self.depth {
            Some(behind) => behind,
            None => depth,
        }
    }

    /// Totals with what these items add.
    pub fn moved(&self, totals: Totals) -> Totals
        requires light { IsLight self.now (2 ^ 20) }
        requires bounded { IsBounded totals (2 ^ 20) }
        ensures value { result ≡ shifted totals self.now }
    {
        let depth = self.depth_behind(totals.depth);
        Totals {
            total: risen(totals.total, totals.depth, self.height, depth),
            depth,
            has_box: totals.has_box,
            finite: plus(totals.finite, self.finite),
            fil: plus(totals.fil, self.fil),
            fill: plus(totals.fill, self.fill),
            filll: plus(totals.filll, self.filll),
            shrink: plus(totals.shrink, self.shrink),
        }
    }
}
