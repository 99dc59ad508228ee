//! The sums of items that all count.
ghost use Rattle.std.specs.Prelude.{◌≡◌, ◌-◌, List, ◌++◌, ◌∷◌, [], ◌+◌, ◌*◌, ◌<◌, ◌≤◌, ◌^◌, ℤ, pos, true, false, ◌≤ℤ◌, ◌+ℤ◌, ◌-ℤ◌, if◌then◌else◌, nat_abs};
ghost use Rattle.std.specs.Int.{int_max, int_min};
ghost use Rattle.pg_list.specs.Ranges.{IsItemInRange};
ghost use Rattle.pg_scaled.specs.Ranges.{IsScaled};
ghost use Rattle.pg_list.specs.declared.item.Order.TheVariants.{Finite, Fil, Fill, Filll};
ghost use Rattle.pg_list.specs.Totals.{is_same_order};
ghost use Rattle.pg_sums.specs.SumsValue.{HaveSameGlue, HasGlueGrown, HasGrown, IsBounded};
ghost use Rattle.pg_sums.specs.AreSums.{AreTotals};
ghost use Rattle.pg_sums.specs.Step.{no_totals, with_item};
ghost use Rattle.pg_list.specs.declared.item.Item.{Item as AnItem};

use pg_list::{Item, Order};
use pg_scaled::{minus, plus, wide};

/// The sums of items that all count, in scaled points: the natural size without the depth that hangs below,
/// that depth, the stretch of each order, and the shrink.
#[derive(Clone, Copy, PartialEq, Eq, Hash)]
pub struct Totals {
    pub total: i64,
    pub depth: i64,
    pub has_box: bool,
    pub finite: i64,
    pub fil: i64,
    pub fill: i64,
    pub filll: i64,
    pub shrink: i64,
}

/// The glue above a first box or rule of this height, in scaled points: as much as puts it at the topskip, and nothing
/// above a higher one (TeX: The Program, §1001).
pub fn lift(topskip: i32, height: i32) -> i64
    ensures value { result ≡ int_max (pos 0) (topskip -ℤ height) }
    ensures size { IsScaled topskip → IsScaled height → nat_abs result ≤ 2 ^ 31 }
{
    let room = minus(wide(topskip), wide(height));
    if room > 0 { room } else { 0 }
}

/// The part of a depth that hangs below the total; what passes the limit counts (TeX: The Program, §1003).
pub fn hanging_depth(depth: i32, maxdepth: i32) -> i64
    requires depth { IsScaled depth }
    requires maxdepth { IsScaled maxdepth }
    ensures value { result ≡ int_min maxdepth depth }
    ensures size { nat_abs result ≤ 2 ^ 30 }
{
    if depth < maxdepth {
        wide(depth)
    } else {
        wide(maxdepth)
    }
}

// A total that grows by a box, less the part of its depth that hangs.
fn settled(total: i64, height: i32, depth: i32, hanging: i64) -> i64
    requires total { nat_abs total < 2 ^ 61 + 2 ^ 33 }
    requires sizes { IsScaled height × IsScaled depth }
    requires hanging { nat_abs hanging ≤ 2 ^ 30 }
    ensures value { result ≡ ((total +ℤ height) +ℤ depth) -ℤ hanging }
    ensures size { nat_abs result ≤ nat_abs total + 2 ^ 32 }
{
    minus(plus(plus(total, wide(height)), wide(depth)), hanging)
}

// A total with a box below it.
fn boxed(total: i64, above: i64, below: i64, height: i32, depth: i32, hanging: i64) -> i64
    requires total { nat_abs total ≤ 2 ^ 61 }
    requires above { nat_abs above ≤ 2 ^ 31 }
    requires below { nat_abs below ≤ 2 ^ 31 }
    requires sizes { IsScaled height × IsScaled depth }
    requires hanging { nat_abs hanging ≤ 2 ^ 30 }
    ensures value { result ≡ ((((total +ℤ above) +ℤ below) +ℤ height) +ℤ depth) -ℤ hanging }
    ensures size { nat_abs result ≤ nat_abs total + 2 ^ 34 }
{
    settled(plus(plus(total, above), below), height, depth, hanging)
}

impl Totals {
    /// The sums of no items.
    pub fn none() -> Totals
        ensures sums { (topskip maxdepth : ℤ) → AreTotals topskip maxdepth [] result }
        ensures bounds { IsBounded result 0 }
        ensures value { result ≡ no_totals }
    {
        Totals {
            total: 0,
            depth: 0,
            has_box: false,
            finite: 0,
            fil: 0,
            fill: 0,
            filll: 0,
            shrink: 0,
        }
    }

    // What a box adds above itself; only the first adds anything.
    fn above(&self, topskip: i32, height: i32) -> i64
        requires topskip { IsScaled topskip }
        requires height { IsScaled height }
        ensures value { result ≡ (if self.now.has_box then pos 0 else int_max (pos 0) (topskip -ℤ height)) }
        ensures size { nat_abs result ≤ 2 ^ 31 }
    {
        if self.has_box {
            0
        } else {
            lift(topskip, height)
        }
    }

    // One more box or rule.
    fn add_box(&mut self, topskip: i32, maxdepth: i32, height: i32, depth: i32)
        requires total { nat_abs self.old.total ≤ 2 ^ 61 }
        requires below { nat_abs self.old.depth ≤ 2 ^ 31 }
        requires skips { IsScaled topskip × IsScaled maxdepth }
        requires sizes { IsScaled height × IsScaled depth }
        ensures depth { self.new.depth ≡ int_min maxdepth depth }
        ensures total { self.new.total ≡ ((((self.old.total
            +ℤ (if self.old.has_box then pos 0 else int_max (pos 0) (topskip -ℤ height)))
            +ℤ self.old.depth) +ℤ height) +ℤ depth) -ℤ int_min maxdepth depth }
        ensures has_box { self.new.has_box ≡ true }
        ensures glue { HaveSameGlue self.new self.old }
        ensures total_size { nat_abs self.new.total ≤ nat_abs self.old.total + 2 ^ 34 }
        ensures depth_size { nat_abs self.new.depth ≤ 2 ^ 30 }
    {
        let hanging = hanging_depth(depth, maxdepth);
        let above = self.above(topskip, height);
        self.total = boxed(self.total, above, self.depth, height, depth, hanging);
        self.depth = hanging;
        self.has_box = true;
    }

    // The width of glue or a kern; a depth above it no longer hangs.
    fn add_width(&mut self, width: i32)
        requires total { nat_abs self.old.total ≤ 2 ^ 61 }
        requires depth { nat_abs self.old.depth ≤ 2 ^ 31 }
        requires width { IsScaled width }
        ensures depth { self.new.depth ≡ pos 0 }
        ensures total { self.new.total ≡ (self.old.total +ℤ self.old.depth) +ℤ width }
        ensures has_box { self.new.has_box ≡ self.old.has_box }
        ensures glue { HaveSameGlue self.new self.old }
        ensures total_size { nat_abs self.new.total ≤ nat_abs self.old.total + 2 ^ 34 }
    {
        self.total = plus(plus(self.total, self.depth), wide(width));
        self.depth = 0;
    }

    // An amount of stretch, to the sum of its order.
    fn add_stretch(&mut self, order: Order, amount: i32)
        requires finite { nat_abs self.old.finite ≤ 2 ^ 61 }
        requires fil { nat_abs self.old.fil ≤ 2 ^ 61 }
        requires fill { nat_abs self.old.fill ≤ 2 ^ 61 }
        requires filll { nat_abs self.old.filll ≤ 2 ^ 61 }
        requires amount { IsScaled amount }
        ensures finite { self.new.finite ≡ self.old.finite
            +ℤ (if is_same_order Finite order then amount else pos 0) }
        ensures fil { self.new.fil ≡ self.old.fil +ℤ (if is_same_order Fil order then amount else pos 0) }
        ensures fill { self.new.fill ≡ self.old.fill +ℤ (if is_same_order Fill order then amount else pos 0) }
        ensures filll { self.new.filll ≡ self.old.filll
            +ℤ (if is_same_order Filll order then amount else pos 0) }
        ensures size { HasGlueGrown self.new self.old }
        ensures others { (self.new.total ≡ self.old.total) × (self.new.depth ≡ self.old.depth)
            × (self.new.has_box ≡ self.old.has_box) × (self.new.shrink ≡ self.old.shrink) }
    {
        match order {
            Order::Finite => self.finite = plus(self.finite, wide(amount)),
            Order::Fil => self.fil = plus(self.fil, wide(amount)),
            Order::Fill => self.fill = plus(self.fill, wide(amount)),
            Order::Filll => self.filll = plus(self.filll, wide(amount)),
        }
    }

    // One more glue.
    fn add_glue(&mut self, width: i32, stretch: i32, order: Order, shrink: i32)
        requires bounds { IsBounded self.old (2 ^ 24) }
        requires sizes { IsScaled width × IsScaled stretch × IsScaled shrink }
        ensures depth { self.new.depth ≡ pos 0 }
        ensures total { self.new.total ≡ (self.old.total +ℤ self.old.depth) +ℤ width }
        ensures has_box { self.new.has_box ≡ self.old.has_box }
        ensures finite { self.new.finite ≡ self.old.finite
            +ℤ (if is_same_order Finite order then stretch else pos 0) }
        ensures fil { self.new.fil ≡ self.old.fil +ℤ (if is_same_order Fil order then stretch else pos 0) }
        ensures fill { self.new.fill ≡ self.old.fill +ℤ (if is_same_order Fill order then stretch else pos 0) }
        ensures filll { self.new.filll ≡ self.old.filll
            +ℤ (if is_same_order Filll order then stretch else pos 0) }
        ensures shrink { self.new.shrink ≡ self.old.shrink +ℤ shrink }
        ensures size { HasGrown self.new self.old }
    {
        self.add_width(width);
        self.add_stretch(order, stretch);
        self.shrink = plus(self.shrink, wide(shrink));
    }

    /// One more item that counts; penalties, inserts and carries have no size.
    pub fn add(&mut self, topskip: i32, maxdepth: i32, item: &Item)
        requires bounds { IsBounded self.old (2 ^ 24) }
        requires skips { IsScaled topskip × IsScaled maxdepth }
        requires hanging { pos 0 ≤ℤ maxdepth }
        requires in_range { IsItemInRange item.now }
        ensures size { IsBounded self.old (2 ^ 24) → HasGrown self.new self.old }
        ensures totals { (items : List AnItem) → AreTotals topskip maxdepth items self.old →
            AreTotals topskip maxdepth (items ++ item.now ∷ []) self.new }
        ensures value { self.new ≡ with_item topskip maxdepth self.old item.now }
    {
        match item {
            Item::BoxItem { height, depth, .. } => {
                self.add_box(topskip, maxdepth, *height, *depth);
            }
            Item::Rule { height, depth, .. } => {
                self.add_box(topskip, maxdepth, *height, *depth);
            }
            Item::Glue {
                width,
                stretch,
                order,
                shrink,
                ..
            } => self.add_glue(*width, *stretch, *order, *shrink),
            Item::Kern { width, .. } => self.add_width(*width),
            _ => {}
        }
    }
}
