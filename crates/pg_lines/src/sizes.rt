//! The height, the depth and the sums of a line.
ghost use Rattle.std.specs.Prelude.{◌≡◌, ◌≤◌, ◌^◌, length};
ghost use Rattle.std.specs.Int.{int_max};
ghost use Rattle.std.specs.List.{AllByRecursion};
ghost use Rattle.pg_hlist.specs.Items.{IsInRange};
ghost use Rattle.pg_lines.specs.Printed.{sizes_of, sizes_with};
ghost use Rattle.pg_lines.specs.Sums.{AreSmall, sums_of};

use crate::sums::LineSums;
use pg_hlist::HItem;

// The greater of two sizes.
fn greater(size: i32, other: i32) -> i32
    ensures { result ≡ int_max size other }
{
    if other < size { size } else { other }
}

/// The height and the depth of a line's box, in scaled points.
#[derive(Clone, Copy, PartialEq, Eq)]
pub struct BoxSizes {
    pub height: i32,
    pub depth: i32,
}

impl BoxSizes {
    // At least as high and as deep as an item, where it is a box.
    fn grow(&mut self, item: &HItem)
        ensures { self.new ≡ sizes_with item.now self.old }
    {
        if let HItem::BoxItem { height, depth, .. } = item {
            self.height = greater(*height, self.height);
            self.depth = greater(*depth, self.depth);
        }
    }
}

/// The sizes of a line's box: at least 8.5 points high and 3.5 deep, and as high and as deep as its greatest box.
pub fn box_sizes(line: &[HItem]) -> BoxSizes
    ensures { result ≡ sizes_of line.now }
{
    let mut sizes = BoxSizes {
        height: 557056,
        depth: 229376,
    };
    let mut rest = line;
    'back: while let [before @ .., last] = rest {
        sizes.grow(last);
        rest = before;
    }
    sizes
}

/// The sums over a line.
pub fn sums(line: &[HItem]) -> LineSums
    requires few { length line.now ≤ 2 ^ 11 }
    requires ranges { AllByRecursion IsInRange line.now }
    ensures value { result ≡ sums_of line.now }
    ensures small { AreSmall result }
{
    let mut sums = LineSums::none();
    for item in line {
        sums.add(item);
    }
    sums
}
