//! Whether item lines add up to the total that is printed for them.
ghost use Rattle.std.specs.Prelude.{◌≡◌, ◌≤◌, ◌^◌, ◌+◌, ◌+ℤ◌, nat_abs, pos, true};
ghost use Rattle.pg_drawing.specs.Laws.{IsTotal};
ghost use Rattle.pg_drawing.specs.Totals.{adds_up as adds_up_so, hanging, hanging_behind as hanging_so, is_total as is_total_so, natural_extent as natural_so, with_items};

use crate::model::{Mark, Shape};
use crate::shapes::{extent, lower};

// How much an item takes before glue is set.
fn natural_extent(shape: Shape) -> i64
    ensures value { result ≡ natural_so shape }
    ensures size { nat_abs result ≤ 2 ^ 63 }
{
    match shape {
        Shape::Glue { own, .. } => own,
        _ => extent(shape),
    }
}

// How far a column hangs down behind an item.
fn hanging_behind(depth: &i32, shape: Shape) -> i32
    ensures { result ≡ hanging_so depth.now shape }
{
    match shape {
        Shape::Box { depth: own, .. } => own,
        Shape::Rule { depth: own, .. } => own,
        Shape::Glue { .. } => 0,
        Shape::Kern { .. } => 0,
        Shape::Penalty { .. } => *depth,
        Shape::Insert { .. } => *depth,
        Shape::Other => *depth,
    }
}

// Items that are added up: how high they are together before glue is set, and the depth of the last that has a size.
#[derive(Clone, Copy)]
struct Sum {
    height: i128,
    depth: i32,
}

impl Sum {
    // One item more.
    fn add(&mut self, shape: Shape)
        requires { nat_abs self.old.height ≤ 2 ^ 126 }
        ensures height { self.new.height ≡ self.old.height +ℤ natural_so shape }
        ensures size { nat_abs self.new.height ≤ nat_abs self.old.height + 2 ^ 63 }
        ensures depth { self.new.depth ≡ hanging_so self.old.depth shape }
    {
        self.height = lower(&self.height, &natural_extent(shape));
        self.depth = hanging_behind(&self.depth, shape);
    }
}

// All marks, added up.
fn sum_of(marks: &[Mark]) -> Sum
    ensures height { result.height ≡ with_items (pos 0) marks.now }
    ensures depth { result.depth ≡ hanging (pos 0) marks.now }
    ensures size { nat_abs result.height ≤ 2 ^ 126 }
{
    let mut sum = Sum {
        height: 0,
        depth: 0,
    };
    let mut rest = marks;
    'marks: while let [mark, after @ ..] = rest {
        sum.add(mark.shape);
        rest = after;
    }
    sum
}

// Whether a total is this height less the depth, or less what is allowed of it.
fn is_total(sum: &Sum, total: &i64) -> bool
    requires { nat_abs sum.now.height ≤ 2 ^ 126 }
    ensures { result ≡ is_total_so sum.now.height sum.now.depth total.now }
{
    let least = sum.height - i128::from(sum.depth);
    let total = i128::from(*total);
    least <= total
        && (if sum.depth < 0 {
            total <= least
        } else {
            total <= sum.height
        })
}

/// Whether the marks of a text add up to this total, whatever depth is allowed below the last. It takes each total that
/// some limit of the depth makes.
pub fn adds_up(marks: &[Mark], total: &i64) -> bool
    ensures value { result ≡ adds_up_so marks.now total.now }
    ensures takes { IsTotal marks.now total.now → result ≡ true }
{
    is_total(&sum_of(marks), total)
}
