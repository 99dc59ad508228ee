//! What stands between boxes: glue and kerns, drawn as their sum.
ghost use Rattle.std.specs.Prelude.{◌≡◌, ◌≤◌, ◌^◌, ◌+◌, ◌+ℤ◌, nat_abs, length};
ghost use Rattle.pg_draw_page.specs.Spaces.{between_count, is_between as is_between_so, own_sum as own_sum_so, own_width as own_width_so, set_sum as set_sum_so, set_width as set_width_so};

use pg_drawing::{Mark, Shape, extent};
use pg_list::Order;

/// Glue and kerns between two boxes, added up: their own width, the one that is set, and how much the glue among them
/// that stretches or shrinks here can give.
#[derive(Clone, Copy)]
pub struct Space {
    pub own: i128,
    pub set: i128,
    pub give: i128,
}

// Whether a shape stands between boxes.
fn is_between(shape: Shape) -> bool
    ensures { result ≡ is_between_so shape }
{
    match shape {
        Shape::Box { .. } => false,
        Shape::Rule { .. } => false,
        Shape::Insert { .. } => false,
        Shape::Glue { .. } => true,
        Shape::Kern { .. } => true,
        Shape::Penalty { .. } => true,
        Shape::Other => true,
    }
}

/// How many marks stand before the first box, rule or insert.
pub fn space_len(marks: &[Mark]) -> usize
    ensures count { result ≡ between_count marks.now }
    ensures bound { result ≤ length marks.now }
{
    let mut count = 0;
    let mut rest = marks;
    'marks: while let [mark, after @ ..] = rest {
        if !is_between(mark.shape) {
            return count;
        }
        count += 1;
        rest = after;
    }
    count
}

// The width that glue or a kern has of itself.
fn own_width(shape: Shape) -> i64
    ensures value { result ≡ own_width_so shape }
    ensures size { nat_abs result ≤ 2 ^ 63 }
{
    match shape {
        Shape::Glue { own, .. } => own,
        Shape::Kern { width } => i64::from(width),
        _ => 0,
    }
}

// The width that it has on the page.
fn set_width(shape: Shape) -> i64
    ensures value { result ≡ set_width_so shape }
    ensures size { nat_abs result ≤ 2 ^ 63 }
{
    match shape {
        Shape::Glue { .. } => extent(shape),
        Shape::Kern { width } => i64::from(width),
        _ => 0,
    }
}

// A sum with one number more.
fn plus(sum: &i128, number: &i64) -> i128
    requires { nat_abs sum.now ≤ 2 ^ 126 }
    ensures value { result ≡ sum.now +ℤ number.now }
    ensures size { nat_abs result ≤ nat_abs sum.now + 2 ^ 63 }
{
    *sum + i128::from(*number)
}

// Widths, added up.
#[derive(Clone, Copy)]
struct Sum {
    all: i128,
}

impl Sum {
    // The width that a mark has of itself.
    fn add_own(&mut self, shape: Shape)
        requires { nat_abs self.old.all ≤ 2 ^ 126 }
        ensures all { self.new.all ≡ self.old.all +ℤ own_width_so shape }
        ensures size { nat_abs self.new.all ≤ nat_abs self.old.all + 2 ^ 63 }
    {
        self.all = plus(&self.all, &own_width(shape));
    }

    // The width that it has on the page.
    fn add_set(&mut self, shape: Shape)
        requires { nat_abs self.old.all ≤ 2 ^ 126 }
        ensures all { self.new.all ≡ self.old.all +ℤ set_width_so shape }
        ensures size { nat_abs self.new.all ≤ nat_abs self.old.all + 2 ^ 63 }
    {
        self.all = plus(&self.all, &set_width(shape));
    }
}

// The widths that marks have of themselves, together.
fn own_sum(marks: &[Mark]) -> i128
    ensures { result ≡ own_sum_so marks.now }
{
    let mut sum = Sum { all: 0 };
    let mut rest = marks;
    'marks: while let [mark, after @ ..] = rest {
        sum.add_own(mark.shape);
        rest = after;
    }
    sum.all
}

// The widths that they have on the page, together.
fn set_sum(marks: &[Mark]) -> i128
    ensures { result ≡ set_sum_so marks.now }
{
    let mut sum = Sum { all: 0 };
    let mut rest = marks;
    'marks: while let [mark, after @ ..] = rest {
        sum.add_set(mark.shape);
        rest = after;
    }
    sum.all
}

// How much a mark can give that changes.
fn give(shape: Shape) -> i128 {
    match shape {
        Shape::Glue {
            own,
            stretch,
            order,
            shrink,
            ..
        } => {
            let set = extent(shape);
            if set > own && order == Order::Finite {
                i128::from(stretch)
            } else if set < own {
                i128::from(shrink)
            } else {
                0
            }
        }
        _ => 0,
    }
}

// How much marks can give together.
fn give_sum(marks: &[Mark]) -> i128 {
    let mut sum: i128 = 0;
    for mark in marks {
        sum = sum.saturating_add(give(mark.shape));
    }
    sum
}

/// Marks between boxes, added up.
pub fn space_of(marks: &[Mark]) -> Space
    ensures own { result.own ≡ own_sum_so marks.now }
    ensures set { result.set ≡ set_sum_so marks.now }
{
    Space {
        own: own_sum(marks),
        set: set_sum(marks),
        give: give_sum(marks),
    }
}

/// How far a space is stretched or shrunk: 0 where it is as wide as of itself, 1 up to half of what it can give, 2 up to
/// all of it, 3 beyond.
pub fn change_step(space: Space) -> i128 {
    let change = space.set.saturating_sub(space.own).saturating_abs();
    if change == 0 {
        0
    } else if change.saturating_mul(2) <= space.give {
        1
    } else if change <= space.give {
        2
    } else {
        3
    }
}
