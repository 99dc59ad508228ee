//! What lies between a break and the next one.
ghost use Rattle.std.specs.Prelude.{◌≡◌, IfSome};

use crate::{Added, Cursor, Shift};
use std::marker::Model;

/// The way from a break to the next one, or to an insert or the front of a choice before it: where it leads, how many items
/// are passed, and what they add to sums behind a box, in scaled points.
#[derive(Clone, Copy)]
pub struct Hop {
    to: Cursor,
    count: u32,
    height: i32,
    depth: Option<i32>,
    finite: i32,
    fil: i32,
    fill: i32,
    filll: i32,
    shrink: i32,
}

impl Model for Hop {
    ghost use Rattle.pg_hops.specs.Hop.{HopValue};
    ghost use Rattle.pg_hops.specs.Bounds.{IsWellKept};

    ghost Value = { HopValue };

    ghost view = { λ a. record {
      to = a.to;
      added = record {
        count = a.count;
        shift = record {
          height = a.height;
          depth = a.depth;
          finite = a.finite;
          fil = a.fil;
          fill = a.fill;
          filll = a.filll;
          shrink = a.shrink;
        };
      };
    } };

    ghost inverse = { λ v. record {
      to = v.to;
      count = v.added.count;
      height = v.added.shift.height;
      depth = v.added.shift.depth;
      finite = v.added.shift.finite;
      fil = v.added.shift.fil;
      fill = v.added.shift.fill;
      filll = v.added.shift.filll;
      shrink = v.added.shift.shrink;
    } };

    ghost invariant = { λ a. IsWellKept a.count (record {
      height = a.height;
      depth = a.depth;
      finite = a.finite;
      fil = a.fil;
      fill = a.fill;
      filll = a.filll;
      shrink = a.shrink;
    }) };
}

// The same sum in fewer bytes.
fn narrow_sum(sum: i64) -> Option<i32>
    ensures { IfSome result (λ n. n ≡ sum) }
{
    i32::try_from(sum).ok()
}

// The same depth, where there is one, in fewer bytes.
fn narrow(depth: Option<i64>) -> Option<Option<i32>>
    ensures { IfSome result (λ d. d ≡ depth) }
{
    match depth {
        None => Some(None),
        Some(depth) => Some(Some(narrow_sum(depth)?)),
    }
}

// The same depth, where there is one.
fn wide(depth: Option<i32>) -> Option<i64>
    ensures { result ≡ depth }
{
    match depth {
        None => None,
        Some(depth) => Some(i64::from(depth)),
    }
}

impl Hop {
    /// The hop past items that add so much to where it leads. None where a sum takes more than 32 bits.
    pub fn new(to: Cursor, added: &Added) -> Option<Hop>
        ensures { IfSome result (λ hop. hop ≡ record { to = to; added = added.now }) }
    {
        let shift = added.shift();
        Some(Hop {
            to,
            count: added.count(),
            height: narrow_sum(shift.height)?,
            depth: narrow(shift.depth)?,
            finite: narrow_sum(shift.finite)?,
            fil: narrow_sum(shift.fil)?,
            fill: narrow_sum(shift.fill)?,
            filll: narrow_sum(shift.filll)?,
            shrink: narrow_sum(shift.shrink)?,
        })
    }

    /// Where it leads.
    pub fn to(&self) -> Cursor
        ensures { result ≡ self.now.to }
    {
        self.to
    }

    /// What the items passed add.
    pub fn added(&self) -> Added
        ensures { result ≡ self.now.added }
    {
        Added::of(
            self.count,
            Shift {
                height: i64::from(self.height),
                depth: wide(self.depth),
                finite: i64::from(self.finite),
                fil: i64::from(self.fil),
                fill: i64::from(self.fill),
                filll: i64::from(self.filll),
                shrink: i64::from(self.shrink),
            },
        )
    }
}
