//! What lies between a break and a place several breaks behind it.
ghost use Rattle.std.specs.Prelude.{◌≡◌, ◌≤◌, ◌^◌, Some, nat_abs};
ghost use Rattle.pg_column.specs.Passed.{raised as raised_of};

use crate::hop::Hop;
use std::marker::Model;

/// The way from a break past several more breaks, and the most that one of these asks of a room behind the first break, in
/// scaled points.
#[derive(Clone, Copy)]
pub struct Leap {
    way: Hop,
    highest: i64,
}

impl Model for Leap {
    ghost use Rattle.std.specs.Prelude.{◌≤◌, ◌^◌, nat_abs};
    ghost use Rattle.pg_hops.specs.Leap.{LeapValue};

    ghost Value = { LeapValue };

    ghost view = { λ a. record { way = a.way; highest = a.highest } };

    ghost inverse = { λ v. record { way = v.way; highest = v.highest } };

    ghost invariant = { λ a. nat_abs a.highest ≤ 2 ^ 56 };
}

impl Leap {
    /// The leap along a way whose breaks behind the first one ask for so much at most.
    pub fn new(way: Hop, highest: i64) -> Leap
        requires { nat_abs highest ≤ 2 ^ 56 }
        ensures { result ≡ record { way = way; highest = highest } }
    {
        Leap { way, highest }
    }

    /// Where it leads, and what is passed on the way.
    pub fn way(&self) -> &Hop
        ensures { result.now ≡ self.now.way }
    {
        &self.way
    }

    /// The most that a break behind the first one asks of a room.
    pub fn highest(&self) -> i64
        ensures value { result ≡ self.now.highest }
        ensures size { nat_abs result ≤ 2 ^ 56 }
    {
        self.highest
    }
}

/// The greater of what was asked so far, if anything was, and of one amount more.
pub fn raised(most: Option<i64>, more: i64) -> i64
    ensures { Some result ≡ raised_of most more }
{
    match most {
        Some(other) => { if other < more { more } else { other } }
        None => more,
    }
}
