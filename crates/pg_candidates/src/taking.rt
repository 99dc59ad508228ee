//! What takes the ends to which a walk comes.
ghost use Rattle.std.specs.Prelude.{◌++◌, ◌∷◌, [], ℕ, List, IfOk, OnOk};
ghost use Rattle.law_walk.specs.Candidates.{Candidate};
ghost use Rattle.pg_hops.specs.Needs.{AreNeeds};
ghost use Rattle.pg_hops.specs.View.{view};
ghost use Rattle.pg_style.specs.Values.{StyleValue};

use pg_hops::{Needs, Passed};
use pg_list::Place;
use pg_plan::Picks;
use pg_style::Style;
use std::alloc::AllocError;

/// An end to which a walk comes: its place, what was passed before it, and the picks on the way with their demerits.
#[derive(Clone, Copy)]
pub struct WalkEnd<'a> {
    pub to: Place,
    pub passed: &'a Passed,
    pub picks: &'a Picks,
    pub demerits: i64,
}

/// Takes the ends to which a walk along a stretch comes, one after another.
pub trait TakesEnds {
    /// From the one value to the other these ends were taken, under this style.
    ghost Took: { StyleValue → Self → Self → List Candidate → Type 0 };

    /// What the ends along a stretch share of its picks.
    type Shared: Drop;

    /// That it is shared of these picks.
    ghost SharedOf: { Self.Shared → List ℕ → Type 0 };

    /// What the ends along a stretch with these picks share.
    fn share(&self, picks: &Picks) -> Result<Self::Shared, AllocError>
        ensures { IfOk result (λ shared. SharedOf shared picks.now) };

    /// Takes an end of a walk under a style.
    ///
    /// Conditions: the needs are those of its place behind what was passed, and what is shared is of its picks.
    fn take(
        &mut self,
        style: &Style,
        needs: &Needs,
        end: &WalkEnd,
        shared: &Self::Shared,
    ) -> Result<(), AllocError>
        requires needs { AreNeeds style.now (view end.now.passed.now) needs.now }
        requires shared { SharedOf shared.now end.now.picks.now }
        ensures { OnOk result (Took style.now self.old self.new (record {
          to = end.now.to;
          picks = end.now.picks.now;
          passed = view end.now.passed.now;
          pick_demerits = end.now.demerits;
        } ∷ [])) };

    /// Where nothing is taken, all stays.
    ghost none_taken: { (style : StyleValue) (a : Self) → Took style a a [] };

    /// What was taken in two turns was taken.
    ghost both_taken: { (style : StyleValue) (a b c : Self) (xs ys : List Candidate) → Took style a b xs →
        Took style b c ys → Took style a c (xs ++ ys) };
}
