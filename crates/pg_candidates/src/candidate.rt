//! A candidate, and a list of them.
ghost use Rattle.std.specs.Prelude.{◌≡◌, ◌++◌, ◌∷◌, [], IfOk, OnOk, map};
ghost use Rattle.pg_candidates.specs.View.{candidate_of, end_of};

use crate::taking::{TakesEnds, WalkEnd};
use pg_hops::{Needs, Passed};
use pg_list::Place;
use pg_plan::Picks;
use pg_style::Style;
use std::alloc::{AllocError, Global};
use std::marker::Model;
use std::rc::Rc;

// For how many candidates there is room at once: few places have more, and what is not used costs nothing.
pub(crate) const ROOM: usize = 1024;

/// Where columns from a place may end: the picks of the choices that begin on the way, what is passed, and the demerits
/// of the variants picked. The candidates along one stretch share their picks.
#[derive(Drop)]
pub struct Candidate {
    pub to: Place,
    pub picks: Rc<Picks>,
    pub passed: Passed,
    pub pick_demerits: i64,
}

impl Candidate {
    /// The end of which it was made.
    pub(crate) fn as_end(&self) -> WalkEnd<'_>
        ensures { end_of result ≡ candidate_of self.now }
    {
        WalkEnd {
            to: self.to,
            passed: &self.passed,
            picks: &*self.picks,
            demerits: self.pick_demerits,
        }
    }
}

/// Candidates from one place.
#[derive(Drop)]
pub struct CandidateList {
    items: Vec<Candidate>,
}

impl Model for CandidateList {
    ghost use Rattle.std.specs.Prelude.{List, map};
    ghost use Rattle.law_walk.specs.Candidates.{Candidate};
    ghost use Rattle.pg_candidates.specs.View.{candidate_of};

    ghost Value = { List Candidate };

    ghost view = { λ a. map candidate_of a.items.items };
}

impl CandidateList {
    /// No candidates, with room for as many as nearly all places have, so that they are seldom moved. The one refusal is want
    /// of memory.
    pub fn with_room(alloc: Global) -> Result<CandidateList, AllocError>
        ensures { IfOk result (λ list. list ≡ []) }
    {
        Ok(CandidateList {
            items: Vec::with_capacity(alloc, ROOM)?,
        })
    }

    /// Adds a candidate behind the others.
    #[inline(always)]
    pub fn push(&mut self, candidate: Candidate) -> Result<(), AllocError>
        ensures { OnOk result (self.new ≡ self.old ++ candidate_of candidate ∷ []) }
    {
        self.items.push(candidate)?;
        Ok(())
    }

    // The candidates, one after another.
    pub(crate) fn as_slice(&self) -> &[Candidate]
        ensures { map candidate_of result.now ≡ self.now }
    {
        self.items.as_slice()
    }
}

impl TakesEnds for CandidateList {
    ghost use Rattle.std.specs.Prelude.{◌≡◌, ◌++◌};
    ghost use Rattle.pg_candidates.specs.Taken.{listed_both, listed_none};

    ghost Took = { λ style old new cs. new ≡ old ++ cs };

    type Shared = Rc<Picks>;

    ghost SharedOf = { λ shared picks. shared.value ≡ picks };

    fn share(&self, picks: &Picks) -> Result<Rc<Picks>, AllocError> {
        Ok(Rc::new(*self.items.allocator(), picks.copy()?)?)
    }

    #[inline(always)]
    fn take(
        &mut self,
        _style: &Style,
        _needs: &Needs,
        end: &WalkEnd,
        shared: &Rc<Picks>,
    ) -> Result<(), AllocError> {
        self.push(Candidate {
            to: end.to,
            picks: Rc::clone(shared)?,
            passed: *end.passed,
            pick_demerits: end.demerits,
        })
    }

    ghost none_taken = { listed_none };

    ghost both_taken = { listed_both };
}
