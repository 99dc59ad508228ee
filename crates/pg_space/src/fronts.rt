//! What is kept behind the front of the next choice, for columns from several places.
ghost use Rattle.std.specs.Prelude.{◌≡◌, true, IfSome};
ghost use Rattle.pg_rooms.specs.PlaceEnds.{AreFrontEnds};
ghost use Rattle.pg_rules.specs.Legal.{document};
ghost use Rattle.pg_walk.specs.Fronts.{IsReachBehind, is_same_state as is_same_state_of};
ghost use Rattle.pg_walk.specs.Meaning.{state_of};

use crate::kept::Document;
use pg_hops::State;
use pg_rooms::FrontEnds;
use pg_walk::is_same_state;
use std::alloc::Global;
use std::marker::PhantomData;

/// What is kept behind the front of a choice of the document.
#[derive(Drop)]
pub(crate) struct KeptFront<D: Document> {
    pub(crate) ends: FrontEnds,
    pub(crate) of: PhantomData<D>,
    ghost right: { ∥ AreFrontEnds (document D.galley D.style) ends ∥₁ },
}

/// How far columns go that come to a front in a state where they pass no notes.
#[derive(Drop)]
pub(crate) struct KeptReach<D: Document> {
    pub(crate) start: State,
    pub(crate) reach: u32,
    pub(crate) of: PhantomData<D>,
    ghost right: { ∥ IsReachBehind (document D.galley D.style) start reach ∥₁ },
}

/// What is kept behind the front of the next choice.
#[derive(Drop)]
pub(crate) struct Fronts<D: Document> {
    pub(crate) ends: Vec<KeptFront<D>>,
    pub(crate) reaches: Vec<KeptReach<D>>,
}

// Whether this is kept for columns that come to a front in a state.
fn is_for<D: Document>(kept: &KeptFront<D>, base: &State) -> bool
    ensures { result ≡ is_same_state_of (state_of kept.now.ends.walk.base) (state_of base.now) }
{
    is_same_state(&kept.ends.walk.base, base)
}

impl<D: Document> Fronts<D> {
    /// Nothing that is kept. No memory is taken.
    pub(crate) fn none(alloc: Global) -> Fronts<D> {
        Fronts {
            ends: Vec::new(alloc),
            reaches: Vec::new(alloc),
        }
    }

    /// Drops what is kept behind another front than the one at a block.
    pub(crate) fn go_on_to(&mut self, block: u32) {
        let is_other = match self.ends.first() {
            Some(first) => first.ends.walk.base.block != block,
            None => false,
        };
        if is_other {
            self.ends.clear();
            self.reaches.clear();
        }
    }

    /// Takes out what is kept for columns that come to a front in a state.
    pub(crate) fn take(&mut self, base: &State) -> Option<KeptFront<D>>
        ensures { IfSome result (λ it. is_same_state_of (state_of it.ends.walk.base) (state_of base.now) ≡ true) }
    {
        let mut at = 0;
        'fronts: while at < self.ends.len() {
            if is_for(&self.ends[at], base) {
                return Some(self.ends.swap_remove(at));
            }
            at += 1;
        }
        None
    }

    /// How far columns go that come to a front in a state where they pass no notes, if it is kept.
    pub(crate) fn reach_from(&self, start: &State) -> Option<&KeptReach<D>>
        ensures { IfSome result (λ it. is_same_state_of (state_of it.now.start) (state_of start.now) ≡ true) }
    {
        let mut rest = self.reaches.as_slice();
        'reaches: while let [first, after @ ..] = rest {
            if is_same_state(&first.start, start) {
                return Some(first);
            }
            rest = after;
        }
        None
    }
}
