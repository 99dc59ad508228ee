//! What a search remembers of the states that it reached, so that it need not make moves that come too late.
ghost use Rattle.std.specs.Prelude.{◌≡◌, ◌⊎◌, ◌<ℤ◌, Bool, true, false, ℤ, OnOk};

use std::alloc::{AllocError, Global};
use std::marker::PhantomData;

/// What is remembered of states that were reached, and at which costs.
pub trait Marking<T> {
    /// That the first state is no worse than the second.
    ghost NoWorse: { T → T → Type 0 };

    /// That a state that is no worse was reached at a lower cost than this one, as far as it is remembered.
    ghost outdone: { Self → T → ℤ → Bool };

    /// Nothing remembered. No memory is taken.
    fn none(alloc: Global) -> Self
        ensures { (v : T) (c : ℤ) → outdone result v c ≡ false };

    /// A number that tells states of one block and rank apart. Nothing is promised of it.
    fn detail(state: &T) -> u64;

    /// Remembers that a state was reached at a cost. It may forget others, or this one.
    fn mark(&mut self, state: &T, cost: i128) -> Result<(), AllocError>
        ensures { OnOk result ((v : T) (c : ℤ) → outdone self.new v c ≡ true →
            (outdone self.old v c ≡ true) ⊎ (NoWorse state.now v × (cost <ℤ c))) };
}

/// Remembers nothing.
#[derive(Drop)]
pub struct NoMarks<T> {
    of: PhantomData<T>,
}

impl<T: Drop> Marking<T> for NoMarks<T> {
    ghost use Rattle.std.specs.Prelude.{false};

    ghost NoWorse = { λ a b. ⊥ };

    ghost outdone = { λ m v c. false };

    fn none(_alloc: Global) -> NoMarks<T> {
        NoMarks { of: PhantomData }
    }

    fn detail(_state: &T) -> u64 {
        0
    }

    fn mark(&mut self, _state: &T, _cost: i128) -> Result<(), AllocError> {
        Ok(())
    }
}

/// What is remembered, for who opens a label of this cost.
#[derive(Copy, Clone)]
pub struct Marked<'a, M> {
    pub marks: &'a M,
    pub cost: i128,
}
