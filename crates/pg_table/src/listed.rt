//! A space that lists its moves, for who looks for wanted ones.
ghost use Rattle.std.specs.Prelude.{◌≡◌, ◌+◌, [], IfOk};
ghost use Rattle.pg_table.specs.Space.{AreWanted};

use crate::Steps;
use crate::marking::NoMarks;
use crate::space::{Offering, Space, Wants};
use crate::step::{Opened, StepList};
use std::alloc::AllocError;
use std::cmp::Ordering;
use std::sync::ledger::Ledger;

/// A space that offers all moves of a state, wanted or not.
#[derive(Drop)]
pub(crate) struct Listed<'a, S> {
    pub(crate) space: &'a S,
}

impl<S: Space> Space for Listed<'_, S> {
    type State = S::State;

    type Move = S::Move;

    type Key = S::Key;

    ghost meaning = { λ s. S.meaning s.space.now };

    ghost lawful = { λ s. S.lawful s.space.now };

    fn start(&self) -> Result<S::State, AllocError> {
        self.space.start()
    }

    fn key(&self, state: &S::State) -> Result<S::Key, AllocError> {
        self.space.key(state)
    }

    fn rank(&self, state: &S::State) -> u64 {
        self.space.rank(state)
    }

    fn block(&self, state: &S::State) -> u32 {
        self.space.block(state)
    }

    fn is_done(&self, state: &S::State) -> bool {
        self.space.is_done(state)
    }

    fn no_worse(&self, a: &S::State, b: &S::State) -> bool {
        self.space.no_worse(a, b)
    }

    fn order(&self, a: &S::Move, b: &S::Move) -> Ordering {
        self.space.order(a, b)
    }

    fn expand<L: Ledger>(
        &self,
        state: &S::State,
        steps: &mut Steps<L>,
    ) -> Result<Opened<S::State, S::Move>, AllocError> {
        self.space.expand(state, steps)
    }
}

impl<S: Space> Offering for Listed<'_, S> {
    type Marks = NoMarks<S::State>;

    fn outdoes(&self, _a: &S::State, _b: &S::State) -> bool {
        false
    }

    fn offer<L: Ledger, W: Wants<State = S::State, Marks = NoMarks<S::State>>>(
        &self,
        state: &S::State,
        steps: &mut Steps<L>,
        _wants: &W,
        _emptied: StepList<S::State, S::Move>,
    ) -> Result<Opened<S::State, S::Move>, AllocError>
        requires own { (S.meaning self.now.space.now).Own state.now }
        requires emptied { _emptied ≡ [] }
        ensures moves { IfOk result
            (λ o. AreWanted (S.meaning self.now.space.now) state.now (W.spares _wants.now) o.steps) }
        ensures reach { IfOk result (λ o. o.reach ≡ (S.meaning self.now.space.now).reach state.now) }
        ensures counted { steps.new ≡ steps.old + 1 }
    {
        self.space.expand(state, steps)
    }

    ghost marked_alike = { λ s a b h. absurd h };
}
