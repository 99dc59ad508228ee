//! Which moves the table wants.
ghost use Rattle.std.specs.Prelude.{◌≡◌, ◌+◌, ◌+ℤ◌, [], IfOk};
ghost use Rattle.pg_table.specs.Space.{AreWanted};
ghost use Rattle.pg_table.specs.Needless.{is_spared};

use crate::Steps;
use crate::marking::{Marked, Marking};
use crate::search::is_below;
use crate::space::{Offering, Wants};
use crate::step::{Opened, StepList};
use crate::table::Entry;
use std::alloc::AllocError;
use std::marker::PhantomData;
use std::sync::ledger::Ledger;

/// Wants every move.
#[derive(Drop)]
pub struct EveryMove<T, M> {
    of: PhantomData<T>,
    marks: PhantomData<M>,
}

impl<T, M> EveryMove<T, M> {
    /// Wants every move, whatever could be remembered.
    pub fn new() -> EveryMove<T, M> {
        EveryMove {
            of: PhantomData,
            marks: PhantomData,
        }
    }
}

impl<T: Drop, M: Marking<T> + Drop> Wants for EveryMove<T, M> {
    type State = T;

    type Marks = M;

    ghost use Rattle.std.specs.Prelude.{false};

    ghost spares = { λ w v c. false };

    fn marked(&self) -> Option<Marked<'_, M>> {
        None
    }

    fn wants(&self, _to: &T, _rank: u64, _cost: i128) -> bool {
        true
    }
}

/// Wants the moves of a label that end neither below a block nor in a state that was reached at a lower cost, as far as
/// that is remembered.
#[derive(Drop)]
struct Wanting<'a, S: Offering> {
    space: &'a S,
    marks: &'a S::Marks,
    /// What the run of the label costs.
    cost: i128,
    below: u32,
}

impl<S: Offering> Wants for Wanting<'_, S> {
    type State = S::State;

    type Marks = S::Marks;

    ghost use Rattle.std.specs.Prelude.{◌+ℤ◌};
    ghost use Rattle.pg_table.specs.Needless.{is_spared};

    ghost spares = { λ w v c. is_spared (S.meaning w.space.now) w.below (S.Marks.outdone w.marks.now) v (w.cost +ℤ c) };

    fn marked(&self) -> Option<Marked<'_, S::Marks>> {
        Some(Marked {
            marks: self.marks,
            cost: self.cost,
        })
    }

    fn wants(&self, to: &S::State, _rank: u64, _cost: i128) -> bool {
        !is_below(self.space, to, self.below)
    }
}

/// The steps of a label that are wanted beside the pending ones, from the block `below` on, in a list that has none yet.
pub(crate) fn wanted_steps<S: Offering, L: Ledger>(
    space: &S,
    label: &Entry<S::State, S::Move>,
    below: u32,
    marks: &S::Marks,
    steps: &mut Steps<L>,
    emptied: StepList<S::State, S::Move>,
) -> Result<Opened<S::State, S::Move>, AllocError>
    requires own { (S.meaning space.now).Own label.now.state }
    requires emptied { emptied ≡ [] }
    ensures moves { IfOk result (λ o. AreWanted (S.meaning space.now) label.now.state
        (λ v c. is_spared (S.meaning space.now) below (S.Marks.outdone marks.now) v (label.now.cost +ℤ c)) o.steps) }
    ensures reach { IfOk result (λ o. o.reach ≡ (S.meaning space.now).reach label.now.state) }
    ensures counted { steps.new ≡ steps.old + 1 }
{
    let wants = Wanting {
        space,
        marks,
        cost: label.cost,
        below,
    };
    space.offer(&label.state, steps, &wants, emptied)
}
