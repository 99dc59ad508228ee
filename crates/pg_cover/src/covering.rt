//! Which moves of a label are wanted: those that lead to what no label is found to cover.
ghost use Rattle.std.specs.Prelude.{◌≡◌, true, ◌≤ℤ◌, ◌+ℤ◌};
ghost use Rattle.std.specs.Bool.{Decides};
ghost use Rattle.pg_cover.specs.Covered.{CoveredBy, DoesCover};

use crate::hints::Hints;
use pg_small::{SmallLabel, SmallState};
use pg_table::{Marked, Offering, Wants};

/// Whether a cost is at most the sum of two, which may be beyond 128 bits.
pub(crate) fn is_within(cost: i128, base: i128, pays: i128) -> bool
    ensures { Decides result (cost ≤ℤ (base +ℤ pays)) }
{
    match base.checked_add(pays) {
        Some(sum) => cost <= sum,
        None => pays > 0,
    }
}

// Whether the label has a state that is surely no worse, at a cost that is at most the sum of two.
fn label_outdoes<S: Offering<State = SmallState>>(
    space: &S,
    label: &SmallLabel,
    to: &SmallState,
    base: i128,
    pays: i128,
) -> bool
    ensures { result ≡ true → DoesCover (S.meaning space.now) label.now to.now (base +ℤ pays) }
{
    is_within(label.cost, base, pays) && space.outdoes(&label.state, to)
}

/// Wants the moves of a label that lead to what no label covers, as far as the chain of a rank tells.
#[derive(Drop)]
pub(crate) struct Covering<'a, S: Offering<State = SmallState>> {
    pub(crate) space: &'a S,
    pub(crate) labels: &'a [SmallLabel],
    pub(crate) hints: &'a Hints,
    /// What is remembered of the labels.
    pub(crate) marks: &'a S::Marks,
    /// What the label costs.
    pub(crate) cost: i128,
}

impl<S: Offering<State = SmallState>> Covering<'_, S> {
    // Whether a label in the chain for the state's block and this rank surely covers what a move at this cost leads to.
    fn is_outdone(&self, to: &SmallState, rank: u64, cost: i128) -> bool
        ensures { result ≡ true → CoveredBy (S.meaning self.now.space.now) self.now.labels.now to.now
            (self.now.cost +ℤ cost) }
    {
        let mut number = self.hints.first(self.space.block(to), rank);
        'chain: while number > 0 {
            let index = number - 1;
            if index < self.labels.len()
                && label_outdoes(self.space, &self.labels[index], to, self.cost, cost)
            {
                return true;
            }
            number = self.hints.behind(index);
        }
        false
    }
}

impl<S: Offering<State = SmallState>> Wants for Covering<'_, S> {
    type State = SmallState;

    type Marks = S::Marks;

    ghost use Rattle.std.specs.Prelude.{◌+ℤ◌};
    ghost use Rattle.pg_cover.specs.Covered.{is_spared};

    ghost spares = { λ w v c. is_spared (S.meaning w.space.now) w.labels.now (S.Marks.outdone w.marks.now) v
        (w.cost +ℤ c) };

    fn marked(&self) -> Option<Marked<'_, S::Marks>> {
        // one more, since what costs as much covers too
        Some(Marked {
            marks: self.marks,
            cost: self.cost.checked_add(1)?,
        })
    }

    fn wants(&self, to: &SmallState, rank: u64, cost: i128) -> bool {
        !self.is_outdone(to, rank, cost)
    }
}
