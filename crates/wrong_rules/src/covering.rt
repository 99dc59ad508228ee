//! Labels that are tested.
ghost use Rattle.std.specs.Prelude.{◌≡◌, ◌≤◌, ◌+◌, ◌+ℤ◌, length, IfOk, None, Some};
ghost use Rattle.std.specs.Bool.{Decides};
ghost use Rattle.pg_cover.specs.Covered.{AreOwn, CoveredBy, IsFirstOpen, NoneOpenBefore, opened_count};
ghost use Rattle.pg_cover.specs.declared.cover.Open.{Open as AnOpen};

use pg_cover::Open;
use pg_small::{SmallLabel, SmallMove, SmallState};
use pg_table::{Offering, Space, Steps};
use std::alloc::{AllocError, Global};
use std::sync::ledger::Ledger;

/// Whether some label covers a state at a sum of two costs.
pub fn covers<S: Space<State = SmallState>>(
    space: &S,
    labels: &[SmallLabel],
    to: &SmallState,
    base: i128,
    pays: i128,
) -> bool
    requires labels { AreOwn (S.meaning space.now) labels.now }
    requires to { (S.meaning space.now).Own to.now }
    ensures { Decides result (CoveredBy (S.meaning space.now) labels.now to.now (base +ℤ pays)) }
{
    pg_cover::covers(space, labels, to, base, pays)
}

/// The first label with a column behind it that leads to what no label covers.
pub fn first_open<S: Offering<State = SmallState, Move = SmallMove>, L: Ledger>(
    alloc: Global,
    space: &S,
    labels: &[SmallLabel],
    steps: &mut Steps<L>,
) -> Result<Option<Open>, AllocError>
    requires { AreOwn (S.meaning space.now) labels.now }
    ensures none { IfOk result (λ found. found ≡ None
        → NoneOpenBefore (S.meaning space.now) labels.now (length labels.now)) }
    ensures some { IfOk result (λ found. (o : AnOpen) → found ≡ Some o
        → IsFirstOpen (S.meaning space.now) labels.now o.index o.to) }
    ensures counted { IfOk result (λ found. steps.new ≡ steps.old + opened_count (length labels.now) found) }
    ensures bounded { steps.new ≤ steps.old + length labels.now }
{
    pg_cover::first_open(alloc, space, labels, steps)
}
