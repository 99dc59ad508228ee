//! Labels tested whether they are closed.
ghost use Rattle.std.specs.Prelude.{◌≡◌, ◌≤◌, ◌+◌, true, length, Contains, IfOk, OnOk, Some, None, ◌+ℤ◌};
ghost use Rattle.std.specs.Bool.{Decides};
ghost use Rattle.pg_table.specs.Needless.{MarksMore};
ghost use Rattle.pg_table.specs.Space.{AreWanted};
ghost use Rattle.pg_table.specs.declared.step.Step.{Step as AStep};
ghost use Rattle.pg_plan.specs.declared.pages.PageMove.{PageMove as AMove};
ghost use Rattle.pg_plan.specs.declared.states.State.{State as AState};
ghost use Rattle.pg_cover.specs.declared.cover.Open.{Open as AnOpen};
ghost use Rattle.pg_cover.specs.Covered.{AreMarksOf, AreOwn, CoveredBy, DoesCover, CoversStep, LeastOf, least_with, has_cover, IsOpenOf, NoneOpenBefore, IsFirstOpen, opened_count};

use crate::covering::{Covering, is_within};
use crate::hints::{Hints, hints_of};
use pg_list::Place;
use pg_plan::compare_places;
use pg_small::{SmallLabel, SmallMove, SmallState};
use pg_table::{Marking, Offering, Space, Step, StepList, Steps};
use std::alloc::{AllocError, Global};
use std::sync::ledger::Ledger;

/// How far ahead of the label that is opened labels are marked: as far as its columns lead, in most galleys, and not so
/// far that these marks are written over before they are asked about.
const AHEAD: usize = 1 << 12;

// Whether the label has a state that is no worse, at a cost that is at most the sum of two.
fn label_covers<S: Space<State = SmallState>>(
    space: &S,
    label: &SmallLabel,
    to: &SmallState,
    base: i128,
    pays: i128,
) -> bool
    requires label { (S.meaning space.now).Own label.now.state }
    requires to { (S.meaning space.now).Own to.now }
    ensures { Decides result (DoesCover (S.meaning space.now) label.now to.now (base +ℤ pays)) }
{
    space.no_worse(&label.state, to) && is_within(label.cost, base, pays)
}

/// Whether some label has a state that is no worse than a state of the space, at a cost that is at most the sum of two.
/// The sum is that of whole numbers, and may be beyond 128 bits. No memory is taken.
pub fn covers<S: Space<State = SmallState>>(
    space: &S,
    labels: &[SmallLabel],
    to: &SmallState,
    base: i128,
    pays: i128,
) -> bool
    requires labels { AreOwn (S.meaning space.now) labels.now }
    requires to { (S.meaning space.now).Own to.now }
    ensures { Decides result (CoveredBy (S.meaning space.now) labels.now to.now (base +ℤ pays)) }
{
    for label in labels {
        if label_covers(space, label, to, base, pays) {
            return true;
        }
    }
    false
}

// Whether one of the labels in the chain for a rank covers what a step of a label leads to.
fn chain_covers<S: Space<State = SmallState, Move = SmallMove>>(
    space: &S,
    labels: &[SmallLabel],
    hints: &Hints,
    label: &SmallLabel,
    step: &Step<SmallState, SmallMove>,
) -> bool
    requires labels { AreOwn (S.meaning space.now) labels.now }
    requires to { (S.meaning space.now).Own step.now.to }
    ensures { result ≡ true → CoversStep (S.meaning space.now) labels.now label.now step.now }
{
    let mut number = hints.first(space.block(&step.to), space.rank(&step.to));
    'chain: while number > 0 {
        let index = number - 1;
        if index < labels.len()
            && label_covers(space, &labels[index], &step.to, label.cost, step.cost)
        {
            return true;
        }
        number = hints.behind(index);
    }
    false
}

// Whether a label covers what a step of a label leads to. The labels of its rank are looked at first.
fn covers_step<S: Space<State = SmallState, Move = SmallMove>>(
    space: &S,
    labels: &[SmallLabel],
    hints: &Hints,
    label: &SmallLabel,
    step: &Step<SmallState, SmallMove>,
) -> bool
    requires labels { AreOwn (S.meaning space.now) labels.now }
    requires to { (S.meaning space.now).Own step.now.to }
    ensures { Decides result (CoversStep (S.meaning space.now) labels.now label.now step.now) }
{
    chain_covers(space, labels, hints, label, step)
        || covers(space, labels, &step.to, label.cost, step.cost)
}

// The least of places, with one more unless what ends there is covered.
fn least_place(is_covered: bool, least: Option<Place>, to: Place) -> Option<Place>
    ensures { result ≡ least_with is_covered least to }
{
    if is_covered {
        return least;
    }
    match least {
        None => Some(to),
        Some(old) => {
            if compare_places(&to, &old).is_lt() {
                Some(to)
            } else {
                Some(old)
            }
        }
    }
}

// The least of places, with the end of a step unless what it leads to is covered.
fn least_by(
    is_covered: bool,
    least: Option<Place>,
    step: &Step<SmallState, SmallMove>,
) -> Option<Place>
    ensures { result ≡ least_with is_covered least step.now.by.column.to }
{
    least_place(is_covered, least, step.by.to())
}

// The least place where one of these steps of a label ends that no label covers.
fn least_open<S: Space<State = SmallState, Move = SmallMove>>(
    space: &S,
    labels: &[SmallLabel],
    hints: &Hints,
    label: &SmallLabel,
    steps: StepList<SmallState, SmallMove>,
) -> Option<Place>
    requires labels { AreOwn (S.meaning space.now) labels.now }
    requires steps { (step : AStep AState AMove) → Contains steps step → (S.meaning space.now).Own step.to }
    ensures { LeastOf (S.meaning space.now) labels.now label.now steps result }
{
    let mut steps = steps;
    let mut least = None;
    while let Some(step) = steps.pop() {
        let is_covered = covers_step(space, labels, hints, label, &step);
        least = least_by(is_covered, least, &step);
    }
    least
}

// The columns that may follow a label, but for some of which a label is found that covers what they lead to.
fn steps_of<S: Offering<State = SmallState, Move = SmallMove>, L: Ledger>(
    space: &S,
    labels: &[SmallLabel],
    hints: &Hints,
    marks: &S::Marks,
    label: &SmallLabel,
    steps: &mut Steps<L>,
) -> Result<StepList<SmallState, SmallMove>, AllocError>
    requires marks { AreMarksOf S.Marks.NoWorse labels.now (S.Marks.outdone marks.now) }
    requires label { (S.meaning space.now).Own label.now.state }
    ensures wanted { IfOk result (AreWanted (S.meaning space.now) label.now.state
        (λ v c. has_cover (S.meaning space.now) labels.now v (label.now.cost +ℤ c))) }
    ensures counted { steps.new ≡ steps.old + 1 }
{
    let wants = Covering {
        space,
        labels,
        hints,
        marks,
        cost: label.cost,
    };
    let none = StepList::new(hints.alloc());
    Ok(space.offer(&label.state, steps, &wants, none)?.steps)
}

// The least place where a column that follows a label ends, and no label covers what it leads to.
fn open_of<S: Offering<State = SmallState, Move = SmallMove>, L: Ledger>(
    space: &S,
    labels: &[SmallLabel],
    hints: &Hints,
    marks: &S::Marks,
    label: &SmallLabel,
    steps: &mut Steps<L>,
) -> Result<Option<Place>, AllocError>
    requires labels { AreOwn (S.meaning space.now) labels.now }
    requires marks { AreMarksOf S.Marks.NoWorse labels.now (S.Marks.outdone marks.now) }
    requires label { (S.meaning space.now).Own label.now.state }
    ensures least { IfOk result (IsOpenOf (S.meaning space.now) labels.now label.now) }
    ensures counted { steps.new ≡ steps.old + 1 }
{
    let opened = steps_of(space, labels, hints, marks, label, steps)?;
    Ok(least_open(space, labels, hints, label, opened))
}

// Remembers the state of a label, at its cost.
fn mark_label<M: Marking<SmallState>>(label: &SmallLabel, marks: &mut M) -> Result<(), AllocError>
    ensures { OnOk result (MarksMore M.NoWorse (M.outdone marks.old) label.now.state label.now.cost
        (M.outdone marks.new)) }
{
    marks.mark(&label.state, label.cost)
}

// Marks the labels from an index to another, as far as there are labels. It answers the index of the next one.
fn mark_ahead<M: Marking<SmallState>>(
    labels: &[SmallLabel],
    from: usize,
    until: usize,
    marks: &mut M,
) -> Result<usize, AllocError>
    requires { AreMarksOf M.NoWorse labels.now (M.outdone marks.old) }
    ensures { OnOk result (AreMarksOf M.NoWorse labels.now (M.outdone marks.new)) }
{
    let mut next = from;
    'ahead: while next < labels.len() && next < until {
        mark_label(&labels[next], marks)?;
        next += 1;
    }
    Ok(next)
}

/// A label, by its index from 0, behind which stands a column that leads to what no label covers, and the least place
/// where such a column ends.
#[derive(Clone, Copy, PartialEq, Eq)]
pub struct Open {
    pub index: usize,
    pub to: Place,
}

/// The first label with a column behind it that leads to what no label covers; None where there is no such label. Each
/// label up to that one is opened once, and counted as a step; where memory runs out, no more than there are. The only
/// refusal is for want of memory.
pub fn first_open<S: Offering<State = SmallState, Move = SmallMove>, L: Ledger>(
    alloc: Global,
    space: &S,
    labels: &[SmallLabel],
    steps: &mut Steps<L>,
) -> Result<Option<Open>, AllocError>
    requires { AreOwn (S.meaning space.now) labels.now }
    ensures none { IfOk result (λ found. found ≡ None
        → NoneOpenBefore (S.meaning space.now) labels.now (length labels.now)) }
    ensures some { IfOk result (λ found. (o : AnOpen) → found ≡ Some o
        → IsFirstOpen (S.meaning space.now) labels.now o.index o.to) }
    ensures counted { IfOk result (λ found. steps.new ≡ steps.old + opened_count (length labels.now) found) }
    ensures bounded { steps.new ≤ steps.old + length labels.now }
{
    let hints = hints_of(alloc, space, labels)?;
    let mut marks = S::Marks::none(alloc);
    let mut unmarked = 0;
    for index in 0..labels.len() {
        unmarked = mark_ahead(labels, unmarked, index.saturating_add(AHEAD), &mut marks)?;
        if let Some(to) = open_of(space, labels, &hints, &marks, &labels[index], steps)? {
            return Ok(Some(Open { index, to }));
        }
    }
    Ok(None)
}
