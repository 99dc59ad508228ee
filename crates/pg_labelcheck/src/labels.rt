//! The tests of the labels: each is a state, they are closed from the start on, and none of them undercuts what is
//! shown.
ghost use Rattle.std.specs.Prelude.{◌≡◌, ◌<◌, ◌≤◌, ◌+◌, ◌^◌, length};
ghost use Rattle.pg_floats.specs.AreFloats.{AreFloats};
ghost use Rattle.pg_labels.specs.Reading.{IsFew};
ghost use Rattle.law_check.specs.Faults.{shown_cost as shown_cost_of};
ghost use Rattle.law_check.specs.Tests.{PassesAll, PassesStart, PassesStates, PassesSteps, PassesText};
ghost use Rattle.pg_labelcheck.specs.Tested.{Tested, final_fault as final_fault_of};

use crate::firsts::{covers_start, first_final, first_no_state};
use law_check::{No, best_picks_decide};
use pg_cover::first_open;
use pg_floats::FloatList;
use pg_hops::BreakIndex;
use pg_labels::{Output, Shown};
use pg_list::Galley;
use pg_small::{SmallLabel, small_labels};
use pg_space::{Document, KeptPages, PageSpace};
use pg_style::Style;
use pg_table::Steps;
use std::alloc::Global;
use std::sync::ledger::Ledger;

// The number, from 1, of the label at an index.
fn number_of(index: usize) -> u32
    requires { index < 2 ^ 31 }
    ensures { result ≡ index + 1 }
{
    (index + 1) as u32
}

// Test 4: each label is a state.
fn test_states(space: &PageSpace<'_>, output: &Output) -> Result<(), No>
    requires few { IsFew output.now }
    requires before { PassesText space.now.sources.galley.now space.now.sources.style.now output.now }
    ensures { Tested (PassesStates space.now.sources.galley.now space.now.sources.style.now output.now)
        space.now.sources.galley.now space.now.sources.style.now output.now result }
{
    match first_no_state(space, output.labels.as_slice()) {
        None => Ok(()),
        Some(index) => Err(No::BadLabel {
            label: number_of(index),
        }),
    }
}

// Test 5: some label covers the start at the cost 0.
fn test_start(space: &PageSpace<'_>, labels: &[SmallLabel], output: &Output) -> Result<(), No>
    requires labels { labels.now ≡ output.now.labels }
    requires before { PassesStates space.now.sources.galley.now space.now.sources.style.now output.now }
    ensures { Tested (PassesStart space.now.sources.galley.now space.now.sources.style.now output.now)
        space.now.sources.galley.now space.now.sources.style.now output.now result }
{
    match covers_start(space, labels) {
        Ok(true) => Ok(()),
        Ok(false) => Err(No::NoStart),
        Err(_) => Err(No::Memory),
    }
}

// Test 6: whatever follows a label leads to what a label covers. Each label is opened once, up to the first that fails;
// the columns with best picks decide.
fn test_steps<D: Document, L: Ledger>(
    alloc: Global,
    space: &KeptPages<'_, D>,
    labels: &[SmallLabel],
    output: &Output,
    steps: &mut Steps<L>,
) -> Result<(), No>
    requires labels { labels.now ≡ output.now.labels }
    requires few { IsFew output.now }
    requires before { PassesStart space.now.pages.sources.galley.now space.now.pages.sources.style.now output.now }
    ensures tested { Tested
        (PassesSteps space.now.pages.sources.galley.now space.now.pages.sources.style.now output.now)
        space.now.pages.sources.galley.now space.now.pages.sources.style.now output.now result }
    ensures bounded { steps.new ≤ steps.old + length labels.now }
{
    best_picks_decide(space.pages.sources.galley, space.pages.sources.style);
    match first_open(alloc, space, labels, steps) {
        Ok(None) => Ok(()),
        Ok(Some(open)) => Err(No::NotClosed {
            label: number_of(open.index),
            to: open.to,
        }),
        Err(_) => Err(No::Memory),
    }
}

/// The cost that is shown, or None where none is said to be legal.
pub(crate) fn shown_cost(shown: &Shown) -> Option<i128>
    ensures { result ≡ shown_cost_of shown.now }
{
    match shown {
        Shown::Pages(_, cost) => Some(*cost),
        Shown::NoLegal => None,
    }
}

// What is said of a finished label with its number: it undercuts what is shown, or is final where none is legal.
fn final_fault(shown: &Shown, number: u32, label: &SmallLabel) -> No
    ensures { result ≡ final_fault_of shown.now number label.now.cost }
{
    match shown {
        Shown::Pages(_, _) => No::Undercut {
            label: number,
            cost: label.cost,
        },
        Shown::NoLegal => No::FinalInNone { label: number },
    }
}

// Tests 7 and 8: no label is finished at less than the shown cost, and none where none is said to be legal.
fn test_final(space: &PageSpace<'_>, labels: &[SmallLabel], output: &Output) -> Result<(), No>
    requires labels { labels.now ≡ output.now.labels }
    requires few { IsFew output.now }
    requires before { PassesSteps space.now.sources.galley.now space.now.sources.style.now output.now }
    ensures { Tested (PassesAll space.now.sources.galley.now space.now.sources.style.now output.now)
        space.now.sources.galley.now space.now.sources.style.now output.now result }
{
    match first_final(space, labels, shown_cost(&output.shown)) {
        None => Ok(()),
        Some(index) => Err(final_fault(&output.shown, number_of(index), &labels[index])),
    }
}

// Tests 5 and 6 of labels in few bytes, over a space of pages in which labels of one place share a walk.
fn test_closed<D: Document, L: Ledger>(
    alloc: Global,
    space: &KeptPages<'_, D>,
    labels: &[SmallLabel],
    output: &Output,
    steps: &mut Steps<L>,
) -> Result<(), No>
    requires labels { labels.now ≡ output.now.labels }
    requires few { IsFew output.now }
    requires before { PassesStates space.now.pages.sources.galley.now space.now.pages.sources.style.now output.now }
    ensures tested { Tested
        (PassesSteps space.now.pages.sources.galley.now space.now.pages.sources.style.now output.now)
        space.now.pages.sources.galley.now space.now.pages.sources.style.now output.now result }
    ensures bounded { steps.new ≤ steps.old + length labels.now }
{
    test_start(&space.pages, labels, output)?;
    test_steps(alloc, space, labels, output, steps)
}

// Tests 5 to 8 of labels in few bytes.
fn test_small<D: Document, L: Ledger>(
    alloc: Global,
    space: &KeptPages<'_, D>,
    labels: &[SmallLabel],
    output: &Output,
    steps: &mut Steps<L>,
) -> Result<(), No>
    requires labels { labels.now ≡ output.now.labels }
    requires few { IsFew output.now }
    requires before { PassesStates space.now.pages.sources.galley.now space.now.pages.sources.style.now output.now }
    ensures tested { Tested (PassesAll space.now.pages.sources.galley.now space.now.pages.sources.style.now output.now)
        space.now.pages.sources.galley.now space.now.pages.sources.style.now output.now result }
    ensures bounded { steps.new ≤ steps.old + length labels.now }
{
    test_closed(alloc, space, labels, output, steps)?;
    test_final(&space.pages, labels, output)
}

// Tests 4 to 8, over a space of pages in which labels of one place share a walk.
fn test_in<D: Document, L: Ledger>(
    alloc: Global,
    space: &KeptPages<'_, D>,
    output: &Output,
    steps: &mut Steps<L>,
) -> Result<(), No>
    requires few { IsFew output.now }
    requires before { PassesText space.now.pages.sources.galley.now space.now.pages.sources.style.now output.now }
    ensures tested { Tested (PassesAll space.now.pages.sources.galley.now space.now.pages.sources.style.now output.now)
        space.now.pages.sources.galley.now space.now.pages.sources.style.now output.now result }
    ensures bounded { steps.new ≤ steps.old + length output.now.labels }
{
    test_states(&space.pages, output)?;
    match small_labels(alloc, output.labels.as_slice()) {
        Ok(labels) => test_small(alloc, space, labels.as_slice(), output, steps),
        Err(_) => Err(No::Memory),
    }
}

/// Tests 4 to 8 of an output, of which the first three pass. Each label is opened at most once.
pub(crate) fn test_labels<D: Document, L: Ledger>(
    alloc: Global,
    galley: &Galley,
    style: &Style,
    floats: &FloatList,
    output: &Output,
    steps: &mut Steps<L>,
) -> Result<(), No>
    requires floats { AreFloats galley.now.blocks style.now floats.now }
    requires galley { galley.now ≡ D.galley }
    requires style { style.now ≡ D.style }
    requires few { IsFew output.now }
    requires before { PassesText galley.now style.now output.now }
    ensures tested { Tested (PassesAll galley.now style.now output.now) galley.now style.now output.now result }
    ensures bounded { steps.new ≤ steps.old + length output.now.labels }
{
    let index = BreakIndex::of(alloc, galley, style);
    let space = KeptPages::<D>::new(alloc, galley, style, floats, &index);
    test_in(alloc, &space, output, steps)
}
