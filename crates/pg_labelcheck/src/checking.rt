//! The check of an output text.
ghost use Rattle.std.specs.Prelude.{◌≡◌, ◌≤◌, ◌+◌, length, IfOk};
ghost use Rattle.pg_floats.specs.AreFloats.{AreFloats};
ghost use Rattle.pg_labels.specs.Reading.{IsFew};
ghost use Rattle.law_check.specs.Faults.{Checked, IsYesOrMemory};
ghost use Rattle.law_check.specs.CheckLaws.{ShowsSolution, ShowsTruth};

use crate::labels::{shown_cost, test_labels};
use crate::shown::test_shown;
use law_check::{No, Proved, faults_fail, frontier_passes, passed_tests_prove};
use pg_floats::FloatList;
use pg_labels::Output;
use pg_list::Galley;
use pg_style::Style;
use pg_table::Steps;
use std::alloc::Global;
use std::marker::Brand;
use std::sync::ledger::Ledger;

// The eight tests in their order, and the answer.
fn test_all<L: Ledger>(
    alloc: Global,
    galley: &Galley,
    style: &Style,
    floats: &FloatList,
    output: &Output,
    steps: &mut Steps<L>,
) -> Result<Proved, No>
    requires floats { AreFloats galley.now.blocks style.now floats.now }
    requires few { IsFew output.now }
    ensures checked { Checked galley.now style.now output.now result }
    ensures bounded { steps.new ≤ steps.old + length output.now.labels }
{
    test_shown(alloc, galley, style, floats, output)?;
    test_labels::<Brand, L>(alloc, galley, style, floats, output, steps)?;
    Ok(Proved {
        cost: shown_cost(&output.shown),
        labels: output.labels.as_slice().len() as u32,
    })
}

/// Makes the eight tests of an output text in their order. A yes holds the shown cost in demerits, or None where none
/// is said to be legal, and the number of labels; a no is the first test that fails, with its values. `Memory` may come
/// in place of any answer.
///
/// A yes proves what is shown, whoever made the text: the shown pagination is legal, has the cost and the page text
/// that stand there, and no legal pagination costs less; or no pagination is legal. What solving the galley tells, with
/// the labels of the frontier, gets a yes unless memory runs out.
///
/// Whatever the answer, each label is opened at most once, and counted as a step.
///
/// Conditions: the list is that of the galley's floats, as `FloatList::of` makes it, and the output has fewer than 2^31
/// pages, columns and labels.
pub fn check<L: Ledger>(
    alloc: Global,
    galley: &Galley,
    style: &Style,
    floats: &FloatList,
    output: &Output,
    steps: &mut Steps<L>,
) -> Result<Proved, No>
    requires floats { AreFloats galley.now.blocks style.now floats.now }
    requires few { IsFew output.now }
    ensures checked { Checked galley.now style.now output.now result }
    ensures truth { IfOk result (λ proved. ShowsTruth galley.now style.now output.now proved.cost) }
    ensures solved { ShowsSolution galley.now style.now output.now → IsYesOrMemory result }
    ensures bounded { steps.new ≤ steps.old + length output.now.labels }
{
    style.stays_in_range();
    // hands on the ranges of the blocks
    let _ = galley.blocks().as_slice();
    passed_tests_prove(galley, style);
    frontier_passes(galley, style);
    faults_fail(galley, style);
    test_all(alloc, galley, style, floats, output, steps)
}
