//! The check of an output text.
ghost use Rattle.std.specs.Prelude.{◌≤◌, ◌+◌, length, IfOk};
ghost use Rattle.pg_floats.specs.AreFloats.{AreFloats};
ghost use Rattle.pg_labels.specs.Reading.{IsFew};
ghost use Rattle.law_check.specs.Faults.{Checked, IsYesOrMemory};
ghost use Rattle.law_check.specs.CheckLaws.{ShowsSolution, ShowsTruth};

use law_check::{No, Proved};
use pg_floats::FloatList;
use pg_labels::Output;
use pg_list::Galley;
use pg_style::Style;
use pg_table::Steps;
use std::alloc::Global;
use std::sync::ledger::Ledger;

/// The eight tests of an output text.
pub fn check<L: Ledger>(
    alloc: Global,
    galley: &Galley,
    style: &Style,
    floats: &FloatList,
    output: &Output,
    steps: &mut Steps<L>,
) -> Result<Proved, No>
    requires floats { AreFloats galley.now.blocks style.now floats.now }
    requires few { IsFew output.now }
    ensures checked { Checked galley.now style.now output.now result }
    ensures truth { IfOk result (λ proved. ShowsTruth galley.now style.now output.now proved.cost) }
    ensures solved { ShowsSolution galley.now style.now output.now → IsYesOrMemory result }
    ensures bounded { steps.new ≤ steps.old + length output.now.labels }
{
    pg_labelcheck::check(alloc, galley, style, floats, output, steps)
}
