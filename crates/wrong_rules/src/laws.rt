//! What the clause of the check excludes.
ghost use Rattle.std.specs.Prelude.{Ok};
ghost use Rattle.law_check.specs.Faults.{Checked, IsFirstFault};
ghost use Rattle.law_check.specs.declared.answers.No.{No as ANo};
ghost use Rattle.law_check.specs.declared.answers.Proved.{Proved as AProved};
ghost use Rattle.pg_labels.specs.declared.output.Output.{Output as AnOutput};

use law_check::faults_fail;
use pg_list::Galley;
use pg_style::Style;

/// Where a test of an output text fails, no yes is an answer of its check.
pub fn no_yes_at_a_fault(galley: &Galley, style: &Style)
    ensures { (output : AnOutput) (fault : ANo) (proved : AProved) → IsFirstFault galley.now style.now output fault →
        Checked galley.now style.now output (Ok proved) → ⊥ }
{
    faults_fail(galley, style);
}
