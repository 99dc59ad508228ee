//! The lines of paragraphs.
ghost use Rattle.law_lines.specs.ParagraphsLaws.{IsRule};
ghost use Rattle.pg_lines.specs.Answers.{AnswersLines};

use law_lines::{LineFault, LineRule};
use pg_hlist::Paras;
use pg_list::Galley;
use pg_table::Steps;
use std::alloc::Global;
use std::sync::ledger::Ledger;

/// The galley of paragraphs, each in several numbers of lines.
pub fn break_lines<L: Ledger>(
    alloc: Global,
    paras: &Paras,
    rule: &LineRule,
    steps: &mut Steps<L>,
) -> Result<Galley, LineFault>
    requires { IsRule rule.now }
    ensures { AnswersLines rule.now paras.now result }
{
    pg_lines::break_lines(alloc, paras, rule, steps)
}
