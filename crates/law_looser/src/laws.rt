//! Each law is the contract of a function that does nothing.
ghost use Rattle.law_looser.specs.Looser.{LessTextKeeps, MoreCountsKeep, MoreLoosenessKeeps, MoreToleranceKeeps};

use pg_list::Galley;
use pg_style::Style;

/// What is legal stays legal under a greater tolerance, under a greater looseness, where a text may be lower, and where
/// more floats may stand at the top or bottom of a text or in a column without text.
pub fn looser_keeps_legal(galley: &Galley, style: &Style)
    ensures tolerance { MoreToleranceKeeps galley.now style.now }
    ensures looseness { MoreLoosenessKeeps galley.now style.now }
    ensures text { LessTextKeeps galley.now style.now }
    ensures counts { MoreCountsKeep galley.now style.now }
{}
