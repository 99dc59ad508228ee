//! Each law is the contract of a function that does nothing. Its premise is what the types of a galley and of a style
//! keep.
ghost use Rattle.pg_rules.specs.Ranges.{AreInRange};
ghost use Rattle.law_check.specs.LabelLaws.{ClosedBound, ClosedNone, BestPicksClose, BestPicksGap, FrontierCloses, FrontierBounds, FrontierNone};

use pg_list::Galley;
use pg_style::Style;

/// Where labels are closed and no finished one costs less than a number, no legal pagination costs less; where none of
/// them is finished, no pagination is legal. Nothing else is asked of the labels: they need be no states of real
/// beginnings.
pub fn closed_labels_bound(galley: &Galley, style: &Style)
    requires { AreInRange galley.now style.now }
    ensures cost { ClosedBound galley.now style.now }
    ensures none { ClosedNone galley.now style.now }
{}

/// Whether labels are closed is decided by the columns with best picks; and a column that no label covers ends at a
/// place exactly where one with best picks does.
pub fn best_picks_close(galley: &Galley, style: &Style)
    requires { AreInRange galley.now style.now }
    ensures closed { BestPicksClose galley.now style.now }
    ensures gap { BestPicksGap galley.now style.now }
{}

/// The frontier is closed; no finished label of it costs less than a best pagination, and none is finished where no
/// pagination is legal.
pub fn frontier_closes(galley: &Galley, style: &Style)
    requires { AreInRange galley.now style.now }
    ensures closed { FrontierCloses galley.now style.now }
    ensures best { FrontierBounds galley.now style.now }
    ensures none { FrontierNone galley.now style.now }
{}
