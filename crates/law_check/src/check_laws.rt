//! Each law is the contract of a function that does nothing. Its premise is what the types of a galley and of a style
//! keep.
ghost use Rattle.pg_list.specs.GalleyValue.{GalleyValue};
ghost use Rattle.pg_rules.specs.Ranges.{AreInRange};
ghost use Rattle.pg_style.specs.Values.{StyleValue};
ghost use Rattle.law_check.specs.CheckLaws.{PassedTestsProve, BestShownPasses, NoneShownPasses, FaultsFail, FirstFaultIsOne, BestPicksPass, BestPicksFault};

use pg_list::Galley;
use pg_style::Style;

/// Where an output passes all tests, the pagination that it shows is legal, has the shown cost and the page text that
/// stands there, and no legal pagination costs less; or no pagination is legal, where that is shown.
pub fn passed_tests_prove(galley: &Galley, style: &Style)
    requires { AreInRange galley.now style.now }
    ensures { PassedTestsProve galley.now style.now }
{}

/// A best pagination with its cost and its page text, or that none is legal where none is, passes all tests with the
/// labels of the frontier.
pub fn frontier_passes(galley: &Galley, style: &Style)
    requires { AreInRange galley.now style.now }
    ensures best { BestShownPasses galley.now style.now }
    ensures none { NoneShownPasses galley.now style.now }
{}

/// Where a test is the first that fails, not all pass.
pub fn faults_fail(galley: &Galley, style: &Style)
    ensures { FaultsFail galley.now style.now }
{}

/// Of the faults of an output text one at most is the first, with its values: what a check answers is determined.
pub fn first_fault_is_one()
    ensures { (galley : GalleyValue) (style : StyleValue) → FirstFaultIsOne galley style }
{}

/// Whether each column that may follow a label leads to what a label covers, and where the first that does not ends, is
/// decided by the columns with best picks.
pub fn best_picks_decide(galley: &Galley, style: &Style)
    requires { AreInRange galley.now style.now }
    ensures pass { BestPicksPass galley.now style.now }
    ensures fault { BestPicksFault galley.now style.now }
{}
