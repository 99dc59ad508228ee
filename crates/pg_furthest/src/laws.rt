//! Each law is the contract of a function that does nothing. Its premise is what the types of a galley and of a style
//! keep.
ghost use Rattle.std.specs.Prelude.{◌≡◌, ◌<◌, ℕ, List, Some, length, slice_get};
ghost use Rattle.pg_furthest.specs.Furthest.{Begins, IsLastAmong, NoneLeadsOn, StandsFurthest};
ghost use Rattle.pg_furthest.specs.Pages.{AreColumns};
ghost use Rattle.law_columns.specs.Pages.{plan_of};
ghost use Rattle.law_space.specs.PageSpace.{page_meaning};
ghost use Rattle.pg_plan.specs.declared.pages.PageMove.{PageMove};
ghost use Rattle.pg_plan.specs.declared.states.State.{State};
ghost use Rattle.pg_rules.specs.Legal.{document};
ghost use Rattle.pg_rules.specs.Ranges.{AreInRange};
ghost use Rattle.pg_table.specs.Label.{IsTable, RunOf};
ghost use Rattle.pg_table.specs.declared.table.Entry.{Entry};

use pg_list::Galley;
use pg_style::Style;

/// From a beginning that ends at the furthest place no column leads behind it.
pub fn none_leads_on(galley: &Galley, style: &Style)
    requires { AreInRange galley.now style.now }
    ensures { NoneLeadsOn galley.now style.now }
{}

/// A filled table has a label; one of its labels behind which none stands is furthest; and the columns of a label's run
/// are a beginning of it.
pub fn beginnings_of_labels(galley: &Galley, style: &Style)
    requires { AreInRange galley.now style.now }
    ensures some { (labels : List (Entry State PageMove)) →
        IsTable (page_meaning (document galley.now style.now)) labels → 0 < length labels }
    ensures furthest { (labels : List (Entry State PageMove)) (at : ℕ) →
        IsTable (page_meaning (document galley.now style.now)) labels → IsLastAmong labels (length labels) at →
        StandsFurthest galley.now style.now labels at }
    ensures begins { (labels : List (Entry State PageMove)) (at : ℕ) (moves : List PageMove) →
        IsTable (page_meaning (document galley.now style.now)) labels →
        ((label : Entry State PageMove) → slice_get labels at ≡ Some label → RunOf labels label moves) →
        Begins galley.now style.now labels at (plan_of style.now moves) }
{}

/// The columns of a label's run fill the pages of their pagination, each stands behind those before it, and they are
/// few.
pub fn columns_of_labels(galley: &Galley, style: &Style)
    requires { AreInRange galley.now style.now }
    ensures { (labels : List (Entry State PageMove)) (at : ℕ) (label : Entry State PageMove) (moves : List PageMove) →
        IsTable (page_meaning (document galley.now style.now)) labels → slice_get labels at ≡ Some label →
        RunOf labels label moves → AreColumns galley.now style.now moves }
{}
