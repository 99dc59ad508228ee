//! The laws, each the contract of a function that does nothing. Their premise, where they have one, is what the types of a
//! galley and of a style keep.
ghost use Rattle.pg_list.specs.GalleyValue.{GalleyValue};
ghost use Rattle.pg_rules.specs.Ranges.{AreInRange};
ghost use Rattle.pg_style.specs.Values.{StyleValue};
ghost use Rattle.law_course.specs.MarkLaws.{BestIsOne, FrontierIsOne, LegalColumnsFit, MarksAreFlat};

use pg_list::Galley;
use pg_style::Style;

/// Each column of a legal pagination fits its galley: what `heads` and `references` of pg_marks ask for.
pub fn legal_columns_fit(galley: &Galley, style: &Style)
    requires { AreInRange galley.now style.now }
    ensures { LegalColumnsFit galley.now style.now }
{}

/// The pages of a legal pagination hold each carry of the flat list of its picks once, in order. So the uses are those
/// of the flat list, the last page's bottom mark is the last mark of all, and a reference has no page exactly where no
/// picked item is a label of its name.
pub fn marks_are_those_of_the_flat_list(galley: &Galley, style: &Style)
    requires { AreInRange galley.now style.now }
    ensures { MarksAreFlat galley.now style.now }
{}

/// At most one pagination is best. So whatever is told of a best pagination of a galley is told of the pages that are
/// written for it.
pub fn best_pagination_is_one(galley: &Galley, style: &Style)
    ensures { BestIsOne galley.now style.now }
{}

/// The frontier of a galley under a style is one list of labels.
pub fn frontier_is_one()
    ensures { (galley : GalleyValue) (style : StyleValue) → FrontierIsOne galley style }
{}
