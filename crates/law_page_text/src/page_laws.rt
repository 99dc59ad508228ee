//! Each law is the contract of a function that does nothing. Their premises are what the types of a galley and of a
//! style keep.
ghost use Rattle.pg_rules.specs.Ranges.{AreInRange};
ghost use Rattle.law_page_text.specs.PageLaws.{LegalFillGoals, LegalShowEachOnce};

use pg_list::Galley;
use pg_style::Style;

/// The bodies that a legal pagination shows in its areas of notes are those of all notes, class by class in order, and
/// the bodies in its areas of floats are those of all floats.
pub fn pages_have_each_once(galley: &Galley, style: &Style)
    requires { AreInRange galley.now style.now }
    ensures { LegalShowEachOnce galley.now style.now }
{}

/// In a legal pagination the widths that glue is set to, with all else of a column's text, add up to its goal exactly
/// where the text is higher than the goal, and where it is lower, not at a spent end, and its glue stretches.
pub fn glue_fills_goals(galley: &Galley, style: &Style)
    requires { AreInRange galley.now style.now }
    ensures { LegalFillGoals galley.now style.now }
{}
