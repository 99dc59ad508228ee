//! Each law is the contract of a function that does nothing.
ghost use Rattle.law_lines.specs.ParagraphsLaws.{IsRule};
ghost use Rattle.law_lines.specs.LineLaws.{LinesReadBack, LinesShowItems, ReadsClean};

use crate::LineRule;

/// The paragraphs that a file says are within their ranges, and the bodies of their items are clean lines.
pub fn paragraphs_are_clean()
    ensures { ReadsClean }
{}

/// Each item of the galley that such paragraphs make has a body that says what the item is.
pub fn lines_show_items(rule: &LineRule)
    requires { IsRule rule.now }
    ensures { LinesShowItems rule.now }
{}

/// The text of the galley that the paragraphs of a file make reads back to that galley.
pub fn lines_read_back(rule: &LineRule)
    requires { IsRule rule.now }
    ensures { LinesReadBack rule.now }
{}
