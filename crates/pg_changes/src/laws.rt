//! Each law is the contract of a function that does nothing. Its premise is what the types of a galley and of a style
//! keep.
ghost use Rattle.pg_rules.specs.Ranges.{AreInRange};
ghost use Rattle.pg_changes.specs.Changes.{GreatestTexts, LeastCounts, LeastLoosenesses, LeastTolerances};
ghost use Rattle.pg_changes.specs.declared.number.Number.TheVariants.{TopCount, BottomCount, ColumnCount};

use pg_list::Galley;
use pg_style::Style;

/// A tolerance, a looseness, a height of text and counts of floats, but of those across a page, that are told as least are
/// the least of all: nothing is legal under a value that changes the style less.
pub fn least_are_least(galley: &Galley, style: &Style)
    requires { AreInRange galley.now style.now }
    ensures tolerance { LeastTolerances galley.now style.now }
    ensures looseness { LeastLoosenesses galley.now style.now }
    ensures text { GreatestTexts galley.now style.now }
    ensures top { LeastCounts TopCount galley.now style.now }
    ensures bottom { LeastCounts BottomCount galley.now style.now }
    ensures column { LeastCounts ColumnCount galley.now style.now }
{}
