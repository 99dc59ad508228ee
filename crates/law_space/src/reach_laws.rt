//! Each law is the contract of a function that does nothing. Its premises are what the types of a galley
//! and of a style keep.
ghost use Rattle.std.specs.List.{AllByRecursion};
ghost use Rattle.pg_list.specs.Shapes.{IsBlock};
ghost use Rattle.pg_style.specs.Ranges.{IsStyle};
ghost use Rattle.pg_rules.specs.Legal.{document};
ghost use Rattle.law_space.specs.ReachLaws.{ColumnsStayBelow, IsTheReach};

use pg_list::Galley;
use pg_style::Style;

/// The number is the reach of each place, and the only one.
pub fn reach_is_the_greatest(galley: &Galley, style: &Style)
    requires { AllByRecursion IsBlock galley.now.blocks }
    ensures { IsTheReach (document galley.now style.now) }
{}

/// A column that may follow a state ends below the reach of the state's place.
pub fn columns_stay_below(galley: &Galley, style: &Style)
    requires blocks { AllByRecursion IsBlock galley.now.blocks }
    requires style { IsStyle style.now }
    ensures { ColumnsStayBelow (document galley.now style.now) }
{}
