//! Each law is the contract of a function that does nothing. Its premise is what the type of blocks
//! keeps.
ghost use Rattle.std.specs.List.{AllByRecursion};
ghost use Rattle.pg_list.specs.Shapes.{IsBlock};
ghost use Rattle.law_places.specs.PlaceLaws.{LeadsGoOn, PlacesBehindHaveMore, CalloutsAreAmongAll};

use pg_list::Galley;

/// Picks that lead from a place to another lead to the same place or to one behind it, and each item
/// passed is one more that lies before it.
pub fn picks_lead_on(galley: &Galley)
    requires { AllByRecursion IsBlock galley.now.blocks }
    ensures { LeadsGoOn galley.now.blocks }
{}

/// More items lie before a place behind another one, and no fewer callouts; and before no place
/// there are more callouts than in all.
pub fn places_behind_have_more(galley: &Galley)
    requires { AllByRecursion IsBlock galley.now.blocks }
    ensures more { PlacesBehindHaveMore galley.now.blocks }
    ensures among_all { CalloutsAreAmongAll galley.now.blocks }
{}
