//! The law is the contract of a function that does nothing. Its premise is what the type of blocks
//! keeps.
ghost use Rattle.std.specs.List.{AllByRecursion};
ghost use Rattle.pg_list.specs.Shapes.{IsBlock};
ghost use Rattle.law_places.specs.CutLaws.{LeadsCut};

use pg_list::Galley;

/// Picks that lead from a place to another cut the items from the first place on in two, whatever
/// picks come behind them: those passed, and those from the other place on.
pub fn picks_cut_the_flat_list(galley: &Galley)
    requires { AllByRecursion IsBlock galley.now.blocks }
    ensures { LeadsCut galley.now.blocks }
{}
