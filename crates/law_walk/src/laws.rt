//! Each law is the contract of a function that does nothing. Their premises are what the types of a galley and of a
//! style keep.
ghost use Rattle.std.specs.Prelude.{◌≤◌, ◌^◌, length};
ghost use Rattle.std.specs.List.{AllByRecursion};
ghost use Rattle.pg_list.specs.Shapes.{IsBlock};
ghost use Rattle.pg_rules.specs.Legal.{document};
ghost use Rattle.pg_style.specs.Ranges.{IsStyle};
ghost use Rattle.law_walk.specs.Laws.{CandidatesGiveEnds, CandidatesServeRooms, FewerSuffice, LabelsSuffice, LabelsTellReach, StretchSuffices, StretchTellsReach, WalkFindsCandidates, WalkIsSpace, WalkTellsReach};

use pg_list::Galley;
use pg_style::Style;

/// Candidates that suffice for all rooms up to a greatest one give the ends in each of these rooms; and those of them
/// that cover the others suffice.
pub fn candidates_give_ends(galley: &Galley, style: &Style)
    requires blocks { AllByRecursion IsBlock galley.now.blocks }
    requires ranges { IsStyle style.now }
    ensures one { CandidatesGiveEnds (document galley.now style.now) }
    ensures fewer { FewerSuffice (document galley.now style.now) }
    ensures each { CandidatesServeRooms (document galley.now style.now) }
{}

/// The walk from a place by all picks finds candidates that suffice for all rooms up to the greatest one.
pub fn walk_finds_candidates(galley: &Galley, style: &Style)
    requires { AllByRecursion IsBlock galley.now.blocks }
    ensures { WalkFindsCandidates (document galley.now style.now) }
{}

/// States at the fronts of choices, with picks as moves, are a space; and the ends along the stretches of the labels
/// of its filled table suffice, or those along the first stretch where it is not passed or no choice is behind it.
pub fn walk_is_a_space(galley: &Galley, style: &Style)
    requires blocks { AllByRecursion IsBlock galley.now.blocks }
    requires few { length galley.now.blocks ≤ 2 ^ 20 }
    ensures space { WalkIsSpace (document galley.now style.now) }
    ensures labels { LabelsSuffice (document galley.now style.now) }
    ensures stretch { StretchSuffices (document galley.now style.now) }
{}

/// The walk over all picks in the tallest room, without notes, tells the reach of each place; so do the labels of a
/// filled table of it, or the first stretch where it is not passed or no choice is behind it.
pub fn walk_tells_reach(galley: &Galley, style: &Style)
    requires blocks { AllByRecursion IsBlock galley.now.blocks }
    requires ranges { IsStyle style.now }
    ensures walk { WalkTellsReach (document galley.now style.now) }
    ensures labels { LabelsTellReach (document galley.now style.now) }
    ensures stretch { StretchTellsReach (document galley.now style.now) }
{}
