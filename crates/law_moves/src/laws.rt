//! Each law is the contract of a function that does nothing. Their premises are what the types of a galley and of a
//! style keep.
ghost use Rattle.pg_rules.specs.Ranges.{AreInRange};
ghost use Rattle.law_moves.specs.Laws.{ListedAreMoves, ReachIsCeiling, StatesAreTested};

use pg_list::Galley;
use pg_style::Style;

/// The listed steps are the moves of a state, each once. Of the ceilings of counts one is what is called below the
/// state's reach.
pub fn listed_steps_are_moves(galley: &Galley, style: &Style)
    requires { AreInRange galley.now style.now }
    ensures moves { ListedAreMoves galley.now style.now }
    ensures ceiling { ReachIsCeiling galley.now style.now }
{}

/// The test says of each value whether it is a state.
pub fn states_are_tested(galley: &Galley, style: &Style)
    ensures { StatesAreTested galley.now style.now }
{}
