//! Each bound is the contract of a function that does nothing. Its premises are what the types of a
//! galley and of a style keep.
ghost use Rattle.std.specs.Prelude.{[]};
ghost use Rattle.pg_rules.specs.IsState.{IsState};
ghost use Rattle.pg_rules.specs.Legal.{document};
ghost use Rattle.pg_rules.specs.States.{state_at};
ghost use Rattle.pg_rules.specs.Ranges.{AreInRange};
ghost use Rattle.law_columns.specs.BoundLaws.{StatesLeadToStates, ColumnsCostLittle};

use pg_list::Galley;
use pg_style::Style;

/// What the empty beginning leaves is a state, and what follows a state is one.
pub fn states_lead_to_states(galley: &Galley, style: &Style)
    requires { AreInRange galley.now style.now }
    ensures start { IsState (document galley.now style.now) (state_at (document galley.now style.now) []) }
    ensures next { StatesLeadToStates galley.now style.now }
{}

/// A column costs at most 7 times 10^8 and 10^8 for each of its picks and each float that it adds.
pub fn columns_cost_little(galley: &Galley, style: &Style)
    requires { AreInRange galley.now style.now }
    ensures { ColumnsCostLittle galley.now style.now }
{}
