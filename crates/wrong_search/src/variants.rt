//! The variants of a choice that a column picks.
ghost use Rattle.std.specs.Prelude.{◌≡◌, ◌+◌, IfOk};
ghost use Rattle.pg_rules.specs.Legal.{document};
ghost use Rattle.pg_table.specs.Space.{AreMoves};
ghost use Rattle.pg_walk.specs.Meaning.{space_meaning};

use pg_hops::State;
use pg_table::{Opened, Space, Steps};
use pg_walk::WalkSpace;
use std::alloc::AllocError;
use std::sync::ledger::Ledger;

/// The picks at a front.
pub fn expand<L: Ledger>(
    space: &WalkSpace<'_>,
    state: &State,
    steps: &mut Steps<L>,
) -> Result<Opened<State, u32>, AllocError>
    requires { (space_meaning (document space.now.galley.now space.now.style.now) space.now.top space.now.start).Own
        state.now }
    ensures moves { IfOk result (λ o. AreMoves (space_meaning (document space.now.galley.now space.now.style.now)
        space.now.top space.now.start) state.now o.steps) }
    ensures reach { IfOk result (λ o. o.reach ≡ (space_meaning (document space.now.galley.now space.now.style.now)
        space.now.top space.now.start).reach state.now) }
    ensures counted { steps.new ≡ steps.old + 1 }
{
    space.expand(state, steps)
}
