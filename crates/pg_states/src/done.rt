//! Whether nothing is left to do behind a state.
ghost use Rattle.std.specs.Prelude.{◌≡◌};
ghost use Rattle.pg_rules.specs.IsState.{IsState};
ghost use Rattle.pg_rules.specs.Legal.{has_dealt_all as has_dealt_all_of, is_spent_at as is_spent_at_of};
ghost use Rattle.pg_rules.specs.States.{is_done as is_done_of};
ghost use Rattle.pg_sources.specs.Document.{doc_of};

use pg_floats::{has_dealt_all, is_spent_at};
use pg_small::SmallState;
use pg_sources::Sources;

// Whether each class has placed all its floats.
fn has_placed_all(sources: &Sources<'_>, placed: &[u16]) -> bool
    ensures { result ≡ has_dealt_all_of (doc_of sources.now) placed.now }
{
    has_dealt_all(
        sources.galley,
        sources.style,
        sources.floats,
        sources.slots(),
        placed,
    )
}

// Whether only discardable items stand from a state's place on.
fn is_spent(sources: &Sources<'_>, state: &SmallState) -> bool
    requires { IsState (doc_of sources.now) state.now }
    ensures { result ≡ is_spent_at_of (doc_of sources.now) state.now.place }
{
    is_spent_at(sources.galley, state.place())
}

/// Whether nothing but what vanishes stands behind a state's place, and all floats are placed. No memory is taken.
pub fn is_done(sources: &Sources<'_>, state: &SmallState) -> bool
    requires { IsState (doc_of sources.now) state.now }
    ensures { result ≡ is_done_of (doc_of sources.now) state.now }
{
    is_spent(sources, state) && has_placed_all(sources, state.placed())
}
