//! States, and what is asked of them.
ghost use Rattle.std.specs.Prelude.{◌≡◌, ◌↔◌, IfOk, IsTrue};
ghost use Rattle.pg_rules.specs.IsState.{IsState};
ghost use Rattle.pg_rules.specs.NoWorse.{is_no_worse, key};
ghost use Rattle.pg_rules.specs.States.{is_done as is_done_of};
ghost use Rattle.pg_sources.specs.Document.{before_of, counts_of, doc_of};
ghost use Rattle.pg_states.specs.Settling.{known_of};

use pg_list::Place;
use pg_plan::{PageKey, State};
use pg_small::SmallState;
use pg_sources::{Before, PlaceCounts, Sources};
use pg_space::PageSpace;
use pg_states::Known;
use std::alloc::{AllocError, Global};

/// What states have in common that are compared.
pub fn key_of(alloc: Global, state: &SmallState) -> Result<PageKey, AllocError>
    ensures { IfOk result (λ it. it ≡ key state.now) }
{
    pg_states::key_of(alloc, state)
}

/// Whether a state is no worse than another one.
pub fn no_worse(a: &SmallState, b: &SmallState) -> bool
    ensures { result ≡ is_no_worse a.now b.now }
{
    pg_states::no_worse(a, b)
}

/// Whether nothing is left to do.
pub fn is_done(sources: &Sources<'_>, state: &SmallState) -> bool
    requires { IsState (doc_of sources.now) state.now }
    ensures { result ≡ is_done_of (doc_of sources.now) state.now }
{
    pg_states::is_done(sources, state)
}

/// Whether a value is a state of the galley.
pub fn is_state(space: &PageSpace<'_>, state: &State) -> bool
    ensures { IsTrue result ↔ IsState (doc_of space.now.sources) state.now }
{
    space.is_state(state)
}

/// How many floats are called before a state, how many of these wait, and whether a text may begin there.
pub fn known(
    sources: &Sources<'_>,
    state: &State,
    counts: &PlaceCounts,
) -> Result<Known, AllocError>
    requires { counts.now ≡ counts_of (doc_of sources.now) state.now.place }
    ensures { IfOk result (λ it. it ≡ known_of (doc_of sources.now) state.now) }
{
    pg_states::known(sources, state, counts)
}

/// How many floats are called before a place, and before the last barrier in front of it.
pub fn before(sources: &Sources<'_>, place: Place) -> Result<Before, AllocError>
    ensures { IfOk result (λ it. it ≡ before_of (doc_of sources.now) place) }
{
    sources.before(place)
}
