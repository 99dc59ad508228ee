//! The floats that wait before a state.
ghost use Rattle.std.specs.Prelude.{◌≡◌, IfOk};
ghost use Rattle.law_moves.specs.Listed.{may_begin as may_begin_of};
ghost use Rattle.pg_sources.specs.Document.{counts_of, doc_of};
ghost use Rattle.pg_states.specs.Settling.{known_of};

use crate::counts::{covers_either, excess_counts};
use crate::settling::Known;
use pg_plan::State;
use pg_sources::{PlaceCounts, Sources};
use std::alloc::AllocError;

// Whether the floats are placed that are called before the state, and before a barrier behind which a text from there would
// begin.
fn may_begin(sources: &Sources<'_>, state: &State, counts: &PlaceCounts) -> bool
    requires { counts.now ≡ counts_of (doc_of sources.now) state.now.place }
    ensures { result ≡ may_begin_of (doc_of sources.now) state.now }
{
    covers_either(
        sources.slots(),
        state.placed.as_slice(),
        counts.called.as_slice(),
        counts.flushed.as_slice(),
    )
}

/// How many floats of each class are called before a state, how many of these wait, and whether a text may begin there, from
/// the counts at its place.
pub fn known(
    sources: &Sources<'_>,
    state: &State,
    counts: &PlaceCounts,
) -> Result<Known, AllocError>
    requires { counts.now ≡ counts_of (doc_of sources.now) state.now.place }
    ensures { IfOk result (λ it. it ≡ known_of (doc_of sources.now) state.now) }
{
    let waits = excess_counts(
        sources.alloc,
        sources.slots(),
        counts.called.as_slice(),
        state.placed.as_slice(),
    );
    Ok(Known {
        called: counts.called.copy()?,
        waits,
        may_begin: may_begin(sources, state, counts),
    })
}
