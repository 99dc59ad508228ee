//! The state before all columns.
ghost use Rattle.std.specs.Prelude.{◌≡◌, [], IfOk};
ghost use Rattle.pg_rules.specs.History.{side_of};
ghost use Rattle.pg_rules.specs.States.{state_at};
ghost use Rattle.pg_sources.specs.Document.{doc_of};

use pg_list::Place;
use pg_plan::{Ages, Counts, Side, State};
use pg_small::SmallState;
use pg_sources::Sources;
use pg_style::{First, Style};
use std::alloc::AllocError;

// The side of the first page.
fn first_side(style: &Style) -> Side
    ensures { result ≡ side_of style.now.first 1 }
{
    match style.first {
        First::Left => Side::L,
        First::Right => Side::R,
        First::Single => Side::S,
    }
}

// The state before all columns, in its own type.
fn first_state(sources: &Sources<'_>) -> State
    ensures { result ≡ state_at (doc_of sources.now) [] }
{
    State {
        place: Place {
            block: 0,
            variant: 0,
            index: 0,
        },
        column: 1,
        side: first_side(sources.style),
        run: None,
        wide: None,
        fitness: None,
        placed: Counts::zeros(sources.alloc, sources.slots()),
        ages: Ages::new(sources.alloc),
    }
}

/// The state before all columns: the first place, with no float placed and none that waits.
pub fn start(sources: &Sources<'_>) -> Result<SmallState, AllocError>
    ensures { IfOk result (λ it. it ≡ state_at (doc_of sources.now) []) }
{
    SmallState::of(sources.alloc, first_state(sources))
}
