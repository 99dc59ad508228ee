//! The key of a state.
ghost use Rattle.std.specs.Prelude.{◌≡◌, IfOk};

use pg_plan::PageKey;
use pg_small::SmallState;
use std::alloc::{AllocError, Global};

/// All of a state but its ages.
pub fn key_of(state: &SmallState, alloc: Global) -> Result<PageKey, AllocError>
    ensures { IfOk result (λ it. it ≡ record {
      place = state.now.place;
      column = state.now.column;
      side = state.now.side;
      run = state.now.run;
      wide = state.now.wide;
      fitness = state.now.fitness;
      placed = state.now.placed;
    }) }
{
    state.key(alloc)
}
