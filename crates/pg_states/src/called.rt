//! Whether floats are called before a place.
ghost use Rattle.std.specs.Prelude.{◌≡◌};
ghost use Rattle.law_moves.specs.Listed.{calls_all as calls_all_of};
ghost use Rattle.pg_sources.specs.Document.{doc_of};
ghost use Rattle.pg_states.specs.Called.{is_slot_called};

use pg_floats::entry;
use pg_list::Place;
use pg_sources::Sources;

// Whether so many floats of a class are called before a place.
fn calls(sources: &Sources<'_>, to: Place, counts: &[u16], slot: usize) -> bool
    ensures { result ≡ is_slot_called (doc_of sources.now) to counts.now slot }
{
    entry(counts, slot) <= sources.called_at(to, slot)
}

/// Whether so many floats of each class are called before a place. No memory is taken.
pub fn calls_all(sources: &Sources<'_>, to: Place, counts: &[u16]) -> bool
    ensures { result ≡ calls_all_of (doc_of sources.now) to counts.now }
{
    let slots = sources.slots();
    for slot in 0..slots {
        if !calls(sources, to, counts, slot) {
            return false;
        }
    }
    true
}
