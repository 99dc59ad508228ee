//! The ages of a state: one for each float that waits, within the table of its class.
ghost use Rattle.std.specs.Prelude.{◌≡◌, ◌≤◌, ◌<◌, ◌-◌, ◌^◌, ◌*◌, nat_lt, length};
ghost use Rattle.std.specs.List.{list_all};
ghost use Rattle.pg_rules.specs.Floats.{called, distance_table, entry as entry_of, total_count};
ghost use Rattle.law_moves.specs.Ages.{waits_of};
ghost use Rattle.law_moves.specs.StateTest.{young_by};
ghost use Rattle.pg_sources.specs.Document.{doc_of};
ghost use Rattle.pg_states.specs.Parts.{waits_in};

use crate::{behind, front};
use pg_floats::{entry, table_of};
use pg_plan::State;
use pg_sources::Sources;

// How many floats of a slot are called before a state's place and not placed.
fn count_waiting(sources: &Sources<'_>, state: &State, slot: usize) -> usize
    ensures value { result ≡ waits_in (doc_of sources.now) state.now slot }
    ensures few { result < 2 ^ 16 }
{
    let called = sources.called_at(state.place, slot);
    called.saturating_sub(entry(state.placed.as_slice(), slot)) as usize
}

/// How many floats of all classes wait.
pub fn count_all_waiting(sources: &Sources<'_>, state: &State) -> usize
    ensures { result ≡ total_count (waits_of (doc_of sources.now) state.now) }
{
    let slots = sources.slots();
    let mut count = 0;
    for slot in 0..slots {
        count += count_waiting(sources, state, slot);
    }
    count
}

// Whether each age is below a limit.
fn are_below(limit: usize, ages: &[u8]) -> bool
    ensures { result ≡ list_all (λ age. nat_lt age limit) ages.now }
{
    ages.iter().all(|age| usize::from(*age) < limit)
}

// Whether each age is within the table of a slot.
fn are_within(sources: &Sources<'_>, slot: usize, ages: &[u8]) -> bool
    ensures { result ≡ list_all (λ age. nat_lt age (length (distance_table sources.now.style.now slot))) ages.now }
{
    are_below(table_of(sources.style, slot).len(), ages)
}

/// Whether the ages are within the tables of their classes, where each class has as many as wait.
pub fn are_young(sources: &Sources<'_>, state: &State) -> bool
    ensures { result ≡ young_by (λ slot. length (distance_table sources.now.style.now slot)) 0
        (waits_of (doc_of sources.now) state.now) state.now.ages }
{
    let mut rest = state.ages.as_slice();
    let mut slot = 0;
    let mut left = sources.slots();
    'slots: while left > 0 {
        let count = count_waiting(sources, state, slot);
        if !are_within(sources, slot, front(rest, count)) {
            return false;
        }
        rest = behind(rest, count);
        slot += 1;
        left -= 1;
    }
    true
}
