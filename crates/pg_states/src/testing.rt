//! The test of a state, field by field.
ghost use Rattle.std.specs.Prelude.{◌≡◌, ◌↔◌, IsTrue, ◌&&◌, ◌||◌, ◌==◌, if◌then◌else◌, true, not, nat_le, nat_lt, int_le, int_lt, is_some, length, pos, ◌^◌};
ghost use Rattle.std.specs.Option.{option_map_or};
ghost use Rattle.pg_list.specs.Flat.{end_of, is_same_place};
ghost use Rattle.pg_plan.specs.declared.states.Side.TheVariants.{R};
ghost use Rattle.pg_rules.specs.IsState.{IsState, has_side as has_side_of, not_first, not_some};
ghost use Rattle.pg_rules.specs.NoWorse.{is_same_side};
ghost use Rattle.law_moves.specs.StateTest.{has_column as has_column_of, has_fields as has_fields_of, has_floats as has_floats_of, has_place as has_place_of, has_run_field as has_run_field_of, is_state as is_state_of};
ghost use Rattle.pg_sources.specs.Document.{doc_of};
ghost use Rattle.pg_states.specs.Parts.{has_ages as has_ages_of, has_page as has_page_of, has_rest as has_rest_of};

use crate::ages::{are_young, count_all_waiting};
use crate::called::calls_all;
use law_moves::states_are_tested;
use pg_list::{Galley, Place, items_around};
use pg_plan::{Side, State};
use pg_sources::Sources;
use pg_style::{First, MAX_COLUMNS, Style};

// No wide area is as high, in scaled points.
const WIDE_LIMIT: i64 = 1 << 33;

fn is_at_end(galley: &Galley, place: Place) -> bool
    ensures { result ≡ is_same_place place (end_of galley.now.blocks) }
{
    place.block as usize == galley.blocks().len() && place.variant == 0 && place.index == 0
}

// Whether a front of a choice is written with variant 0.
fn has_front(place: Place) -> bool
    ensures { result ≡ (not (place.index == 0) || (place.variant == 0)) }
{
    place.index != 0 || place.variant == 0
}

// Whether an item stands there, or it is the end.
fn has_place(galley: &Galley, place: Place) -> bool
    ensures { result ≡ has_place_of galley.now.blocks place }
{
    let within = (place.index as usize) < items_around(galley.blocks().as_slice(), place).len();
    (is_at_end(galley, place) || within) && has_front(place)
}

// Whether a page may have the next column.
fn has_column(sources: &Sources<'_>, state: &State) -> bool
    ensures { result ≡ has_column_of (doc_of sources.now) state.now }
{
    let style = sources.style;
    let column = state.column;
    1 <= column && (column <= style.columns && column <= MAX_COLUMNS)
}

// Whether pages have the side, where the first page has this one.
fn has_side(style: &Style, side: Side) -> bool
    ensures { result ≡ has_side_of style.now.first side }
{
    match style.first {
        First::Single => side == Side::S,
        First::Left | First::Right => side != Side::S,
    }
}

// Whether the style has the run.
fn has_known_run(style: &Style, run: Option<u8>) -> bool
    ensures { result ≡ option_map_or (λ run. nat_lt run (length style.now.runs)) run true }
{
    match run {
        None => true,
        Some(run) => (run as usize) < style.runs.as_slice().len(),
    }
}

// Whether there is a run exactly where one is due; the first column of a right page may have one.
fn has_due_run(state: &State) -> bool
    ensures { result ≡ (if state.now.column == 1 then (is_same_side state.now.side R || not_some state.now.run)
        else is_some state.now.run) }
{
    if state.column == 1 {
        state.side == Side::R || state.run.is_none()
    } else {
        state.run.is_some()
    }
}

fn has_run(sources: &Sources<'_>, state: &State) -> bool
    ensures { result ≡ has_run_field_of (doc_of sources.now) state.now }
{
    has_known_run(sources.style, state.run) && has_due_run(state)
}

// Whether a wide area belongs to a page that has begun, and has a height that there is.
fn has_wide(column: u8, wide: Option<i64>) -> bool
    ensures { result ≡ option_map_or (λ z. not_first column && (int_le (pos 0) z && int_lt z (pos (2 ^ 33)))) wide true }
{
    match wide {
        None => true,
        Some(height) => column != 1 && (0 <= height && height < WIDE_LIMIT),
    }
}

// Whether a fitness is one of version 2.
fn has_fitness(style: &Style, fitness: Option<u8>) -> bool
    ensures { result ≡ option_map_or (λ f. not_first style.now.version && nat_le f 3) fitness true }
{
    match fitness {
        None => true,
        Some(fitness) => style.version != 1 && fitness <= 3,
    }
}

fn has_fields(sources: &Sources<'_>, state: &State) -> bool
    ensures { result ≡ has_fields_of (doc_of sources.now) state.now }
{
    has_wide(state.column, state.wide) && has_fitness(sources.style, state.fitness)
}

// Whether the ages are those of the floats that wait.
fn has_ages(sources: &Sources<'_>, state: &State) -> bool
    ensures { result ≡ has_ages_of (doc_of sources.now) state.now }
{
    state.ages.as_slice().len() == count_all_waiting(sources, state) && are_young(sources, state)
}

// Whether the placed floats are called, and the ages are those of the floats that wait.
fn has_floats(sources: &Sources<'_>, state: &State) -> bool
    ensures { result ≡ has_floats_of (doc_of sources.now) state.now }
{
    let placed = state.placed.as_slice();
    placed.len() == sources.slots()
        && (calls_all(sources, state.place, placed) && has_ages(sources, state))
}

// Whether the wide area, the fitness and the floats are those of a state.
fn has_rest(sources: &Sources<'_>, state: &State) -> bool
    ensures { result ≡ has_rest_of (doc_of sources.now) state.now }
{
    has_fields(sources, state) && has_floats(sources, state)
}

// Whether the page and the rest are those of a state.
fn has_page(sources: &Sources<'_>, state: &State) -> bool
    ensures { result ≡ has_page_of (doc_of sources.now) state.now }
{
    has_side(sources.style, state.side) && (has_run(sources, state) && has_rest(sources, state))
}

// Whether each field is one that a state has.
fn passes_test(sources: &Sources<'_>, state: &State) -> bool
    ensures { result ≡ is_state_of (doc_of sources.now) state.now }
{
    has_place(sources.galley, state.place)
        && (has_column(sources, state) && has_page(sources, state))
}

/// Whether a value is the state of a beginning of a pagination, field by field. No memory is taken.
pub fn is_state(sources: &Sources<'_>, state: &State) -> bool
    ensures { IsTrue result ↔ IsState (doc_of sources.now) state.now }
{
    states_are_tested(sources.galley, sources.style);
    passes_test(sources, state)
}
