//! The number by which states are ordered.
ghost use Rattle.std.specs.Prelude.{◌≡◌, ◌<◌, ◌≤◌, ◌+◌, ◌*◌, ◌^◌, ◌==◌, if◌then◌else◌, length};
ghost use Rattle.std.specs.Option.{option_map_or};
ghost use Rattle.pg_plan.specs.declared.states.Side.TheVariants.{R};
ghost use Rattle.pg_rules.specs.Floats.{total_count};
ghost use Rattle.pg_rules.specs.IsState.{IsState};
ghost use Rattle.pg_rules.specs.NoWorse.{is_same_side};
ghost use Rattle.pg_sources.specs.Document.{doc_of};
ghost use Rattle.law_space.specs.PageSpace.{place_rank as place_rank_of, rank, side_run as side_run_of};

use law_space::ranks_fit;
use pg_floats::total;
use pg_plan::Side;
use pg_small::SmallState;
use pg_sources::Sources;

/// What the place of a state gives to its rank: block, variant and index as one number, the block first.
pub fn place_rank(state: &SmallState) -> u64
    ensures { result ≡ place_rank_of state.now.place }
{
    let at = state.place();
    (1 << 20) * (8 * u64::from(at.block) + u64::from(at.variant)) + u64::from(at.index)
}

// The run, or that there is none.
fn run_rank(run: Option<u8>) -> u64
    ensures value { result ≡ option_map_or (λ run. run + 1) run 0 }
    ensures few { result ≤ 256 }
{
    match run {
        None => 0,
        Some(run) => u64::from(run) + 1,
    }
}

// Whether a side is a right one, as a number.
fn side_rank(side: Side) -> u64
    ensures value { result ≡ (if is_same_side side R then 1 else 0) }
    ensures few { result ≤ 1 }
{
    match side {
        Side::R => 1,
        _ => 0,
    }
}

// The run and whether the side is a right one, as one number.
fn side_run(state: &SmallState) -> u64
    ensures value { result ≡ side_run_of state.now }
    ensures few { result ≤ 2 ^ 10 }
{
    2 * run_rank(state.run()) + side_rank(state.side())
}

// The first column of a page comes after the second one of the page before.
fn column_rank(state: &SmallState) -> u64
    ensures value { result ≡ (if state.now.column == 1 then 16 else 0) }
    ensures few { result ≤ 16 }
{
    if state.column() == 1 { 16 } else { 0 }
}

// How many floats are placed.
fn count_placed(sources: &Sources<'_>, state: &SmallState) -> u32
    requires { IsState (doc_of sources.now) state.now }
    ensures { result ≡ total_count state.now.placed }
{
    // hands on that the classes are few
    let _ = sources.slots();
    total(state.placed())
}

/// What a state gives to its rank but for its place, where it is told how many floats are placed: first this number,
/// then the column, and then run and side.
pub fn rest_rank(state: &SmallState, placed: u32) -> u64
    ensures { result ≡ 32 * placed + (if state.now.column == 1 then 16 else 0) + side_run_of state.now }
{
    32 * u64::from(placed) + column_rank(state) + side_run(state)
}

// By place, then by the rest.
fn joined(place: u64, rest: u64) -> u64
    requires { 2 ^ 18 * place + rest < 2 ^ 64 }
    ensures { result ≡ 2 ^ 18 * place + rest }
{
    (1 << 18) * place + rest
}

/// The number by which the space of pages orders its states. No memory is taken.
pub fn rank_of(sources: &Sources<'_>, state: &SmallState) -> u64
    requires { IsState (doc_of sources.now) state.now }
    ensures { result ≡ rank (doc_of sources.now) state.now }
{
    ranks_fit(sources.galley, sources.style);
    let placed = count_placed(sources, state);
    joined(place_rank(state), rest_rank(state, placed))
}
