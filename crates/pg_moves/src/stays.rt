//! The steps of columns without text.
ghost use Rattle.std.specs.Prelude.{◌≡◌, ◌≤◌, ◌<◌, ◌^◌, ◌++◌, ◌+ℤ◌, [], if◌then◌else◌, ◌&&◌, ◌||◌, is_some, int_le, nat_abs, nat_lt, pos, true, Contains, Some, length, IfOk, OnOk};
ghost use Rattle.std.specs.List.{flat_map};
ghost use Rattle.pg_rules.specs.Floats.{float_numbers, total_count};
ghost use Rattle.pg_rules.specs.IsState.{IsState};
ghost use Rattle.pg_layouts.specs.Layouts.{move_of};
ghost use Rattle.law_moves.specs.Listed.{listed_stay};
ghost use Rattle.pg_sources.specs.Document.{doc_of};
ghost use Rattle.pg_column.specs.Numbers.{IsRoom};
ghost use Rattle.pg_rooms.specs.Laid.{IsFloatLaid, laid_of};
ghost use Rattle.pg_states.specs.Settling.{Settles, known_of};
ghost use Rattle.pg_moves.specs.Stepping.{can_stand, fitness_behind as fitness_behind_of, stay_in, stay_price as stay_price_of};
ghost use Rattle.pg_rooms.specs.declared.laid.Laid.{Laid as ALaid};
ghost use Rattle.pg_plan.specs.declared.states.State.{State as AState};

use crate::steps::{page_price, parts_behind};
use pg_floats::count_floats;
use pg_plan::State;
use pg_rooms::Laid;
use pg_scaled::{large_plus, plus};
use pg_small::{SmallMove, SmallState};
use pg_sources::Sources;
use pg_states::{Known, Settled, settle};
use pg_style::Style;
use pg_table::{Step, StepList};
use std::alloc::{AllocError, Global};

// The column without text.
fn stay(alloc: Global, state: &State, laid: &Laid) -> Result<SmallMove, AllocError>
    ensures { IfOk result (λ it. it ≡ move_of state.now laid.now.layout state.now.place []) }
{
    SmallMove::of(alloc, &laid.layout, state.place, state.place, &[])
}

// The fitness that the column behind one without text is compared with.
fn fitness_behind(style: &Style, state: &State) -> Option<u8>
    ensures { result ≡ fitness_behind_of style.now state.now }
{
    if style.version == 1 {
        None
    } else {
        state.fitness
    }
}

// What a column pays for having no text.
fn textless_price(style: &Style) -> i128
    ensures value { result ≡ pos style.now.float_column.demerits }
    ensures size { nat_abs result ≤ 2 ^ 32 }
{
    i128::from(style.float_column.demerits)
}

// What a column without text pays.
fn stay_price(style: &Style, state: &State, laid: &Laid, price: u128) -> i128
    requires { price ≤ 2 ^ 51 }
    ensures { result ≡ stay_price_of style.now state.now laid.now price }
{
    large_plus(textless_price(style), page_price(style, state, laid, price))
}

// The gap below the last area of a column without text.
fn last_gap(style: &Style, has_floats: bool) -> i64
    ensures value { result ≡ (if has_floats then style.now.top.gap.size else style.now.wide.gap.size) }
    ensures size { nat_abs result ≤ 2 ^ 31 }
{
    if has_floats {
        i64::from(style.top.gap.size)
    } else {
        i64::from(style.wide.gap.size)
    }
}

// Whether a column without text, whose areas leave this room, has a float or a wide area and is no higher than its page.
// The gap below its last area takes no room.
fn stands(style: &Style, room: i64, wide: Option<i64>, has_floats: bool) -> bool
    requires { nat_abs room < 2 ^ 40 }
    ensures { result ≡ ((has_floats || is_some wide)
        && int_le (pos 0) (room +ℤ (if has_floats then style.now.top.gap.size else style.now.wide.gap.size))) }
{
    (has_floats || wide.is_some()) && 0 <= plus(room, last_gap(style, has_floats))
}

// Whether a layout has a float in its top area.
fn has_top(sources: &Sources<'_>, laid: &Laid) -> bool
    requires { length laid.now.layout.top ≡ length (float_numbers sources.now.style.now) }
    ensures { result ≡ nat_lt 0 (total_count laid.now.layout.top) }
{
    count_floats(sources.slots(), laid.layout.top()) > 0
}

// Whether a column without text has a float or a wide area, and is no higher than its page.
fn can_stand(sources: &Sources<'_>, laid: &Laid) -> bool
    requires size { IsRoom laid.now.room }
    requires long { length laid.now.layout.top ≡ length (float_numbers sources.now.style.now) }
    ensures { (u : AState) → IsFloatLaid (doc_of sources.now) u laid.now →
        result ≡ can_stand (doc_of sources.now) u laid.now.layout }
{
    let has_floats = has_top(sources, laid);
    stands(sources.style, laid.room.size, laid.wide, has_floats)
}

// The step of a column without text.
fn step_of(
    sources: &Sources<'_>,
    state: &State,
    laid: &Laid,
    settled: Settled,
) -> Result<Step<SmallState, SmallMove>, AllocError>
    requires own { IsState (doc_of sources.now) state.now }
    requires laid { laid.now ≡ laid_of (doc_of sources.now) state.now laid.now.layout }
    requires settled { Settles (doc_of sources.now) state.now state.now.place laid.now.after (Some settled) }
    ensures { IfOk result (λ step. step ≡ listed_stay (doc_of sources.now) state.now laid.now.layout) }
{
    let style = sources.style;
    let cost = stay_price(style, state, laid, settled.price);
    let fitness = fitness_behind(style, state);
    let next = parts_behind(style, state, laid, state.place, fitness, &settled.ages);
    Ok(Step {
        to: SmallState::of_parts(sources.alloc, &next)?,
        by: stay(sources.alloc, state, laid)?,
        cost,
    })
}

// Adds the step of a column without text that can stand, where no float is left too old.
fn add_standing(
    sources: &Sources<'_>,
    state: &State,
    laid: &Laid,
    settled: Option<Settled>,
    steps: &mut StepList<SmallState, SmallMove>,
) -> Result<(), AllocError>
    requires own { IsState (doc_of sources.now) state.now }
    requires laid { laid.now ≡ laid_of (doc_of sources.now) state.now laid.now.layout }
    requires stands { can_stand (doc_of sources.now) state.now laid.now.layout ≡ true }
    requires settled { Settles (doc_of sources.now) state.now state.now.place laid.now.after settled }
    ensures { OnOk result (steps.new ≡ steps.old ++ stay_in (doc_of sources.now) state.now laid.now) }
{
    match settled {
        None => Ok(()),
        Some(settled) => {
            steps.push(step_of(sources, state, laid, settled)?)?;
            Ok(())
        }
    }
}

// Adds the step of a column without text, where it may stay.
fn add_stay(
    sources: &Sources<'_>,
    state: &State,
    known: &Known,
    laid: &Laid,
    steps: &mut StepList<SmallState, SmallMove>,
) -> Result<(), AllocError>
    requires own { IsState (doc_of sources.now) state.now }
    requires known { known.now ≡ known_of (doc_of sources.now) state.now }
    requires laid { IsFloatLaid (doc_of sources.now) state.now laid.now }
    ensures { OnOk result (steps.new ≡ steps.old ++ stay_in (doc_of sources.now) state.now laid.now) }
{
    if !can_stand(sources, laid) {
        return Ok(());
    }
    let settled = settle(sources, state, known, known.called.as_slice(), &laid.after)?;
    add_standing(sources, state, laid, settled, steps)
}

/// Adds the steps of columns without text in these layouts.
pub fn add_stays(
    sources: &Sources<'_>,
    state: &State,
    known: &Known,
    laid: &[Laid],
    steps: &mut StepList<SmallState, SmallMove>,
) -> Result<(), AllocError>
    requires own { IsState (doc_of sources.now) state.now }
    requires known { known.now ≡ known_of (doc_of sources.now) state.now }
    requires laid { (it : ALaid) → Contains laid.now it → IsFloatLaid (doc_of sources.now) state.now it }
    ensures { OnOk result (steps.new ≡ steps.old ++ flat_map (stay_in (doc_of sources.now) state.now) laid.now) }
{
    for it in laid {
        add_stay(sources, state, known, it, steps)?;
    }
    Ok(())
}
