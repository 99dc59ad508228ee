//! The steps to the ends of a layout.
ghost use Rattle.std.specs.Prelude.{◌≡◌, ◌≤◌, ◌^◌, ◌++◌, ◌∷◌, [], ◌==◌, if◌then◌else◌, Some, nat_abs, pos, slice_get, ◌+ℤ◌, IfOk, OnOk};
ghost use Rattle.std.specs.List.{AllByRecursion};
ghost use Rattle.std.specs.Option.{option_map_or};
ghost use Rattle.pg_candidates.specs.RoomEnds.{picks_at};
ghost use Rattle.pg_rules.specs.Cost.{run_demerits as run_demerits_of};
ghost use Rattle.pg_rules.specs.Follow.{fills_page as fills_page_of, keeps_run, other_side as other_side_of};
ghost use Rattle.pg_rules.specs.IsState.{IsState};
ghost use Rattle.pg_layouts.specs.Layouts.{move_of};
ghost use Rattle.pg_list.specs.Flat.{is_same_place};
ghost use Rattle.law_moves.specs.Steps.{fitness_cost as fitness_cost_of, kept_fitness as kept_fitness_of};
ghost use Rattle.pg_style.specs.Ranges.{max_columns};
ghost use Rattle.pg_small.specs.Parts.{whole};
ghost use Rattle.pg_moves.specs.Columns.{IsBehindIt, IsLaid, MayEnd, doc_at, move_at, steps_to};
ghost use Rattle.pg_moves.specs.Outdone.{AreSpared};
ghost use Rattle.pg_moves.specs.Stepping.{page_price as page_price_of, state_behind as state_behind_of};
ghost use Rattle.pg_moves.specs.Thinned.{Adds};

use crate::behind::{Behind, first_behind};
use crate::column::TextColumn;
use pg_candidates::RoomEnd;
use pg_list::Place;
use pg_plan::{Ages, Side, State};
use pg_rooms::Laid;
use pg_small::{SmallMove, SmallState, StateParts};
use pg_sources::Sources;
use pg_states::{PageMarks, Settled};
use pg_style::{Run, Style};
use pg_table::{Step, StepList, Wants};
use std::alloc::AllocError;

/// The fitness that the next column is compared with.
pub(crate) fn kept_fitness(style: &Style, fitness: u8) -> Option<u8>
    ensures { result ≡ kept_fitness_of style.now fitness }
{
    if style.version == 1 {
        None
    } else {
        Some(fitness)
    }
}

// What a column of this fitness pays behind one of another.
fn fitness_cost(style: &Style, last: Option<u8>, fitness: u8) -> u32
    ensures { pos result ≡ fitness_cost_of style.now last fitness }
{
    match last {
        Some(last) if last.abs_diff(fitness) > 1 => style.fitness,
        _ => 0,
    }
}

// What a page pays for its run.
fn demerits_of(runs: &[Run], run: u8) -> u32
    ensures { pos result ≡ option_map_or (λ it. pos it.demerits) (slice_get runs.now run) (pos 0) }
{
    match runs.get(run as usize) {
        Some(run) => run.demerits,
        None => 0,
    }
}

// What the page of the next column pays for its run, where it is that page's first.
fn run_price(style: &Style, state: &State, run: u8) -> u32
    ensures { pos result ≡ (if state.now.column == 1 then run_demerits_of style.now run else pos 0) }
{
    if state.column == 1 {
        demerits_of(style.runs.as_slice(), run)
    } else {
        0
    }
}

// Whether the next column is its page's last.
fn fills_page(style: &Style, state: &State) -> bool
    ensures { result ≡ fills_page_of style.now state.now }
{
    state.column == style.columns
}

// The side of the next page.
fn other_side(side: Side) -> Side
    ensures { result ≡ other_side_of side }
{
    match side {
        Side::L => Side::R,
        Side::R => Side::L,
        Side::S => Side::S,
    }
}

// The run that the next page must have.
fn kept_run(side: Side, run: u8) -> Option<u8>
    ensures { result ≡ keeps_run side run }
{
    match side {
        Side::L => Some(run),
        _ => None,
    }
}

/// The parts of the state behind a column.
pub fn parts_behind<'a>(
    style: &Style,
    state: &State,
    laid: &'a Laid,
    to: Place,
    fitness: Option<u8>,
    ages: &'a Ages,
) -> StateParts<'a>
    requires { state.now.column ≤ max_columns }
    ensures { whole result ≡ state_behind_of style.now state.now laid.now to fitness ages.now }
{
    let placed = &laid.after;
    if fills_page(style, state) {
        StateParts {
            place: to,
            column: 1,
            side: other_side(state.side),
            run: kept_run(state.side, laid.layout.run()),
            wide: None,
            fitness,
            placed,
            ages,
        }
    } else {
        StateParts {
            place: to,
            column: state.column + 1,
            side: state.side,
            run: Some(laid.layout.run()),
            wide: laid.wide,
            fitness,
            placed,
            ages,
        }
    }
}

// The picks of an end's candidate.
fn picks_to<'a>(column: &TextColumn<'a>, end: &RoomEnd) -> &'a [u32]
    ensures { result.now ≡ picks_at column.now.near.now.picks end.now.at }
{
    match column.near.picks_of(end.at) {
        Some(picks) => picks.as_slice(),
        None => &[],
    }
}

// The column of text to an end, by the picks of its candidate.
fn move_to(column: &TextColumn<'_>, end: &RoomEnd) -> Result<SmallMove, AllocError>
    ensures { IfOk result (λ it. it ≡ move_at column.now end.now) }
{
    SmallMove::of(
        column.sources.alloc,
        &column.laid.layout,
        column.state.place,
        end.to,
        picks_to(column, end),
    )
}

/// What a column pays for its page's run and for its floats.
pub fn page_price(style: &Style, state: &State, laid: &Laid, price: u128) -> i128
    requires { price ≤ 2 ^ 51 }
    ensures value { result ≡ page_price_of style.now state.now laid.now price }
    ensures size { nat_abs result ≤ 2 ^ 52 }
{
    i128::from(run_price(style, state, laid.layout.run())) + price as i128
}

/// What the text of a column costs.
pub(crate) fn text_price(end: &RoomEnd) -> i128
    ensures value { result ≡ end.now.cost.demerits +ℤ end.now.pick_demerits }
    ensures size { nat_abs result ≤ 2 ^ 65 }
{
    i128::from(end.cost.demerits) + i128::from(end.pick_demerits)
}

/// What a column of this fitness pays behind one of another.
pub(crate) fn fitness_price(style: &Style, last: Option<u8>, fitness: u8) -> i128
    ensures value { result ≡ fitness_cost_of style.now last fitness }
    ensures size { nat_abs result ≤ 2 ^ 32 }
{
    i128::from(fitness_cost(style, last, fitness))
}

// Whether an end is where the state is.
fn ends_here(state: &State, end: &RoomEnd) -> bool
    ensures { result ≡ is_same_place state.now.place end.now.to }
{
    let from = state.place;
    let to = end.to;
    from.block == to.block && from.variant == to.variant && from.index == to.index
}

// Adds the step to an end, behind which there is this state, at this cost. Few steps that are asked about are made, and
// the picks are asked for here alone: were this made part of the walk over the ends, each of them would pay for its
// locals.
#[cold]
#[inline(never)]
fn push_step(
    column: &TextColumn<'_>,
    end: &RoomEnd,
    next: &SmallState,
    cost: i128,
    steps: &mut StepList<SmallState, SmallMove>,
) -> Result<(), AllocError>
    ensures { OnOk result (steps.new ≡ steps.old ++ record {
      to = next.now;
      by = move_at column.now end.now;
      cost = cost;
    } ∷ []) }
{
    let step = Step {
        to: next.copy(column.sources.alloc)?,
        by: move_to(column, end)?,
        cost,
    };
    steps.push(step)?;
    Ok(())
}

// Adds the step to an end before which the floats of a layout are called and no float is left too old, if it is wanted.
fn add_end<W: Wants<State = SmallState, Marks = PageMarks>>(
    column: &TextColumn<'_>,
    end: &RoomEnd,
    settled: &Settled,
    behind: &mut Behind<'_>,
    wants: &W,
    steps: &mut StepList<SmallState, SmallMove>,
) -> Result<(), AllocError>
    requires laid { IsLaid column.now }
    requires behind { IsBehindIt column.now settled.now behind.old }
    requires spared { AreSpared (W.spares wants.now) behind.old }
    ensures behind { OnOk result (IsBehindIt column.now settled.now behind.new) }
    ensures spared { OnOk result (AreSpared (W.spares wants.now) behind.new) }
    ensures added { OnOk result (MayEnd column.now settled.now end.now →
        Adds (W.spares wants.now) steps.old (steps_to column.now (end.now ∷ [])) steps.new) }
{
    let style = column.sources.style;
    if ends_here(column.state, end) {
        return Ok(());
    }
    let cost = behind.cost_to(style, column.state, end);
    behind.end_at(style, end);
    let rank = behind.rank(column.laid.placed);
    if !wants.wants(&behind.state, rank, cost) {
        return Ok(());
    }
    push_step(column, end, &behind.state, cost, steps)?;
    Ok(())
}

/// Adds the steps that are wanted to ends before which the floats of a layout are called and no float is left too old.
pub fn add_ends<W: Wants<State = SmallState, Marks = PageMarks>>(
    column: &TextColumn<'_>,
    ends: &[RoomEnd],
    settled: &Settled,
    wants: &W,
    steps: &mut StepList<SmallState, SmallMove>,
) -> Result<(), AllocError>
    requires own { IsState (doc_at column.now) column.now.state.now }
    requires laid { IsLaid column.now }
    requires price { settled.now.price ≤ 2 ^ 51 }
    ensures { OnOk result (AllByRecursion (MayEnd column.now settled.now) ends.now →
        Adds (W.spares wants.now) steps.old (steps_to column.now ends.now) steps.new) }
{
    let style = column.sources.style;
    let state = column.state;
    let mut behind = first_behind(column.sources, state, column.laid, settled)?;
    behind.ask(wants);
    let mut rest = behind.skip_outdone(style, state, ends);
    'ends: while let [end, after @ ..] = rest {
        add_end(column, end, settled, &mut behind, wants, steps)?;
        rest = behind.skip_outdone(style, state, after);
    }
    Ok(())
}
