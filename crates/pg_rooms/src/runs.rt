//! Layouts on the pages of all runs.
ghost use Rattle.std.specs.Prelude.{◌≡◌, ◌++◌, ◌<◌, ◌^◌, ◌+ℤ◌, ◌-ℤ◌, nat_abs, IfOk, None, OnOk};
ghost use Rattle.std.specs.List.{AllByRecursion};
ghost use Rattle.pg_column.specs.Numbers.{IsRoom};
ghost use Rattle.pg_rooms.specs.Runs.{IsLow, first_run as first_run_of, full_in, laid_in, laid_in_all, laid_on};
ghost use Rattle.pg_rooms.specs.declared.laid.Laid.{Laid as ALaid};

use crate::laid::Laid;
use pg_column::TextRoom;
use pg_floats::full_height;
use pg_plan::State;
use pg_scaled::{minus, plus};
use pg_sources::Sources;
use pg_style::Style;
use std::alloc::AllocError;

/// The state on a page of the run that it must have, or else of the first one.
pub(crate) fn first_run(state: &State) -> Result<State, AllocError>
    ensures { IfOk result (λ it. it ≡ first_run_of state.now) }
{
    let mut first = state.copy()?;
    first.run = Some(state.run.unwrap_or(0));
    Ok(first)
}

// By how much a column is higher on a page of one run than of another.
fn higher(style: &Style, run: u8, other: u8) -> i64
    ensures value { result ≡ full_in style.now run -ℤ full_in style.now other }
    ensures size { nat_abs result < 2 ^ 34 }
{
    minus(full_height(style, run), full_height(style, other))
}

// What a room is that much higher.
fn raised(room: &TextRoom, more: i64) -> TextRoom
    requires room { IsLow room.now }
    requires more { nat_abs more < 2 ^ 34 }
    ensures size { result.size ≡ room.now.size +ℤ more }
    ensures give { result.give ≡ room.now.give }
    ensures small { IsRoom result }
{
    TextRoom {
        size: plus(room.size, more),
        give: room.give,
    }
}

// The same layout on a page of another run.
fn in_run(sources: &Sources<'_>, it: &Laid, run: u8) -> Result<Laid, AllocError>
    requires { IsLow it.now.room }
    ensures value { IfOk result (λ laid. laid ≡ laid_in sources.now.style.now run it.now) }
    ensures small { IfOk result (λ laid. IsRoom laid.room) }
{
    let more = higher(sources.style, run, it.layout.run());
    let room = raised(&it.room, more);
    Ok(Laid {
        layout: it.layout.in_run(sources.alloc, run)?,
        wide: it.wide,
        after: it.after.copy()?,
        placed: it.placed,
        room,
    })
}

// Adds the layouts on a page of a run.
fn push_run(
    sources: &Sources<'_>,
    first: &[Laid],
    run: u8,
    all: &mut Vec<Laid>,
) -> Result<(), AllocError>
    requires { AllByRecursion (λ (it : ALaid). IsLow it.room) first.now }
    ensures value { OnOk result (all.new.items ≡ all.old.items ++ laid_in_all sources.now.style.now first.now run) }
    ensures small { OnOk result (AllByRecursion (λ (it : ALaid). IsRoom it.room) all.old.items →
        AllByRecursion (λ (it : ALaid). IsRoom it.room) all.new.items) }
{
    for it in first {
        all.push(in_run(sources, it, run)?)?;
    }
    Ok(())
}

// The layouts on the pages of all runs.
fn all_runs(sources: &Sources<'_>, first: &[Laid]) -> Result<Vec<Laid>, AllocError>
    requires { AllByRecursion (λ (it : ALaid). IsLow it.room) first.now }
    ensures value { IfOk result (λ all. all.items ≡ laid_on sources.now.style.now None first.now) }
    ensures small { IfOk result (λ all. AllByRecursion (λ (it : ALaid). IsRoom it.room) all.items) }
{
    let style = sources.style;
    let count = style.runs.as_slice().len() as u8;
    let mut all = Vec::with_capacity(
        sources.alloc,
        first.len().saturating_mul(usize::from(count)),
    )?;
    for run in 0..count {
        push_run(sources, first, run, &mut all)?;
    }
    Ok(all)
}

/// The layouts on the pages of all runs that a page may have, by those of its first one.
pub(crate) fn on_runs(
    sources: &Sources<'_>,
    must: Option<u8>,
    first: Vec<Laid>,
) -> Result<Vec<Laid>, AllocError>
    requires { AllByRecursion (λ (it : ALaid). IsLow it.room) first.items }
    ensures value { IfOk result (λ all. all.items ≡ laid_on sources.now.style.now must first.items) }
    ensures small { IfOk result (λ all. AllByRecursion (λ (it : ALaid). IsRoom it.room) all.items) }
{
    match must {
        Some(_) => Ok(first),
        None => all_runs(sources, first.as_slice()),
    }
}
