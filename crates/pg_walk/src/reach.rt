//! How far columns from a place may go.
ghost use Rattle.std.specs.Prelude.{◌+◌, ◌+ℤ◌, ◌<◌, ◌^◌, nat_abs, ◌≡◌, [], IfOk, IfSome, option_map};
ghost use Rattle.pg_hops.specs.Index.{AreHops};
ghost use Rattle.pg_rules.specs.IsState.{IsPlace};
ghost use Rattle.pg_rules.specs.Legal.{document};
ghost use Rattle.pg_rules.specs.Reach.{IsReach, greatest_extra as greatest_extra_of};
ghost use Rattle.law_walk.specs.Reached.{quiet, tallest as tallest_of};
ghost use Rattle.pg_walk.specs.Contexts.{IsContext, doc_of};
ghost use Rattle.pg_walk.specs.Blocks.{IsAlone, IsBegun, IsGreatestFrom, state};
ghost use Rattle.pg_walk.specs.Fronts.{IsReachBehind};

use crate::give::greatest_shrink;
use crate::{Context, furthest, variants_at};
use law_walk::laws::walk_tells_reach;
use pg_hops::{BreakIndex, Cursor, Passed, State, pass_on};
use pg_list::{Galley, Place};
use pg_scaled::{plus, wide};
use pg_style::{Classes, Run, Runs, Style};
use std::alloc::{AllocError, Global};

// The same runs.
fn copy_runs(alloc: Global, runs: &Runs) -> Runs
    ensures { result ≡ runs.now }
{
    let [first, after @ ..] = runs.as_slice() else {
        unreachable!()
    };
    let mut copy = Runs::new(alloc, *first);
    let mut left = after;
    'runs: while let [run, behind @ ..] = left {
        copy.push(*run);
        left = behind;
    }
    copy
}

// The style without classes, under which each variant may be picked. No memory is taken.
fn quiet_style(alloc: Global, style: &Style) -> Style
    ensures { result ≡ record style.now { classes = []; max_looseness = 100 } }
{
    style.stays_in_range();
    Style {
        version: style.version,
        columns: style.columns,
        first: style.first,
        height: style.height,
        topskip: style.topskip,
        maxdepth: style.maxdepth,
        min_text: style.min_text,
        tolerance: style.tolerance,
        line: style.line,
        max_looseness: 100,
        runs: copy_runs(alloc, &style.runs),
        top: style.top,
        bottom: style.bottom,
        wide: style.wide,
        float_column: style.float_column,
        classes: Classes::new(alloc),
        fitness: style.fitness,
        ragged: style.ragged,
    }
}

// The most that a run adds.
fn greatest_extra(runs: &[Run]) -> i32
    ensures { result ≡ greatest_extra_of runs.now }
{
    let [first, after @ ..] = runs else {
        return 0;
    };
    let mut greatest = first.extra;
    let mut left = after;
    'runs: while let [run, behind @ ..] = left {
        if greatest < run.extra {
            greatest = run.extra;
        }
        left = behind;
    }
    greatest
}

/// The room of the tallest run.
pub(crate) fn tallest_run(style: &Style) -> i64
    ensures value { result ≡ style.now.height +ℤ greatest_extra_of style.now.runs }
    ensures size { nat_abs result < 2 ^ 40 }
{
    plus(
        wide(style.height),
        wide(greatest_extra(style.runs.as_slice())),
    )
}

// The room of the tallest run, where all gaps around a text are shrunk.
pub(crate) fn tallest(style: &Style) -> i64
    ensures { result ≡ tallest_of style.now }
{
    plus(tallest_run(style), greatest_shrink(style))
}

// Before a front with what was passed.
fn state_at(block: u32, passed: Option<Passed>) -> Option<State>
    ensures { result ≡ option_map (state block) passed }
{
    match passed {
        None => None,
        Some(passed) => Some(State { block, passed }),
    }
}

// The greatest block that columns of text from a place come to, whatever they pick, up to breaks that no room up to the
// greatest one lets pass.
fn greatest_block(context: &Context, from: Place) -> Result<u32, AllocError>
    requires context { IsContext context.now }
    requires place { IsPlace context.now.galley.now.blocks from }
    ensures { IfOk result (IsGreatestFrom (doc_of context.now) context.now.top from) }
{
    let style = context.style;
    let _ = context.galley.blocks().as_slice();
    let ahead = Cursor::first(context.galley, from);
    let passing = pass_on(
        context.galley,
        style,
        context.index,
        context.top,
        ahead,
        Passed::nothing(style),
    );
    let first = passing.greatest;
    let Some(start) = state_at(passing.front, passing.passed) else {
        return Ok(first);
    };
    if variants_at(context.galley, start.block).is_empty() {
        return Ok(first);
    }
    furthest(context, start, first)
}

// One more than the greatest block that columns without notes come to in the tallest room.
fn one_more(galley: &Galley, style: &Style, from: Place, block: u32) -> u32
    requires place { IsPlace galley.now.blocks from }
    requires greatest { IsGreatestFrom (quiet (document galley.now style.now)) (tallest_of style.now) from block }
    ensures reach { IsReach (document galley.now style.now) from result }
    ensures value { result ≡ block + 1 }
{
    style.stays_in_range();
    let _ = galley.blocks().as_slice();
    walk_tells_reach(galley, style);
    block + 1
}

// One more than the greatest block of a place that a column of text from a place may reach.
fn reach_by(
    alloc: Global,
    galley: &Galley,
    style: &Style,
    index: &BreakIndex,
    from: Place,
) -> Result<u32, AllocError>
    requires hops { AreHops galley.now.blocks style.now.maxdepth index.now }
    requires place { IsPlace galley.now.blocks from }
    ensures { IfOk result (IsReach (document galley.now style.now) from) }
{
    let quiet = quiet_style(alloc, style);
    let context = Context {
        alloc,
        galley,
        style: &quiet,
        index,
        top: tallest(style),
    };
    let block = greatest_block(&context, from)?;
    Ok(one_more(galley, style, from, block))
}

/// One more than the greatest block of a place that a column of text from a place may reach: in the tallest room,
/// whatever is picked, without notes. One straight walk up to the first choice; where there are choices, the table over
/// their fronts.
///
/// Condition: the place is the galley's. The one refusal is want of memory.
pub fn reach_of(
    alloc: Global,
    galley: &Galley,
    style: &Style,
    from: Place,
) -> Result<u32, AllocError>
    requires { IsPlace galley.now.blocks from }
    ensures { IfOk result (IsReach (document galley.now style.now) from) }
{
    let index = BreakIndex::empty(alloc);
    reach_by(alloc, galley, style, &index, from)
}

// The state behind the first stretch, where some room up to the greatest one lets pass.
fn state_past(
    galley: &Galley,
    style: &Style,
    index: &BreakIndex,
    top: i64,
    from: Place,
) -> Option<State>
    requires hops { AreHops galley.now.blocks style.now.maxdepth index.now }
    requires place { IsPlace galley.now.blocks from }
    ensures { IfSome result (IsBegun (document galley.now style.now) top from) }
{
    let _ = galley.blocks().as_slice();
    let ahead = Cursor::first(galley, from);
    let passing = pass_on(galley, style, index, top, ahead, Passed::nothing(style));
    state_at(passing.front, passing.passed)
}

/// The state in which columns from a place that pass no notes come to the first front, if they do in the tallest room.
pub(crate) fn quiet_state(
    alloc: Global,
    galley: &Galley,
    style: &Style,
    index: &BreakIndex,
    from: Place,
) -> Option<State>
    requires hops { AreHops galley.now.blocks style.now.maxdepth index.now }
    requires place { IsPlace galley.now.blocks from }
    ensures { IfSome result (IsBegun (quiet (document galley.now style.now)) (tallest_of style.now) from) }
{
    let quiet = quiet_style(alloc, style);
    state_past(galley, &quiet, index, tallest(style), from)
}

/// One more than the greatest block of a place that columns from this place may reach, which come to the first front in
/// this state where they pass no notes.
///
/// Conditions: the place is the galley's and its columns come there so, and the index is of the galley and style. The one
/// refusal is want of memory.
pub fn reach_behind(
    alloc: Global,
    galley: &Galley,
    style: &Style,
    index: &BreakIndex,
    from: Place,
    start: State,
) -> Result<u32, AllocError>
    requires hops { AreHops galley.now.blocks style.now.maxdepth index.now }
    requires place { IsPlace galley.now.blocks from }
    requires start { IsBegun (quiet (document galley.now style.now)) (tallest_of style.now) from start }
    ensures { IfOk result (IsReachBehind (document galley.now style.now) start) }
{
    let quiet = quiet_style(alloc, style);
    let context = Context {
        alloc,
        galley,
        style: &quiet,
        index,
        top: tallest(style),
    };
    let front = start.block;
    let block = furthest(&context, start, front)?;
    Ok(one_more(galley, style, from, block))
}

// How far columns from a place may go, where the first stretch alone may have told the greatest block.
pub(crate) fn reach_told(
    alloc: Global,
    galley: &Galley,
    style: &Style,
    index: &BreakIndex,
    from: Place,
    told: Option<u32>,
) -> Result<u32, AllocError>
    requires hops { AreHops galley.now.blocks style.now.maxdepth index.now }
    requires place { IsPlace galley.now.blocks from }
    requires told { IfSome told (IsAlone (quiet (document galley.now style.now)) (tallest_of style.now) from) }
    ensures { IfOk result (IsReach (document galley.now style.now) from) }
{
    match told {
        Some(block) => Ok(one_more(galley, style, from, block)),
        None => reach_by(alloc, galley, style, index, from),
    }
}
