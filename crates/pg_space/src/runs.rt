//! The run of a label.
ghost use Rattle.std.specs.Prelude.{◌≡◌, ◌<◌, ◌++◌, length, reverse, slice_get, IfOk, OnOk, Some};
ghost use Rattle.std.specs.Option.{option_copied, option_to_list};
ghost use Rattle.pg_plan.specs.declared.pages.PageMove.{PageMove as AMove};
ghost use Rattle.pg_plan.specs.declared.states.State.{State as AState};
ghost use Rattle.pg_table.specs.Label.{Grounded, RunOf};
ghost use Rattle.pg_table.specs.declared.table.Entry.{Entry as AnEntry};
ghost use Rattle.pg_space.specs.Runs.{IsWay, move_at};

use pg_plan::Moves;
use pg_small::{SmallMove, SmallState};
use pg_table::Entry;
use std::alloc::{AllocError, Global};

// The places of the labels on the way from a label back to the start, without the start.
fn way_to(
    alloc: Global,
    labels: &[Entry<SmallState, SmallMove>],
    index: usize,
) -> Result<Vec<usize>, AllocError>
    requires within { index < length labels.now }
    requires grounded { Grounded labels.now }
    ensures { IfOk result (λ way. IsWay labels.now index way.items) }
{
    let mut way = Vec::new(alloc);
    let mut at = index;
    'back: while labels[at].by.is_some() {
        way.push(at)?;
        at = labels[at].parent;
    }
    Ok(way)
}

fn move_of(labels: &[Entry<SmallState, SmallMove>], at: usize) -> Option<&SmallMove>
    ensures { option_copied result ≡ move_at labels.now at }
{
    match labels.get(at) {
        Some(label) => label.by.as_ref(),
        None => None,
    }
}

fn push_move(
    alloc: Global,
    labels: &[Entry<SmallState, SmallMove>],
    at: usize,
    moves: &mut Moves,
) -> Result<(), AllocError>
    ensures { OnOk result (moves.new ≡ moves.old ++ option_to_list (move_at labels.now at)) }
{
    if let Some(step) = move_of(labels, at) {
        moves.push(step.to_move(alloc)?)?;
    }
    Ok(())
}

/// The moves of the run of a label, from the first to the last.
pub fn moves_of(
    alloc: Global,
    labels: &[Entry<SmallState, SmallMove>],
    index: usize,
) -> Result<Moves, AllocError>
    requires within { index < length labels.now }
    requires grounded { Grounded labels.now }
    ensures { IfOk result (λ moves. (e : AnEntry AState AMove) → slice_get labels.now index ≡ Some e →
        RunOf labels.now e (reverse moves)) }
{
    let mut way = way_to(alloc, labels, index)?;
    let mut moves = Moves::new(alloc);
    'forth: while let Some(at) = way.pop() {
        push_move(alloc, labels, at, &mut moves)?;
    }
    Ok(moves)
}
