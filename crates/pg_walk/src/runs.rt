//! The picks of a label's run.
ghost use Rattle.std.specs.Prelude.{◌≡◌, ◌<◌, IfOk, Some, List, ℕ, length, reverse, slice_get};
ghost use Rattle.pg_hops.specs.declared.state.State.{State as AState};
ghost use Rattle.pg_table.specs.Label.{Grounded, RunOf};
ghost use Rattle.pg_table.specs.declared.table.Entry.{Entry as AnEntry};

use pg_hops::State;
use pg_plan::Picks;
use pg_table::Entry;
use std::alloc::{AllocError, Global};

// The move of a label.
fn pick_of(labels: &[Entry<State, u32>], at: usize) -> Option<u32>
    requires { at < length labels.now }
    ensures { (e : AnEntry AState ℕ) → slice_get labels.now at ≡ Some e → result ≡ e.by }
{
    labels[at].by
}

// The place of the label that a label continues.
fn parent_of(labels: &[Entry<State, u32>], at: usize) -> usize
    requires { at < length labels.now }
    ensures { (e : AnEntry AState ℕ) → slice_get labels.now at ≡ Some e → result ≡ e.parent }
{
    labels[at].parent
}

// The picks of the run of a label, from the last to the first.
fn picks_back(
    alloc: Global,
    labels: &[Entry<State, u32>],
    index: usize,
) -> Result<Vec<u32>, AllocError>
    requires within { index < length labels.now }
    requires grounded { Grounded labels.now }
    ensures { IfOk result (λ way. (e : AnEntry AState ℕ) → slice_get labels.now index ≡ Some e →
        RunOf labels.now e way.items) }
{
    let mut way = Vec::new(alloc);
    let mut at = index;
    'back: while let Some(pick) = pick_of(labels, at) {
        way.push(pick)?;
        at = parent_of(labels, at);
    }
    Ok(way)
}

/// The picks of the run of a label, from the first to the last.
pub fn picks_of(
    alloc: Global,
    labels: &[Entry<State, u32>],
    index: usize,
) -> Result<Picks, AllocError>
    requires within { index < length labels.now }
    requires grounded { Grounded labels.now }
    ensures { IfOk result (λ picks. (e : AnEntry AState ℕ) → slice_get labels.now index ≡ Some e →
        RunOf labels.now e (reverse picks)) }
{
    let mut way = picks_back(alloc, labels, index)?;
    let mut picks = Picks::new(alloc);
    'forth: while let Some(pick) = way.pop() {
        picks.push(pick)?;
    }
    Ok(picks)
}
