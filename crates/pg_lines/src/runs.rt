//! The ends of the lines of a label's run.
ghost use Rattle.std.specs.Prelude.{◌≡◌, ◌<◌, IfOk, Some, ℕ, length, slice_get};
ghost use Rattle.pg_table.specs.Label.{Grounded, RunOf};
ghost use Rattle.pg_table.specs.declared.table.Entry.{Entry as AnEntry};

use pg_table::Entry;
use std::alloc::{AllocError, Global};

// The move of a label.
fn move_of<T>(labels: &[Entry<T, u32>], at: usize) -> Option<u32>
    requires { at < length labels.now }
    ensures { (e : AnEntry T ℕ) → slice_get labels.now at ≡ Some e → result ≡ e.by }
{
    labels[at].by
}

// The place of the label that a label continues.
fn parent_of<T>(labels: &[Entry<T, u32>], at: usize) -> usize
    requires { at < length labels.now }
    ensures { (e : AnEntry T ℕ) → slice_get labels.now at ≡ Some e → result ≡ e.parent }
{
    labels[at].parent
}

/// The moves of the run of a label, from the last to the first.
pub fn moves_back<T>(
    alloc: Global,
    labels: &[Entry<T, u32>],
    index: usize,
) -> Result<Vec<u32>, AllocError>
    requires within { index < length labels.now }
    requires grounded { Grounded labels.now }
    ensures { IfOk result (λ way. (e : AnEntry T ℕ) → slice_get labels.now index ≡ Some e →
        RunOf labels.now e way.items) }
{
    let mut way = Vec::new(alloc);
    let mut at = index;
    'back: while let Some(place) = move_of(labels, at) {
        way.push(place)?;
        at = parent_of(labels, at);
    }
    Ok(way)
}
