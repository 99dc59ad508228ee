//! The labels of a table as a list in order.
ghost use Rattle.std.specs.Prelude.{◌≡◌, IfOk, map};
ghost use Rattle.std.specs.List.Sorted.{IsPermutation, IsSortedByKey};
ghost use Rattle.pg_plan.specs.declared.pages.PageMove.{PageMove as AMove};
ghost use Rattle.pg_plan.specs.declared.states.Label.{Label as ALabel};
ghost use Rattle.pg_plan.specs.declared.states.State.{State as AState};
ghost use Rattle.pg_rules.specs.Frontier.{state_cmp};
ghost use Rattle.law_space.specs.SpaceLaws.{label_of};
ghost use Rattle.pg_table.specs.declared.table.Entry.{Entry as AnEntry};

use crate::comparing::compare_states;
use pg_plan::{Label, LabelList};
use pg_small::{SmallMove, SmallState};
use pg_table::Entry;
use std::alloc::{AllocError, Global};

// The entries in the order of their states, borrowed.
fn in_order<'a>(
    alloc: Global,
    entries: &'a [Entry<SmallState, SmallMove>],
) -> Result<Vec<&'a Entry<SmallState, SmallMove>>, AllocError>
    ensures all { IfOk result (λ ordered. IsPermutation entries.now (map (λ entry. entry.now) ordered.items)) }
    ensures order { IfOk result (λ ordered.
        IsSortedByKey (λ (entry : AnEntry AState AMove). entry.state) state_cmp
        (map (λ entry. entry.now) ordered.items)) }
{
    let mut ordered = Vec::with_capacity(alloc, entries.len())?;
    for entry in entries {
        ordered.push(entry)?;
    }
    ordered.sort_by(|a, b| compare_states(&a.state, &b.state))?;
    Ok(ordered)
}

// The label of an entry: its state, copied, and its cost.
fn label_at(alloc: Global, entry: &Entry<SmallState, SmallMove>) -> Result<Label, AllocError>
    ensures { IfOk result (λ label. label ≡ label_of entry.now) }
{
    Ok(Label {
        state: entry.state.to_state(alloc)?,
        cost: entry.cost,
    })
}

// The labels of entries, in the same order.
fn labels_of(
    alloc: Global,
    ordered: &[&Entry<SmallState, SmallMove>],
) -> Result<LabelList, AllocError>
    ensures { IfOk result (λ labels. labels ≡ map label_of (map (λ entry. entry.now) ordered.now)) }
{
    let mut labels = LabelList::new(alloc);
    for entry in ordered {
        labels.push(label_at(alloc, entry)?)?;
    }
    Ok(labels)
}

/// The labels of a table's entries, each as often as its entry stands there, in the order of their states. Each state
/// is copied once. The only refusal is want of memory.
pub fn frontier_of(
    alloc: Global,
    entries: &[Entry<SmallState, SmallMove>],
) -> Result<LabelList, AllocError>
    ensures all { IfOk result (λ labels. IsPermutation (map label_of entries.now) labels) }
    ensures order { IfOk result (λ labels. IsSortedByKey (λ (label : ALabel). label.state) state_cmp labels) }
{
    let ordered = in_order(alloc, entries)?;
    labels_of(alloc, ordered.as_slice())
}
