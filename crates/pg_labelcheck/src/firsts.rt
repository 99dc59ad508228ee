//! The first label that fails a test, by its index from 0.
ghost use Rattle.std.specs.Prelude.{◌≡◌, ◌+◌, ℕ, None, Some, Contains, IfOk};
ghost use Rattle.std.specs.Bool.{Decides};
ghost use Rattle.pg_plan.specs.declared.states.Label.{Label as ALabel};
ghost use Rattle.pg_rules.specs.IsState.{IsState};
ghost use Rattle.pg_sources.specs.Document.{doc_of};
ghost use Rattle.law_check.specs.Faults.{IsFirst, IsNoState};
ghost use Rattle.law_check.specs.Tests.{AreStates, CoversStart};
ghost use Rattle.pg_labelcheck.specs.Tested.{IsFinalBelow};

use pg_cover::covers;
use pg_plan::Label;
use pg_small::SmallLabel;
use pg_space::PageSpace;
use pg_table::Space;
use std::alloc::AllocError;

// Whether the label is a state.
fn has_state(space: &PageSpace<'_>, label: &Label) -> bool
    ensures { Decides result (IsState (doc_of space.now.sources) label.now.state) }
{
    space.is_state(&label.state)
}

/// The first label that is no state.
pub(crate) fn first_no_state(space: &PageSpace<'_>, labels: &[Label]) -> Option<usize>
    ensures none { result ≡ None → AreStates (doc_of space.now.sources) labels.now }
    ensures some { (index : ℕ) → result ≡ Some index
        → IsFirst (IsNoState (doc_of space.now.sources)) labels.now (index + 1) }
{
    for index in 0..labels.len() {
        if !has_state(space, &labels[index]) {
            return Some(index);
        }
    }
    None
}

/// Whether some label covers the start at the cost 0.
pub(crate) fn covers_start(space: &PageSpace<'_>, labels: &[SmallLabel]) -> Result<bool, AllocError>
    requires { AreStates (doc_of space.now.sources) labels.now }
    ensures { IfOk result (λ r. Decides r (CoversStart (doc_of space.now.sources) labels.now)) }
{
    let start = space.start()?;
    Ok(covers(space, labels, &start, 0, 0))
}

// Whether the label is finished, at less than the cost where there is one.
fn is_final(space: &PageSpace<'_>, label: &SmallLabel, below: Option<i128>) -> bool
    requires { IsState (doc_of space.now.sources) label.now.state }
    ensures { Decides result (IsFinalBelow (doc_of space.now.sources) below label.now) }
{
    let is_done = space.is_done(&label.state);
    match below {
        None => is_done,
        Some(cost) => is_done && label.cost < cost,
    }
}

/// The first label that is finished, at less than the cost where there is one.
pub(crate) fn first_final(
    space: &PageSpace<'_>,
    labels: &[SmallLabel],
    below: Option<i128>,
) -> Option<usize>
    requires { AreStates (doc_of space.now.sources) labels.now }
    ensures none { result ≡ None → (label : ALabel) → Contains labels.now label
        → IsFinalBelow (doc_of space.now.sources) below label → ⊥ }
    ensures some { (index : ℕ) → result ≡ Some index
        → IsFirst (IsFinalBelow (doc_of space.now.sources) below) labels.now (index + 1) }
{
    for index in 0..labels.len() {
        if is_final(space, &labels[index], below) {
            return Some(index);
        }
    }
    None
}
