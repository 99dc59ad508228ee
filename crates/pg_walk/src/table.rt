//! The ends of the labels of a filled table, one label after another.
ghost use Rattle.std.specs.Prelude.{◌≡◌, ◌<◌, ◌≤◌, ◌^◌, Contains, OnOk, length, nat_abs, ℕ};
ghost use Rattle.pg_hops.specs.declared.state.State.{State as AState};
ghost use Rattle.pg_table.specs.Label.{Grounded};
ghost use Rattle.pg_table.specs.declared.table.Entry.{Entry as AnEntry};
ghost use Rattle.pg_walk.specs.Contexts.{IsContext, doc_of};
ghost use Rattle.pg_walk.specs.Meaning.{IsOwn};
ghost use Rattle.pg_walk.specs.Collected.{AreSmall, Collects, HasEnds};

use crate::Context;
use crate::filling::filled_from;
use crate::label::add_label;
use crate::runs::picks_of;
use pg_candidates::CandidateList;
use pg_hops::State;
use pg_table::Entry;
use std::alloc::AllocError;

// Adds the ends of each label.
fn add_labels(
    context: &Context,
    labels: &[Entry<State, u32>],
    found: &mut CandidateList,
) -> Result<(), AllocError>
    requires context { IsContext context.now }
    requires few { length context.now.galley.now.blocks ≤ 2 ^ 20 }
    requires grounded { Grounded labels.now }
    requires small { AreSmall (doc_of context.now) context.now.top labels.now }
    ensures { OnOk result (HasEnds (doc_of context.now) context.now.top labels.now labels.now found.old found.new) }
{
    let mut at = 0usize;
    'labels: while at < labels.len() {
        let picks = picks_of(context.alloc, labels, at)?;
        add_label(context, &labels[at], &picks, found)?;
        at += 1;
    }
    Ok(())
}

/// Adds the ends along the stretches of the picks at the fronts of the walk from a state, of which those with equal
/// sums at one front are one: for each label of the filled table and each pick that is loose enough at its front, the
/// ends along the stretch of the pick, behind the picks of the label.
///
/// Condition: the state is one of the walk. The one refusal is want of memory.
pub fn collect(context: &Context, start: State, found: &mut CandidateList) -> Result<(), AllocError>
    requires context { IsContext context.now }
    requires own { IsOwn (doc_of context.now) context.now.top start }
    ensures { OnOk result (Collects (doc_of context.now) context.now.top start found.old found.new) }
{
    let table = filled_from(context, start)?;
    add_labels(context, table.labels(), found)
}
