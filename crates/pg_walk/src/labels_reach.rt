//! How far the picks of the labels of a filled table go.
ghost use Rattle.std.specs.Prelude.{◌≡◌, ◌+◌, IfOk, length, ℤ};
ghost use Rattle.pg_rules.specs.Legal.{document};
ghost use Rattle.pg_style.specs.Values.{StyleValue};
ghost use Rattle.law_walk.specs.Reached.{greatest_from};
ghost use Rattle.law_walk.specs.Walk.{variants_at as variants_at_of};
ghost use Rattle.pg_walk.specs.Contexts.{IsContext, doc_of};
ghost use Rattle.pg_walk.specs.Meaning.{IsOwn, greatest_behind, reach_by, state_of};
ghost use Rattle.pg_walk.specs.Furthest.{AreTold, GoesTo, IsFurthest};

use crate::filling::filled_from;
use crate::{Context, variants_at};
use pg_hops::State;
use pg_list::Galley;
use pg_table::Entry;
use std::alloc::AllocError;

// The greatest of a block and of those along the stretches of the picks at a label's front, which its reach tells.
fn reach_of_label(galley: &Galley, label: &Entry<State, u32>, least: u32) -> u32
    ensures { (style : StyleValue) (top : ℤ) →
        label.now.reach ≡ greatest_behind (document galley.now style) top (state_of label.now.state) + 1 →
        result ≡ greatest_from (reach_by (document galley.now style) top (state_of label.now.state)) least 0
        (length (variants_at_of galley.now.blocks label.now.state.block)) }
{
    if variants_at(galley, label.state.block).is_empty() {
        return least;
    }
    least.max(label.reach.saturating_sub(1))
}

// The greatest of a block and of those along the stretches of the picks of each label.
fn reach_of_labels(galley: &Galley, labels: &[Entry<State, u32>], least: u32) -> u32
    ensures { (style : StyleValue) (top : ℤ) → AreTold (document galley.now style) top labels.now →
        IsFurthest (document galley.now style) top labels.now least result }
{
    let mut greatest = least;
    let mut index = 0usize;
    'labels: while index < labels.len() {
        greatest = reach_of_label(galley, &labels[index], greatest);
        index += 1;
    }
    greatest
}

/// The greatest of a block and of those along the stretches of all picks at the fronts of the walk from a state, of
/// which those with equal sums at one front are one.
///
/// Condition: the state is one of the walk. The one refusal is want of memory.
pub fn furthest(context: &Context, start: State, least: u32) -> Result<u32, AllocError>
    requires context { IsContext context.now }
    requires own { IsOwn (doc_of context.now) context.now.top start }
    ensures { IfOk result (GoesTo (doc_of context.now) context.now.top start least) }
{
    let table = filled_from(context, start)?;
    Ok(reach_of_labels(context.galley, table.labels(), least))
}
