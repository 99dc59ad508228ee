//! The ends along the picks of one label.
ghost use Rattle.std.specs.Prelude.{◌≡◌, ◌<◌, ◌++◌, ◌+ℤ◌, ◌^◌, ◌≤◌, ℤ, pos, length, nat_abs, OnOk};
ghost use Rattle.pg_walk.specs.Contexts.{IsContext, doc_of};
ghost use Rattle.pg_walk.specs.Meaning.{IsOwn, state_of};
ghost use Rattle.pg_walk.specs.Collected.{label_ends, pick_ends};

use crate::{Context, is_loose_enough, variants_at};
use pg_candidates::{CandidateList, Start, walk_on};
use pg_hops::{Cursor, State};
use pg_list::Variant;
use pg_plan::Picks;
use pg_table::Entry;
use std::alloc::AllocError;

// The demerits of the picks with one more.
fn price(cost: i128, variant: &Variant) -> i64
    requires { nat_abs cost < 2 ^ 62 }
    ensures { result ≡ cost +ℤ pos variant.now.demerits }
{
    (cost + i128::from(variant.demerits)) as i64
}

// Adds the ends along the stretch of a pick, where its variant is loose enough.
fn add_pick(
    context: &Context,
    label: &Entry<State, u32>,
    picks: &Picks,
    pick: u32,
    variant: &Variant,
    found: &mut CandidateList,
) -> Result<(), AllocError>
    requires context { IsContext context.now }
    requires few { length context.now.galley.now.blocks ≤ 2 ^ 20 }
    requires own { IsOwn (doc_of context.now) context.now.top label.now.state }
    requires small { nat_abs label.now.cost < 2 ^ 62 }
    ensures { OnOk result (found.new ≡ found.old ++ pick_ends (doc_of context.now) context.now.top
        (state_of label.now.state) label.now.cost picks.now pick variant.now) }
{
    if !is_loose_enough(context.style, variant) {
        return Ok(());
    }
    let mut own = picks.copy()?;
    own.push(pick)?;
    let ahead = Cursor::picked(context.galley, label.state.block, pick);
    let demerits = price(label.cost, variant);
    let start = Start {
        at: ahead,
        passed: label.state.passed,
        picks: &own,
        demerits,
    };
    walk_on(
        context.galley,
        context.style,
        context.index,
        context.top,
        &start,
        found,
    )?;
    Ok(())
}

/// Adds the ends along the stretches of all picks at a label's front, behind the picks of its run.
pub fn add_label(
    context: &Context,
    label: &Entry<State, u32>,
    picks: &Picks,
    found: &mut CandidateList,
) -> Result<(), AllocError>
    requires context { IsContext context.now }
    requires few { length context.now.galley.now.blocks ≤ 2 ^ 20 }
    requires own { IsOwn (doc_of context.now) context.now.top label.now.state }
    requires small { nat_abs label.now.cost < 2 ^ 62 }
    ensures { OnOk result (found.new ≡ found.old
        ++ label_ends (doc_of context.now) context.now.top label.now picks.now) }
{
    let mut left = variants_at(context.galley, label.state.block);
    let mut pick = 0u32;
    'picks: while let [variant, after @ ..] = left {
        add_pick(context, label, picks, pick, variant, found)?;
        left = after;
        pick += 1;
    }
    Ok(())
}
