//! The table of the walk.
ghost use Rattle.std.specs.Prelude.{◌≡◌, ◌≤◌, ◌^◌, IfOk, length};
ghost use Rattle.pg_rules.specs.Legal.{document};
ghost use Rattle.pg_table.specs.Label.{IsTable};
ghost use Rattle.pg_walk.specs.Contexts.{IsContext, doc_of};
ghost use Rattle.pg_walk.specs.Meaning.{IsOwn, space_meaning};
ghost use Rattle.pg_walk.specs.Collected.{AreSmall};

use crate::{Context, Key, WalkSpace};
use pg_hops::State;
use pg_table::{Steps, Table};
use std::alloc::{AllocError, Global};
use std::marker::Brand;
use std::sync::ledger::{Blank, Ledger};

// A filled table of the walk, with a counter of its own.
fn filled<L: Ledger>(
    alloc: Global,
    space: &WalkSpace<'_>,
    blank: Blank,
) -> Result<Table<State, u32, Key>, AllocError>
    requires name { blank.name ≡ L.name }
    requires parts { blank.parts ≡ L.parts }
    requires one { blank.parts ≡ 1 }
    ensures { IfOk result (IsTable (space_meaning (document space.now.galley.now space.now.style.now) space.now.top
        space.now.start)) }
{
    let mut steps = Steps::<L>::new(blank);
    let mut table = Table::new(alloc);
    table.fill(space, &mut steps)?;
    Ok(table)
}

/// The filled table of the walk from a state.
///
/// Condition: the state is one of the walk. The one refusal is want of memory.
pub fn filled_from(context: &Context, start: State) -> Result<Table<State, u32, Key>, AllocError>
    requires context { IsContext context.now }
    requires own { IsOwn (doc_of context.now) context.now.top start }
    ensures table { IfOk result (IsTable (space_meaning (doc_of context.now) context.now.top start)) }
    ensures small { IfOk result (AreSmall (doc_of context.now) context.now.top) }
    ensures few { length context.now.galley.now.blocks ≤ 2 ^ 20 }
{
    let style = context.style;
    style.stays_in_range();
    let _ = context.galley.blocks().as_slice();
    let space = WalkSpace::new(
        context.alloc,
        context.galley,
        style,
        context.index,
        context.top,
        start,
    );
    filled::<Brand>(context.alloc, &space, Blank::new(1))
}
