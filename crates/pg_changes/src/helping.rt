//! What would help.
ghost use Rattle.std.specs.Prelude.{IfOk, IfSome};
ghost use Rattle.pg_changes.specs.Changes.{AreHelping, HelpTogether, NoneLegal};

use crate::change::Change;
use crate::pairs::{Pair, pair_of};
use crate::tries::{SEARCHES, push_all};
use pg_list::Galley;
use pg_style::Style;
use pg_table::Steps;
use std::alloc::{AllocError, Global};
use std::sync::ledger::Ledger;

/// Changes of one number each of which helps; or two that help together, if none does alone.
#[derive(Drop)]
pub struct Helping {
    pub changes: Vec<Change>,
    pub together: Option<Pair>,
}

// Two changes that help together, where none does alone.
fn together<L: Ledger>(
    alloc: Global,
    galley: &Galley,
    style: &Style,
    changes: &[Change],
    left: u32,
    steps: &mut Steps<L>,
) -> Result<Option<Pair>, AllocError>
    ensures { IfOk result (λ told. IfSome told (HelpTogether galley.now style.now)) }
{
    if changes.is_empty() {
        pair_of(alloc, galley, style, left, steps)
    } else {
        Ok(None)
    }
}

/// The changes of one number of a style under which a galley has a legal pagination: for each number the least change, or
/// one that was tried; or two changes together, where none helps alone. At most 64 searches are made for it.
///
/// Condition: nothing is legal under the style.
pub fn helping_of<L: Ledger>(
    alloc: Global,
    galley: &Galley,
    style: &Style,
    steps: &mut Steps<L>,
) -> Result<Helping, AllocError>
    requires { NoneLegal galley.now style.now }
    ensures { IfOk result (AreHelping galley.now style.now) }
{
    let mut changes = Vec::new(alloc);
    let left = push_all(alloc, galley, style, SEARCHES, &mut changes, steps)?;
    let together = together(alloc, galley, style, &changes, left, steps)?;
    Ok(Helping { changes, together })
}
