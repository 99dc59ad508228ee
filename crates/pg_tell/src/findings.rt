//! What is found where no pagination is legal.
ghost use Rattle.std.specs.Prelude.{IfOk};
ghost use Rattle.pg_changes.specs.Changes.{AreHelping, NoneLegal};
ghost use Rattle.pg_tell.specs.Course.{AreFindings};

use pg_alone::{Alone, HighNote};
use pg_changes::{Helping, helping_of};
use pg_furthest::{Search, Standing};
use pg_table::Steps;
use std::alloc::{AllocError, Global};
use std::sync::ledger::Ledger;

/// A float that no column can hold and a note above its limit, if there are some; changes of the style that help; and where
/// beginnings come to an end.
#[derive(Drop)]
pub struct Findings {
    pub alone: Option<Alone>,
    pub note: Option<HighNote>,
    pub helping: Helping,
    pub standing: Standing,
}

// The changes that help.
fn helping_in<L: Ledger>(
    alloc: Global,
    search: &Search,
    steps: &mut Steps<L>,
) -> Result<Helping, AllocError>
    requires { NoneLegal search.now.galley search.now.style }
    ensures { IfOk result (AreHelping search.now.galley search.now.style) }
{
    helping_of(alloc, search.galley(), search.style(), steps)
}

/// What is found of a galley under a style that has no legal pagination.
pub fn findings_of<L: Ledger>(
    alloc: Global,
    search: &Search,
    steps: &mut Steps<L>,
) -> Result<Findings, AllocError>
    requires { NoneLegal search.now.galley search.now.style }
    ensures { IfOk result (AreFindings search.now.galley search.now.style) }
{
    let standing = search.standing()?;
    let helping = helping_in(alloc, search, steps)?;
    Ok(Findings {
        alone: search.alone(),
        note: search.high_note(),
        helping,
        standing,
    })
}
