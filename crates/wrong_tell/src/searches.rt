//! How far beginnings come.
ghost use Rattle.std.specs.Prelude.{◌<◌, length, IfOk};
ghost use Rattle.pg_furthest.specs.Furthest.{Begins, StandsAt, StandsFurthest};
ghost use Rattle.pg_furthest.specs.Pages.{TellsBestPages};

use pg_furthest::{BestPages, Search, Standing};
use pg_plan::Pagination;
use std::alloc::AllocError;

/// The best pagination with its cost and what each of its columns adds to it, or nothing where none is legal.
pub fn pages(search: &Search) -> Result<Option<BestPages>, AllocError>
    ensures { IfOk result (TellsBestPages search.now.galley search.now.style) }
{
    search.pages()
}

/// The label that stands furthest.
pub fn furthest(search: &Search) -> usize
    ensures within { result < length search.now.labels }
    ensures furthest { StandsFurthest search.now.galley search.now.style search.now.labels result }
{
    search.furthest()
}

/// A beginning that leaves the state of a label, at its cost.
pub fn beginning(search: &Search, label: usize) -> Result<Pagination, AllocError>
    requires { label < length search.now.labels }
    ensures { IfOk result (Begins search.now.galley search.now.style search.now.labels label) }
{
    search.beginning(label)
}

/// The furthest place of a beginning, and the page and column that would begin there.
pub fn standing(search: &Search) -> Result<Standing, AllocError>
    ensures { IfOk result (StandsAt search.now.galley search.now.style) }
{
    search.standing()
}
