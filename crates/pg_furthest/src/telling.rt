//! What a filled table tells.
ghost use Rattle.std.specs.Prelude.{◌<◌, IfOk, length};
ghost use Rattle.pg_floats.specs.AreFloats.{AreFloats};
ghost use Rattle.pg_rules.specs.Legal.{document};
ghost use Rattle.pg_rules.specs.Ranges.{AreInRange};
ghost use Rattle.law_space.specs.PageSpace.{page_meaning};
ghost use Rattle.pg_table.specs.Label.{IsTable};
ghost use Rattle.pg_furthest.specs.Furthest.{Begins, StandsFurthest};

use crate::last::last_of;
use crate::laws::beginnings_of_labels;
use pg_floats::FloatList;
use pg_list::Galley;
use pg_plan::Pagination;
use pg_small::{SmallMove, SmallState};
use pg_space::{PageSpace, moves_of};
use pg_style::Style;
use pg_table::Entry;
use std::alloc::{AllocError, Global};

/// The label that stands furthest.
pub fn furthest_in(galley: &Galley, style: &Style, labels: &[Entry<SmallState, SmallMove>]) -> usize
    requires range { AreInRange galley.now style.now }
    requires filled { IsTable (page_meaning (document galley.now style.now)) labels.now }
    ensures within { result < length labels.now }
    ensures furthest { StandsFurthest galley.now style.now labels.now result }
{
    beginnings_of_labels(galley, style);
    last_of(labels)
}

/// A beginning that leaves the state of a label, at its cost.
pub fn beginning_in(
    alloc: Global,
    galley: &Galley,
    style: &Style,
    floats: &FloatList,
    labels: &[Entry<SmallState, SmallMove>],
    label: usize,
) -> Result<Pagination, AllocError>
    requires range { AreInRange galley.now style.now }
    requires floats { AreFloats galley.now.blocks style.now floats.now }
    requires filled { IsTable (page_meaning (document galley.now style.now)) labels.now }
    requires within { label < length labels.now }
    ensures { IfOk result (Begins galley.now style.now labels.now label) }
{
    beginnings_of_labels(galley, style);
    let space = PageSpace::new(alloc, galley, style, floats);
    let moves = moves_of(alloc, labels, label)?;
    let plan = space.pagination_of(&moves)?;
    Ok(plan)
}
