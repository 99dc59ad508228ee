//! Columns, one after another.
ghost use Rattle.std.specs.Prelude.{◌≡◌, ◌≤◌, ◌<◌, ◌+◌, ◌^◌, List, [], ◌∷◌, length, reverse, true, IfOk, OnOk};
ghost use Rattle.pg_plan.specs.declared.pages.PageMove.{PageMove as AMove};
ghost use Rattle.pg_column.specs.Fits.{does_fit_from};
ghost use Rattle.pg_floats.specs.AreFloats.{AreFloats};
ghost use Rattle.pg_judge.specs.Bases.{IsBasis, doc_of};
ghost use Rattle.pg_judge.specs.Progress.{IsKept, IsProgress};
ghost use Rattle.pg_rules.specs.Legal.{document};
ghost use Rattle.law_columns.specs.Stands.{Stand};
ghost use Rattle.pg_parts.specs.Priced.{ArePriced};

use crate::priced::{PlacedFloat, PricedColumn};
use crate::pricing::price_of_next;
use pg_floats::{FloatList, entry, table_of};
use pg_judge::{Basis, Counted, NextColumn, Progress, pages_waited, start};
use pg_list::{Galley, Place};
use pg_plan::PageMove;
use pg_style::Style;
use std::alloc::{AllocError, Global};

/// Columns with what they add to the cost, and the floats that they place.
#[derive(Drop)]
pub struct Pricing {
    pub columns: Vec<PricedColumn>,
    pub floats: Vec<PlacedFloat>,
}

// Keeps how long the floats of a slot waited that a column places: so many from a number on.
fn push_slot(
    basis: &Basis,
    turns: &[Place],
    slot: usize,
    first: u16,
    count: u16,
    floats: &mut Vec<PlacedFloat>,
) -> Result<(), AllocError>
    requires { IsBasis basis.now }
{
    let limit = table_of(basis.style, slot).len();
    for number in 0..count {
        let float = u32::from(first) + u32::from(number);
        let pages = pages_waited(basis, turns, slot, float, limit);
        floats.push(PlacedFloat { slot, pages })?;
    }
    Ok(())
}

// Keeps how long the floats waited that the next column places.
fn push_floats(
    alloc: Global,
    basis: &Basis,
    progress: &Progress,
    step: &PageMove,
    floats: &mut Vec<PlacedFloat>,
) -> Result<(), AllocError>
    requires { IsBasis basis.now }
{
    let slots = progress.slots;
    let placed = &progress.placed;
    let turns = progress.turns.as_slice();
    let counted = Counted::of(alloc, slots, placed, &step.wide, &step.column)?;
    for slot in 0..slots {
        let first = entry(placed.as_slice(), slot);
        let count = entry(counted.after.as_slice(), slot).saturating_sub(first);
        push_slot(basis, turns, slot, first, count, floats)?;
    }
    Ok(())
}

// Goes on behind a column, and keeps what it adds.
fn push_next(
    alloc: Global,
    basis: &Basis,
    progress: &mut Progress,
    step: &PageMove,
    columns: &mut Vec<PricedColumn>,
) -> Result<(), AllocError>
    requires list { IsBasis basis.now }
    requires kept { IsKept basis.now.style.now progress.old }
    requires number { progress.old.number < 2 ^ 31 }
    requires fits { does_fit_from basis.now.galley.now.blocks step.now.column.from step.now.column.picks
        step.now.column.to ≡ true }
    ensures kept { OnOk result (IsKept basis.now.style.now progress.new) }
    ensures number { OnOk result (progress.new.number ≡ progress.old.number + 1) }
    ensures progress { OnOk result ((ms : List AMove) → IsProgress (doc_of basis.now) ms progress.old →
        IsProgress (doc_of basis.now) (step.now ∷ ms) progress.new) }
    ensures priced { OnOk result ((ms : List AMove) → IsProgress (doc_of basis.now) ms progress.old →
        Stand (doc_of basis.now) (step.now ∷ ms) → ArePriced (doc_of basis.now) ms (reverse columns.old.items) →
        ArePriced (doc_of basis.now) (step.now ∷ ms) (reverse columns.new.items)) }
{
    let priced = price_of_next(alloc, basis.galley, basis.style, basis.list, progress, step)?;
    let next = NextColumn {
        column: &step.column,
        run: step.run,
        wide: &step.wide,
    };
    progress.judge(alloc, basis, &next)?;
    columns.push(priced)?;
    Ok(())
}

/// What each column of a pagination adds to its cost, from the first to the last, and how long the floats waited.
///
/// Conditions: each column may stand behind those before it, and there are fewer than 2^31.
pub fn price_columns(
    alloc: Global,
    galley: &Galley,
    style: &Style,
    list: &FloatList,
    moves: &[PageMove],
) -> Result<Pricing, AllocError>
    requires floats { AreFloats galley.now.blocks style.now list.now }
    requires stand { Stand (document galley.now style.now) (reverse moves.now) }
    requires few { length moves.now < 2 ^ 31 }
    ensures { IfOk result (λ pricing.
        ArePriced (document galley.now style.now) (reverse moves.now) (reverse pricing.columns.items)) }
{
    list.stays_few();
    let mut progress = start(alloc, style);
    let mut columns = Vec::new(alloc);
    let mut floats = Vec::new(alloc);
    let basis = Basis {
        galley,
        style,
        list,
    };
    for step in moves {
        push_floats(alloc, &basis, &progress, step, &mut floats)?;
        push_next(alloc, &basis, &mut progress, step, &mut columns)?;
    }
    Ok(Pricing { columns, floats })
}
