//! Every list of counts within limits and a sum.
ghost use Rattle.std.specs.Prelude.{◌≡◌, ◌++◌, ◌-◌, ◌∷◌, [], IfOk, OnOk, map};
ghost use Rattle.std.specs.List.{flat_map};
ghost use Rattle.pg_rules.specs.Floats.{total_count};
ghost use Rattle.pg_layouts.specs.Counts.{count_lists as the_count_lists, grown, grown_by};

use crate::lists::{KeptLists, ListedCounts};
use pg_plan::Counts;
use std::alloc::{AllocError, Global};

// What a sum leaves to counts.
fn room_left(most: u8, counts: &[u16]) -> u16
    ensures { result ≡ most - total_count counts.now }
{
    let mut room = u16::from(most);
    for count in counts {
        room = room.saturating_sub(*count);
    }
    room
}

// The counts with one more behind them.
fn with_count(counts: &Counts, count: u16) -> Result<Counts, AllocError>
    ensures { IfOk result (λ longer. longer ≡ counts.now ++ count ∷ []) }
{
    let mut longer = counts.copy()?;
    longer.push(count)?;
    Ok(longer)
}

// Adds the counts with one more behind them, up to a limit and to a sum of all.
fn grow(most: u8, limit: u16, counts: &Counts, lists: &mut Vec<Counts>) -> Result<(), AllocError>
    ensures { OnOk result (lists.new.items ≡ lists.old.items ++ grown most limit counts.now) }
{
    let top = limit.min(room_left(most, counts.as_slice()));
    for count in 0..top + 1 {
        lists.push(with_count(counts, count)?)?;
    }
    Ok(())
}

// Lists of counts with one count more.
fn grow_all(
    alloc: Global,
    most: u8,
    limit: u16,
    lists: &[Counts],
) -> Result<Vec<Counts>, AllocError>
    ensures { IfOk result (λ longer. longer.items ≡ flat_map (grown most limit) lists.now) }
{
    let mut longer = Vec::new(alloc);
    for counts in lists {
        grow(most, limit, counts, &mut longer)?;
    }
    Ok(longer)
}

// The counts with one more behind them, where it may be above 0.
fn grow_one(
    alloc: Global,
    most: u8,
    limit: u16,
    counts: &Counts,
    top: u16,
) -> Result<Vec<Counts>, AllocError>
    ensures { IfOk result (λ lists. lists.items ≡ grown most limit counts.now) }
{
    let mut lists = Vec::with_capacity(alloc, usize::from(top) + 1)?;
    grow(most, limit, counts, &mut lists)?;
    Ok(lists)
}

// One list with one count more: no memory is taken where that can only be 0.
fn lengthen_one(
    alloc: Global,
    most: u8,
    limit: u16,
    mut counts: Counts,
) -> Result<ListedCounts, AllocError>
    ensures { IfOk result (λ lists. lists ≡ grown most limit counts) }
{
    let top = limit.min(room_left(most, counts.as_slice()));
    if top > 0 {
        return Ok(ListedCounts::many(grow_one(alloc, most, limit, &counts, top)?));
    }
    counts.push(0)?;
    Ok(ListedCounts::one(counts))
}

// The lists with one count more.
fn lengthen(
    alloc: Global,
    most: u8,
    limit: u16,
    lists: ListedCounts,
) -> Result<ListedCounts, AllocError>
    ensures { IfOk result (λ longer. longer ≡ flat_map (grown most limit) lists) }
{
    match lists.kept {
        KeptLists::One(counts) => lengthen_one(alloc, most, limit, counts),
        KeptLists::Many(many) => Ok(ListedCounts::many(grow_all(
            alloc,
            most,
            limit,
            many.as_slice(),
        )?)),
    }
}

/// Every list of counts of which none is above its limit, and which sum to so much at most.
pub fn count_lists(alloc: Global, most: u8, limits: &[u16]) -> Result<ListedCounts, AllocError>
    ensures { IfOk result (λ lists. lists ≡ the_count_lists most limits.now) }
{
    let mut lists = ListedCounts::one(Counts::new(alloc));
    let mut rest = limits;
    'each: while let [limit, after @ ..] = rest {
        lists = lengthen(alloc, most, *limit, lists)?;
        rest = after;
    }
    Ok(lists)
}
