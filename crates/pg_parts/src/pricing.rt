//! What a column adds to the cost.
ghost use Rattle.std.specs.Prelude.{◌≡◌, ◌≤◌, ◌<◌, ◌+◌, ◌^◌, if◌then◌else◌, List, [], ◌∷◌, length, nat_abs, pos, true, false, IfOk, is_some, option_map};
ghost use Rattle.pg_list.specs.Flat.{is_same_place as is_same_place_of};
ghost use Rattle.pg_plan.specs.declared.pages.PageMove.{PageMove as AMove};
ghost use Rattle.pg_column.specs.Fits.{does_fit_from};
ghost use Rattle.pg_floats.specs.Given.{IsListOf};
ghost use Rattle.pg_judge.specs.Progress.{IsKept, IsProgress};
ghost use Rattle.pg_judge.specs.Seats.{AreHeights, IsSeat};
ghost use Rattle.pg_rules.specs.Legal.{document};
ghost use Rattle.pg_rules.specs.Room.{ColumnContext};
ghost use Rattle.law_columns.specs.Stands.{Stand};
ghost use Rattle.pg_parts.specs.Priced.{IsPriced, TellsText, price_in};

use crate::priced::PricedColumn;
use pg_column::{TextCost, is_same_place, judge_from};
use pg_floats::FloatList;
use pg_judge::{
    Basis, Counted, MoveCost, NextColumn, Progress, Seat, fitness_price, pick_demerits, run_price,
    seat_of,
};
use pg_list::{Galley, Place};
use pg_plan::{Column, PageMove};
use pg_style::Style;
use std::alloc::{AllocError, Global};

// The numbers of a column with text that breaks no rule on it.
fn numbers_of(galley: &Galley, style: &Style, column: &Column, seat: &Seat) -> Option<TextCost>
    requires heights { AreHeights seat.now }
    requires fits { does_fit_from galley.now.blocks column.now.from column.now.picks column.now.to ≡ true }
    ensures { (it : ColumnContext) → it.document ≡ document galley.now style.now → it.column ≡ column.now →
        IsSeat it seat.now → TellsText it result }
{
    if is_same_place(column.from, column.to) {
        return None;
    }
    match judge_from(
        galley,
        style,
        column.from,
        column.picks.as_slice(),
        column.to,
        &seat.room(),
    ) {
        Ok(numbers) => Some(numbers),
        Err(_) => None,
    }
}

// What floats pay.
fn price_of(verdict: Result<MoveCost, u8>) -> u64
    ensures { result ≡ price_in verdict }
{
    match verdict {
        Ok(cost) => cost.price,
        Err(_) => 0,
    }
}

// What a column without text pays.
fn empty_price(style: &Style, text: Option<TextCost>) -> u32
    ensures { result ≡ (if is_some text then 0 else style.now.float_column.demerits) }
{
    match text {
        Some(_) => 0,
        None => style.float_column.demerits,
    }
}

// The fitness of a text.
fn fitness_of(text: Option<TextCost>) -> Option<u8>
    ensures { result ≡ option_map (λ numbers. numbers.fitness) text }
{
    match text {
        Some(numbers) => Some(numbers.fitness),
        None => None,
    }
}

// How many floats are called before a place and not among so many that are placed.
fn count_waiting(galley: &Galley, list: &FloatList, slots: usize, to: Place, after: &[u16]) -> u32 {
    let mut count = 0u32;
    for slot in 0..slots {
        let placed = after.get(slot).copied().unwrap_or(0);
        count = count.saturating_add(
            list.called(galley, to, slot)
                .saturating_sub(u32::from(placed)),
        );
    }
    count
}

/// What the next column adds to the cost, where it breaks no rule.
pub fn price_of_next(
    alloc: Global,
    galley: &Galley,
    style: &Style,
    list: &FloatList,
    progress: &Progress,
    step: &PageMove,
) -> Result<PricedColumn, AllocError>
    requires list { IsListOf galley.now.blocks style.now list.now }
    requires kept { IsKept style.now progress.now }
    requires fits { does_fit_from galley.now.blocks step.now.column.from step.now.column.picks step.now.column.to ≡ true }
    ensures { IfOk result (λ it. (ms : List AMove) → IsProgress (document galley.now style.now) ms progress.now →
        Stand (document galley.now style.now) (step.now ∷ ms) →
        IsPriced (document galley.now style.now) step.now ms it) }
{
    let column = &step.column;
    let wide = &step.wide;
    let slots = progress.slots;
    let placed = &progress.placed;
    let counted = Counted::of(alloc, slots, placed, wide, column)?;
    let height = progress.next_wide(galley, style, list, wide);
    let basis = Basis {
        galley,
        style,
        list,
    };
    let next = NextColumn {
        column,
        run: step.run,
        wide,
    };
    let verdict = progress.judge_move(&basis, &next, height, &counted);
    let seat = seat_of(&basis, slots, &next, height, &counted);
    let text = numbers_of(galley, style, column, &seat);
    let after = counted.after.as_slice();
    Ok(PricedColumn {
        page: progress.page,
        column: progress.column,
        from: column.from,
        to: column.to,
        text,
        waits: count_waiting(galley, list, slots, column.to, after),
        line: style.line,
        empty: empty_price(style, text),
        picks: pick_demerits(galley, column.from, column.picks.as_slice()),
        run: run_price(style, progress.column, step.run),
        floats: price_of(verdict),
        fitness: fitness_price(style, progress.fitness, fitness_of(text)),
    })
}
