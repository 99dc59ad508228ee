//! What is kept of the columns judged so far.
ghost use Rattle.std.specs.Prelude.{◌≡◌, ◌≤◌, ◌<◌, ◌+◌, ◌-◌, ◌+ℤ◌, nat_abs, pos, is_some, slice_get, ◌*◌, ◌^◌, ◌==◌, ◌&&◌, not, if◌then◌else◌, List, [], ◌∷◌, ◌++◌, ℕ, None, true, OnOk};
ghost use Rattle.std.specs.Option.{option_map_or, option_or};
ghost use Rattle.pg_list.specs.declared.variants.Variant.{Variant as AVariant};
ghost use Rattle.pg_list.specs.Flat.{blocks_at, picked_variants};
ghost use Rattle.pg_list.specs.Whole.{whole_sum_by};
ghost use Rattle.pg_rules.specs.Cost.{run_demerits};
ghost use Rattle.pg_plan.specs.declared.pages.PageMove.{PageMove as APageMove};
ghost use Rattle.pg_list.specs.Flat.{is_same_place as is_same_place_of};
ghost use Rattle.pg_rules.specs.History.{is_right, side_of};
ghost use Rattle.pg_rules.specs.Floats.{float_numbers};
ghost use Rattle.pg_rules.specs.Legal.{document, is_chained as is_chained_of};
ghost use Rattle.pg_rules.specs.History.{placed_of, wide_of};
ghost use Rattle.pg_column.specs.Fits.{does_fit_from};
ghost use Rattle.pg_floats.specs.Given.{IsListOf, IsWideHeight};
ghost use Rattle.pg_judge.specs.Bases.{IsBasis, doc_of, move_of};
ghost use Rattle.pg_judge.specs.Moves.{JudgesMove, fitness_cost};
ghost use Rattle.pg_judge.specs.Progress.{AreCounted, IsAdvanced, IsGoing, IsKept, IsOutcome, IsProgress, broken_pair, is_lost as is_lost_of, the_move};
ghost use Rattle.pg_judge.specs.Verdict.{lesser};

use crate::added::{Counted, judge_added, wide_height};
use crate::barriers::keeps_barriers;
use crate::basis::{Basis, NextColumn};
use crate::moves::{
    MoveCost, cost_with, decide, fitness_price, is_run_kept, judge_own, run_price, with_barriers,
};
use crate::picks::pick_demerits;
use crate::seat::{is_same_place, seat_of};
use pg_column::fits_from;
use pg_floats::FloatList;
use pg_list::{Galley, Place};
use pg_plan::{Column, Counts};
use pg_style::{First, Style};
use std::alloc::{AllocError, Global};

/// The least rule that is broken, with the first column that breaks it.
#[derive(Clone, Copy, PartialEq, Eq)]
pub struct Broken {
    pub rule: u8,
    pub column: u32,
}

/// What is kept of the columns judged so far. From a column on that does not go on from the one before, only `broken`
/// and `number` are kept.
#[derive(Drop)]
pub struct Progress {
    /// How many float classes there are.
    pub slots: usize,
    /// How many columns were judged.
    pub number: u32,
    /// The number of the next column in its page.
    pub column: u8,
    /// The number of the next column's page.
    pub page: u32,
    /// Where the next column starts.
    pub at: Place,
    /// The run of the last column.
    pub run: Option<u8>,
    /// The height of the wide area of the last column's page, in scaled points.
    pub wide: Option<i64>,
    /// The fitness of the last text.
    pub fitness: Option<u8>,
    /// The floats placed, none above 65535.
    pub placed: Counts,
    /// Where the pages so far ended.
    pub turns: Vec<Place>,
    /// What is broken so far.
    pub broken: Option<Broken>,
    /// What is paid so far, where nothing is broken.
    pub cost: i128,
}

// A right page.
fn is_right_page(first: First, page: u32) -> bool
    ensures { result ≡ is_right (side_of first page) }
{
    match first {
        First::Single => false,
        First::Left => { if page % 2 == 1 { false } else { true } }
        First::Right => { if page % 2 == 1 { true } else { false } }
    }
}

// Whether a column was found that does not go on from the one before.
pub fn is_lost(broken: Option<Broken>) -> bool
    ensures { result ≡ is_lost_of broken }
{
    match broken {
        Some(broken) => broken.rule == 2,
        None => false,
    }
}

// A rule broken before, or the one that this column breaks, if it is less.
pub fn lesser_of(broken: Option<Broken>, rule: Option<u8>, column: u32) -> Option<Broken>
    ensures { broken_pair result ≡ lesser (broken_pair broken) rule column }
{
    let Some(rule) = rule else {
        return broken;
    };
    match broken {
        Some(least) => {
            if rule < least.rule {
                Some(Broken { rule, column })
            } else {
                Some(least)
            }
        }
        None => Some(Broken { rule, column }),
    }
}

impl Progress {
    // The run that the next page must have.
    fn must_run(&self, style: &Style) -> Option<u8>
        ensures { result ≡ (if (self.now.column == 1) && not (is_right (side_of style.now.first self.now.page))
            then None else self.now.run) }
    {
        if self.column == 1 && !is_right_page(style.first, self.page) {
            None
        } else {
            self.run
        }
    }

    // Whether the next page may have a run.
    fn has_run(&self, style: &Style, run: u8) -> bool
        ensures { result ≡ (is_some (slice_get style.now.runs run) && option_map_or (λ other. run == other)
            (if (self.now.column == 1) && not (is_right (side_of style.now.first self.now.page))
            then None else self.now.run) true) }
    {
        is_run_kept(style.runs.as_slice(), self.must_run(style), run)
    }

    // Whether a column starts where the one before ends, and fits.
    fn is_chained(&self, galley: &Galley, column: &Column) -> bool
        ensures { result ≡ (is_same_place_of column.now.from self.now.at
            && does_fit_from galley.now.blocks column.now.from column.now.picks column.now.to) }
    {
        is_same_place(column.from, self.at)
            && fits_from(galley, column.from, column.picks.as_slice(), column.to)
    }

    /// The height of the wide area of the next column's page.
    pub fn next_wide(
        &self,
        galley: &Galley,
        style: &Style,
        list: &FloatList,
        wide: &Counts,
    ) -> Option<i64>
        requires list { IsListOf galley.now.blocks style.now list.now }
        requires kept { IsKept style.now self.now }
        ensures value { (m : APageMove) (ms : List APageMove) → m.wide ≡ wide.now →
            IsGoing (document galley.now style.now) ms self.now →
            result ≡ wide_of (document galley.now style.now) (m ∷ ms) }
        ensures size { IsWideHeight result }
    {
        if self.column == 1 {
            wide_height(galley, style, list, self.slots, &self.placed, wide)
        } else {
            self.wide
        }
    }

    /// The least rule that the next column breaks, or what it costs.
    pub fn judge_move(
        &self,
        basis: &Basis,
        step: &NextColumn,
        height: Option<i64>,
        counted: &Counted,
    ) -> Result<MoveCost, u8>
        requires list { IsBasis basis.now }
        requires kept { IsKept basis.now.style.now self.now }
        requires height { IsWideHeight height }
        requires fits { does_fit_from basis.now.galley.now.blocks step.now.column.now.from step.now.column.now.picks
            step.now.column.now.to ≡ true }
        ensures { (ms : List APageMove) → IsGoing (doc_of basis.now) ms self.now →
            height ≡ wide_of (doc_of basis.now) (move_of step.now ∷ ms) →
            AreCounted basis.now.style.now (placed_of basis.now.style.now ms) (move_of step.now) counted.now →
            is_chained_of (doc_of basis.now) (move_of step.now) ms ≡ true →
            JudgesMove (doc_of basis.now) (move_of step.now) ms result }
    {
        let seat = seat_of(basis, self.slots, step, height, counted);
        let own = judge_own(basis.galley, basis.style, self.slots, step.column, &seat);
        let added = judge_added(basis, self, step, counted, &seat);
        let most = decide(own, added, self.has_run(basis.style, step.run));
        let before = self.placed.as_slice();
        let after = counted.after.as_slice();
        let keeps = keeps_barriers(basis, self.slots, step.column, before, after);
        with_barriers(most, keeps)
    }
}

// The number of the column behind one, in its page.
fn column_after(column: u8, columns: u8) -> u8
    requires { column ≤ columns }
    ensures { result ≡ (if column == columns then 1 else column + 1) }
{
    if column == columns { 1 } else { column + 1 }
}

// The number of the page of the column behind one.
fn page_after(page: u32, is_last: bool) -> u32
    requires { page < 2 ^ 32 - 1 }
    ensures { result ≡ (if is_last then page + 1 else page) }
{
    if is_last { page + 1 } else { page }
}

// Keeps where a page ended.
fn push_turn(turns: &mut Vec<Place>, is_last: bool, to: Place) -> Result<(), AllocError>
    ensures { OnOk result (turns.new.items ≡ (if is_last then turns.old.items ++ to ∷ [] else turns.old.items)) }
{
    if is_last {
        turns.push(to)?;
    }
    Ok(())
}

// What a column comes to: the fitness of the last text, the rule that is broken, and what is paid.
#[derive(Clone, Copy)]
struct Outcome {
    fitness: Option<u8>,
    rule: Option<u8>,
    cost: i128,
}

impl Progress {
    // Goes on behind a column.
    fn advance(
        &mut self,
        style: &Style,
        step: &NextColumn,
        wide: Option<i64>,
        after: Counts,
        outcome: Outcome,
    ) -> Result<(), AllocError>
        requires column { self.old.column ≤ style.now.columns }
        requires page { self.old.page ≤ self.old.number + 1 }
        requires number { self.old.number < 2 ^ 31 }
        ensures { OnOk result (IsAdvanced style.now step.now.column.now step.now.run wide after outcome.fitness
            outcome.rule outcome.cost self.old self.new) }
    {
        let is_last = self.column == style.columns;
        push_turn(&mut self.turns, is_last, step.column.to)?;
        self.column = column_after(self.column, style.columns);
        self.page = page_after(self.page, is_last);
        self.at = step.column.to;
        self.run = Some(step.run);
        self.wide = wide;
        self.placed = after;
        self.fitness = outcome.fitness;
        self.number += 1;
        self.broken = lesser_of(self.broken, outcome.rule, self.number);
        self.cost = outcome.cost;
        Ok(())
    }
}

// The fitness of the last text behind a column; version 1 knows none.
fn next_fitness(style: &Style, last: Option<u8>, own: Option<u8>) -> Option<u8>
    ensures { result ≡ (if style.now.version == 1 then None else option_or own last) }
{
    if style.version == 1 {
        None
    } else {
        own.or(last)
    }
}

impl Progress {
    // What is paid with the next column.
    fn paid_with(&self, basis: &Basis, step: &NextColumn, it: &MoveCost) -> i128
        requires paid { nat_abs self.now.cost < 2 ^ 110 }
        ensures value { result ≡ self.now.cost +ℤ ((it.now.own.demerits
            +ℤ whole_sum_by (λ (variant : AVariant). pos variant.demerits)
            (picked_variants (blocks_at basis.now.galley.now.blocks step.now.column.now.from)
            step.now.column.now.picks))
            +ℤ (((if self.now.column == 1 then run_demerits basis.now.style.now step.now.run else pos 0)
            +ℤ pos it.now.price)
            +ℤ pos (fitness_cost basis.now.style.now self.now.fitness it.now.own.fitness))) }
        ensures size { nat_abs result ≤ nat_abs self.now.cost + 2 ^ 70 }
    {
        let picks = pick_demerits(basis.galley, step.column.from, step.column.picks.as_slice());
        let run_price = run_price(basis.style, self.column, step.run);
        let fitness = fitness_price(basis.style, self.fitness, it.own.fitness);
        cost_with(
            self.cost,
            it.own.demerits,
            picks,
            run_price,
            it.price,
            fitness,
        )
    }

    // What a column comes to that goes on from the one before.
    fn outcome(
        &self,
        basis: &Basis,
        step: &NextColumn,
        height: Option<i64>,
        counted: &Counted,
    ) -> Outcome
        requires list { IsBasis basis.now }
        requires kept { IsKept basis.now.style.now self.now }
        requires number { self.now.number < 2 ^ 31 }
        requires height { IsWideHeight height }
        requires fits { does_fit_from basis.now.galley.now.blocks step.now.column.now.from step.now.column.now.picks
            step.now.column.now.to ≡ true }
        ensures size { nat_abs result.cost ≤ nat_abs self.now.cost + 2 ^ 70 }
        ensures outcome { (ms : List APageMove) → IsGoing (doc_of basis.now) ms self.now →
            height ≡ wide_of (doc_of basis.now) (move_of step.now ∷ ms) →
            AreCounted basis.now.style.now (placed_of basis.now.style.now ms) (move_of step.now) counted.now →
            is_chained_of (doc_of basis.now) (move_of step.now) ms ≡ true →
            IsOutcome (doc_of basis.now) (move_of step.now) ms self.now result.fitness result.rule result.cost }
    {
        match self.judge_move(basis, step, height, counted) {
            Ok(it) => Outcome {
                fitness: next_fitness(basis.style, self.fitness, it.own.fitness),
                rule: None,
                cost: self.paid_with(basis, step, &it),
            },
            Err(rule) => Outcome {
                fitness: self.fitness,
                rule: Some(rule),
                cost: self.cost,
            },
        }
    }

    // Goes on behind a column that goes on from the one before.
    fn go_on(&mut self, alloc: Global, basis: &Basis, step: &NextColumn) -> Result<(), AllocError>
        requires list { IsBasis basis.now }
        requires kept { IsKept basis.now.style.now self.old }
        requires number { self.old.number < 2 ^ 31 }
        requires fits { does_fit_from basis.now.galley.now.blocks step.now.column.now.from step.now.column.now.picks
            step.now.column.now.to ≡ true }
        ensures kept { OnOk result (IsKept basis.now.style.now self.new) }
        ensures number { OnOk result (self.new.number ≡ self.old.number + 1) }
        ensures next { OnOk result ((ms : List APageMove) → IsProgress (doc_of basis.now) ms self.old →
            IsGoing (doc_of basis.now) ms self.old → is_chained_of (doc_of basis.now) (move_of step.now) ms ≡ true →
            IsProgress (doc_of basis.now) (move_of step.now ∷ ms) self.new) }
    {
        basis.style.stays_in_range();
        let counted = Counted::of(alloc, self.slots, &self.placed, step.wide, step.column)?;
        let height = self.next_wide(basis.galley, basis.style, basis.list, step.wide);
        let outcome = self.outcome(basis, step, height, &counted);
        let after = counted.after.copy()?;
        self.advance(basis.style, step, height, after, outcome)
    }
}

impl Progress {
    /// Judges the next column, behind those judged so far.
    pub fn judge(
        &mut self,
        alloc: Global,
        basis: &Basis,
        step: &NextColumn,
    ) -> Result<(), AllocError>
        requires list { IsBasis basis.now }
        requires kept { IsKept basis.now.style.now self.old }
        requires number { self.old.number < 2 ^ 31 }
        ensures kept { OnOk result (IsKept basis.now.style.now self.new) }
        ensures number { OnOk result (self.new.number ≡ self.old.number + 1) }
        ensures next { OnOk result ((ms : List APageMove) → IsProgress (doc_of basis.now) ms self.old →
            IsProgress (doc_of basis.now) (move_of step.now ∷ ms) self.new) }
    {
        if is_lost(self.broken) {
            self.number += 1;
            return Ok(());
        }
        if !self.is_chained(basis.galley, step.column) {
            self.number += 1;
            self.broken = Some(Broken {
                rule: 2,
                column: self.number,
            });
            return Ok(());
        }
        self.go_on(alloc, basis, step)
    }
}
