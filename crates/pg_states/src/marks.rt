//! What a search remembers of the states that it reached, for who asks about many states that differ in place and
//! fitness alone.
ghost use Rattle.std.specs.Prelude.{◌≡◌, ◌⊎◌, ◌&&◌, ◌<◌, ◌^◌, Bool, int_lt, length, slice_get, true, ℤ, IfOk, IfSome};
ghost use Rattle.std.specs.List.{list_any};
ghost use Rattle.std.specs.Option.{option_copied};
ghost use Rattle.pg_list.specs.Flat.{is_same_place as is_same_place_of};
ghost use Rattle.pg_plan.specs.declared.states.State.{State};
ghost use Rattle.pg_rules.specs.NoWorse.{is_same_number as is_same_number_of};
ghost use Rattle.pg_states.specs.declared.marks.Cell.{Cell};
ghost use Rattle.pg_states.specs.LineOf.{IsLineOf};
ghost use Rattle.pg_states.specs.Marks.{along, has_no_better as has_no_better_of, has_no_worse as has_no_worse_of, is_marked, tells};

use crate::comparing::{is_no_worse_line, is_same_number, is_same_place};
use pg_list::Place;
use pg_small::SmallState;
use pg_table::Marking;
use std::alloc::{AllocError, Global};
use std::marker::Model;

/// How many states are remembered at first, and how many at most.
const FIRST_CELLS: usize = 1 << 10;

const MOST_CELLS: usize = 1 << 16;

/// How many states a search reaches before it remembers any.
const REACHED_BEFORE: usize = 512;

/// How many lines are told apart before all is forgotten.
const LINES: usize = 1 << 12;

/// How many lines are found again by a hash.
const SPOTS: usize = 1 << 11;

/// How far apart states at places of blocks and of variants that follow one another are kept: odd numbers, so that no power
/// of two brings them together.
const BLOCK_STEP: usize = 31_161;

const VARIANT_STEP: usize = 19_051;

/// That a state was reached at a cost: the state of the line of this number, but at this place and with this fitness.
#[derive(Copy, Clone)]
pub(crate) struct Cell {
    pub(crate) cost: i64,
    pub(crate) place: Place,
    pub(crate) line: u32,
    pub(crate) fitness: Option<u8>,
}

/// States that were reached, and their costs. States that differ in place and fitness alone are a line, of which one
/// state stands for all. Of each state its line, its place and its fitness are kept where a hash tells, and what stood
/// there before is forgotten. The more states are reached, the more are remembered, as far as there is memory.
#[derive(Drop)]
pub struct PageMarks {
    lines: Vec<SmallState>,
    /// The numbers of lines, each where a hash tells. They are only hints.
    numbers: Vec<u32>,
    cells: Vec<Cell>,
    /// The bits of a number that tell where a state is kept.
    mask: usize,
    reached: usize,
}

impl Model for PageMarks {
    ghost use Rattle.std.specs.Prelude.{◌≡◌, false, length};
    ghost use Rattle.std.specs.List.{list_any};
    ghost use Rattle.pg_states.specs.Marks.{Marks, is_past};

    ghost Value = { Marks };

    ghost view = { λ a. record { lines = a.lines.items; cells = a.cells.items } };

    ghost invariant = { λ a. list_any (is_past (length a.lines.items)) a.cells.items ≡ false };
}

/// The line of a state, for who asks whether its states were reached.
#[derive(Copy, Clone)]
pub struct Line<'a> {
    marks: &'a PageMarks,
    /// A line no worse, where one is found.
    number: Option<u32>,
    /// From where on its states are kept.
    base: usize,
    mask: usize,
}

// From where on the states of a line are kept, by the hash of its key.
fn base_of(seed: u64) -> usize {
    (seed >> 40) as usize
}

// Where a state is kept, by the bits of this mask: states at places of one block side by side, and those of blocks that follow
// one another far apart.
fn spot_of(base: usize, place: Place, mask: usize) -> usize {
    let block = BLOCK_STEP * place.block as usize;
    let variant = VARIANT_STEP * place.variant as usize;
    base.wrapping_add(block + variant + place.index as usize) & mask
}

// Where the number of the line of a state with this hash of its key is kept.
fn line_spot_of(seed: u64, state: &SmallState) -> usize {
    ((seed ^ state.ages_hash()) >> 40) as usize % SPOTS
}

// Whether the state of a number is no worse than a state along its line.
fn has_no_worse(lines: &[SmallState], number: u32, state: &SmallState) -> bool
    ensures { result ≡ has_no_worse_of lines.now number state.now }
{
    match lines.get(number as usize) {
        None => false,
        Some(line) => is_no_worse_line(line, state),
    }
}

// Whether a state is no worse than that of a number along its line.
fn has_no_better(lines: &[SmallState], number: u32, state: &SmallState) -> bool
    ensures { result ≡ has_no_better_of lines.now number state.now }
{
    match lines.get(number as usize) {
        None => false,
        Some(line) => is_no_worse_line(state, line),
    }
}

// Makes as many cells again. What stood at a spot stands at both that one more bit of a hash tells apart.
fn double_cells(cells: &mut Vec<Cell>) -> Result<(), AllocError>
    ensures { (test : Cell → Bool) → list_any test cells.new.items ≡ true → list_any test cells.old.items ≡ true }
{
    cells.extend_from_within(..)
}

// Makes cells where there are none: as many as before all was forgotten, which all tell what this cell tells. Makes as many
// again each time that twice as many states were reached. Where memory for more is refused, there stay as many as there are.
fn make_cells(cells: &mut Vec<Cell>, before: usize, reached: usize, cell: Cell)
    ensures { (test : Cell → Bool) → list_any test cells.new.items ≡ true →
        (list_any test cells.old.items ≡ true) ⊎ (test cell ≡ true) }
{
    if cells.is_empty() {
        let _ = cells.resize(before.max(FIRST_CELLS), cell);
        return;
    }
    if cells.len() < MOST_CELLS && reached.is_power_of_two() {
        let _ = double_cells(cells);
    }
}

// Keeps a cell at a spot.
fn put_cell(cells: &mut Vec<Cell>, spot: usize, cell: Cell)
    ensures { (test : Cell → Bool) → list_any test cells.new.items ≡ true →
        (list_any test cells.old.items ≡ true) ⊎ (test cell ≡ true) }
{
    if spot < cells.len() {
        cells[spot] = cell;
    }
}

// Keeps the number of a line at a spot. Where there are none yet, it is kept at each.
fn keep_number(numbers: &mut Vec<u32>, spot: usize, number: u32) -> Result<(), AllocError> {
    if numbers.is_empty() {
        *numbers = vec![in *numbers.allocator(); number; SPOTS]?;
        return Ok(());
    }
    if spot < numbers.len() {
        numbers[spot] = number;
    }
    Ok(())
}

impl Cell {
    // Whether the state was reached at this place and with this fitness, at a lower cost.
    #[inline]
    fn is_lower(&self, place: Place, fitness: Option<u8>, cost: i128) -> bool
        ensures { result ≡ (int_lt self.now.cost cost
            && (is_same_place_of self.now.place place && is_same_number_of self.now.fitness fitness)) }
    {
        i128::from(self.cost) < cost
            && (is_same_place(self.place, place) && is_same_number(self.fitness, fitness))
    }
}

impl Line<'_> {
    // Whether a line is that of states no worse. The last one that is tells it of the next that asks.
    #[inline]
    fn has_no_worse(&mut self, number: u32, state: &SmallState) -> bool
        requires { IsLineOf self.old state.now }
        ensures line { IsLineOf self.new state.now }
        ensures marks { self.new.marks ≡ self.old.marks }
        ensures told { result ≡ true → has_no_worse_of self.old.marks.now.lines number state.now ≡ true }
    {
        if self.number == Some(number) {
            return true;
        }
        if !self.marks.has_no_worse(number, state) {
            return false;
        }
        self.number = Some(number);
        true
    }

    /// Whether a state no worse than that of the line at a place and with a fitness was reached at a lower cost, as far
    /// as that is remembered. No memory is taken.
    #[inline]
    pub fn is_outdone(
        &mut self,
        state: &SmallState,
        place: Place,
        fitness: Option<u8>,
        cost: i128,
    ) -> bool
        requires { IsLineOf self.old state.now }
        ensures line { IsLineOf self.new state.now }
        ensures marks { self.new.marks ≡ self.old.marks }
        ensures told { result ≡ true → is_marked self.old.marks.now (along state.now place fitness) cost ≡ true }
    {
        match self.marks.cell_at(spot_of(self.base, place, self.mask)) {
            None => false,
            Some(cell) => {
                cell.is_lower(place, fitness, cost) && self.has_no_worse(cell.line, state)
            }
        }
    }
}

impl PageMarks {
    // What is kept at a spot.
    #[inline]
    fn cell_at(&self, spot: usize) -> Option<&Cell>
        ensures { option_copied result ≡ slice_get self.now.cells spot }
    {
        self.cells.get(spot)
    }

    // Whether the state of a number is no worse than a state along its line.
    #[cold]
    #[inline(never)]
    fn has_no_worse(&self, number: u32, state: &SmallState) -> bool
        ensures { result ≡ has_no_worse_of self.now.lines number state.now }
    {
        has_no_worse(self.lines.as_slice(), number, state)
    }

    // The number of a line no worse than that of a state with this hash of its key, where it is found.
    fn number_of(&self, seed: u64, state: &SmallState) -> Option<u32>
        ensures { IfSome result (λ number. has_no_worse_of self.now.lines number state.now ≡ true) }
    {
        let number = *self.numbers.get(line_spot_of(seed, state))?;
        if !has_no_worse(self.lines.as_slice(), number, state) {
            return None;
        }
        Some(number)
    }

    /// The line of a state. No memory is taken.
    pub fn line_of(&self, state: &SmallState) -> Line<'_>
        ensures marks { result.marks.now ≡ self.now }
        ensures line { IsLineOf result state.now }
    {
        let seed = state.key_hash();
        Line {
            marks: self,
            number: self.number_of(seed, state),
            base: base_of(seed),
            mask: self.mask,
        }
    }

    // The number of a line no better than that of a state with this hash of its key, where it is found.
    fn number_behind(&self, seed: u64, state: &SmallState) -> Option<u32>
        ensures { IfSome result (λ number. has_no_better_of self.now.lines number state.now ≡ true) }
    {
        let number = *self.numbers.get(line_spot_of(seed, state))?;
        if !has_no_better(self.lines.as_slice(), number, state) {
            return None;
        }
        Some(number)
    }

    // Forgets all where there are many lines.
    fn make_room(&mut self)
        ensures few { length self.new.lines < 2 ^ 12 }
        ensures kept { (v : State) (c : ℤ) → is_marked self.new v c ≡ true → is_marked self.old v c ≡ true }
    {
        if self.lines.len() >= LINES {
            self.cells.clear();
            self.lines.clear();
        }
    }

    // Adds the line of a state with this hash of its key.
    fn add_line(&mut self, seed: u64, state: &SmallState) -> Result<u32, AllocError>
        requires { length self.old.lines < 2 ^ 12 }
        ensures line { IfOk result (λ number. has_no_better_of self.new.lines number state.now ≡ true) }
        ensures kept { (v : State) (c : ℤ) → is_marked self.new v c ≡ true → is_marked self.old v c ≡ true }
    {
        let number = self.lines.len() as u32;
        let line = state.copy(*self.lines.allocator())?;
        keep_number(&mut self.numbers, line_spot_of(seed, state), number)?;
        self.lines.push(line)?;
        Ok(number)
    }

    // The number of a line no better than that of a state with this hash of its key, which is added where it is not found.
    fn find_line(&mut self, seed: u64, state: &SmallState) -> Result<u32, AllocError>
        ensures line { IfOk result (λ number. has_no_better_of self.new.lines number state.now ≡ true) }
        ensures kept { (v : State) (c : ℤ) → is_marked self.new v c ≡ true → is_marked self.old v c ≡ true }
    {
        if let Some(number) = self.number_behind(seed, state) {
            return Ok(number);
        }
        self.make_room();
        self.add_line(seed, state)
    }

    // Remembers that a state with this hash of its key was reached, of which a cell tells.
    fn keep(&mut self, seed: u64, cell: Cell)
        requires { cell.line < length self.old.lines }
        ensures { (v : State) (c : ℤ) → is_marked self.new v c ≡ true →
            (is_marked self.old v c ≡ true) ⊎ (tells self.old.lines v c cell ≡ true) }
    {
        let before = self.mask.wrapping_add(1);
        make_cells(&mut self.cells, before, self.reached, cell);
        self.mask = self.cells.len().saturating_sub(1);
        let spot = spot_of(base_of(seed), cell.place, self.mask);
        put_cell(&mut self.cells, spot, cell);
    }
}

impl Marking<SmallState> for PageMarks {
    ghost use Rattle.std.specs.Prelude.{◌≡◌, true};
    ghost use Rattle.pg_rules.specs.NoWorse.{is_no_worse};
    ghost use Rattle.pg_states.specs.Marks.{is_marked};

    ghost NoWorse = { λ a b. is_no_worse a b ≡ true };

    ghost outdone = { λ m v c. is_marked m v c };

    fn none(alloc: Global) -> PageMarks {
        PageMarks {
            lines: Vec::new(alloc),
            numbers: Vec::new(alloc),
            cells: Vec::new(alloc),
            mask: 0,
            reached: 0,
        }
    }

    fn detail(state: &SmallState) -> u64 {
        match state.fitness() {
            None => 0,
            Some(fitness) => (u64::from(fitness) + 1) << 20,
        }
    }

    fn mark(&mut self, state: &SmallState, cost: i128) -> Result<(), AllocError> {
        self.reached = self.reached.saturating_add(1);
        if self.reached < REACHED_BEFORE {
            return Ok(());
        }
        let Ok(cost) = i64::try_from(cost) else {
            return Ok(());
        };
        let seed = state.key_hash();
        let Ok(line) = self.find_line(seed, state) else {
            return Ok(());
        };
        let place = state.place();
        let cell = Cell {
            cost,
            place,
            line,
            fitness: state.fitness(),
        };
        self.keep(seed, cell);
        Ok(())
    }
}
