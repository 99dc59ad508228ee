//! States in few bytes.
ghost use Rattle.std.specs.Prelude.{◌≡◌, ◌<◌, ◌≤◌, ℕ, IfOk, get_or, length, true};
ghost use Rattle.pg_small.specs.Parts.{whole};

use crate::lists::ages_from;
use crate::rest::Rest;
use pg_list::Place;
use pg_plan::{Ages, Counts, PageKey, Side, State};
use std::alloc::{AllocError, Global};
use std::marker::Model;

/// The parts of a state, whose lists are borrowed.
#[derive(Clone, Copy)]
pub struct StateParts<'a> {
    pub place: Place,
    pub column: u8,
    pub side: Side,
    pub run: Option<u8>,
    pub wide: Option<i64>,
    pub fitness: Option<u8>,
    pub placed: &'a Counts,
    pub ages: &'a Ages,
}

/// A state in 40 bytes. A state with a wide area, more than three counts or more than six ages keeps these on the heap.
#[derive(Drop)]
pub struct SmallState {
    place: Place,
    column: u8,
    side: Side,
    run: Option<u8>,
    fitness: Option<u8>,
    rest: Rest,
}

impl Model for SmallState {
    ghost use Rattle.pg_plan.specs.declared.states.State.{State};
    ghost use Rattle.pg_small.specs.Seen.{wide_kept, placed_kept, ages_kept};

    ghost Value = { State };

    ghost view = { λ a. record {
      place = a.place;
      column = a.column;
      side = a.side;
      run = a.run;
      wide = wide_kept a.rest;
      fitness = a.fitness;
      placed = placed_kept a.rest;
      ages = ages_kept a.rest;
    } };
}

impl SmallState {
    /// The state in few bytes. It fails where memory runs out.
    pub fn of(alloc: Global, state: State) -> Result<SmallState, AllocError>
        ensures { IfOk result (λ it. it ≡ state) }
    {
        Ok(SmallState {
            place: state.place,
            column: state.column,
            side: state.side,
            run: state.run,
            fitness: state.fitness,
            rest: Rest::of(alloc, state.wide, &state.placed, &state.ages)?,
        })
    }

    /// The state of these parts in few bytes. It fails where memory runs out, in the rare case alone that it needs some.
    pub fn of_parts(alloc: Global, parts: &StateParts<'_>) -> Result<SmallState, AllocError>
        ensures { IfOk result (λ it. it ≡ whole parts.now) }
    {
        Ok(SmallState {
            place: parts.place,
            column: parts.column,
            side: parts.side,
            run: parts.run,
            fitness: parts.fitness,
            rest: Rest::of(alloc, parts.wide, parts.placed, parts.ages)?,
        })
    }

    /// The state that this stands for. It fails where memory runs out.
    pub fn to_state(&self, alloc: Global) -> Result<State, AllocError>
        ensures { IfOk result (λ it. it ≡ self.now) }
    {
        Ok(State {
            place: self.place,
            column: self.column,
            side: self.side,
            run: self.run,
            wide: self.rest.wide(),
            fitness: self.fitness,
            placed: self.rest.placed_counts(alloc)?,
            ages: ages_from(alloc, self.rest.ages())?,
        })
    }

    /// A state that equals this one. It fails where memory runs out, in the rare case alone that it needs some.
    pub fn copy(&self, alloc: Global) -> Result<SmallState, AllocError>
        ensures { IfOk result (λ it. it ≡ self.now) }
    {
        Ok(SmallState {
            place: self.place,
            column: self.column,
            side: self.side,
            run: self.run,
            fitness: self.fitness,
            rest: self.rest.copy(alloc)?,
        })
    }

    /// The state but for its ages. It fails where memory runs out.
    pub fn key(&self, alloc: Global) -> Result<PageKey, AllocError>
        ensures { IfOk result (λ it. it ≡ record {
          place = self.now.place;
          column = self.now.column;
          side = self.now.side;
          run = self.now.run;
          wide = self.now.wide;
          fitness = self.now.fitness;
          placed = self.now.placed;
        }) }
    {
        Ok(PageKey {
            place: self.place(),
            column: self.column(),
            side: self.side(),
            run: self.run(),
            wide: self.wide(),
            fitness: self.fitness(),
            placed: self.rest.placed_counts(alloc)?,
        })
    }

    /// Where the next column begins.
    pub fn place(&self) -> Place
        ensures { result ≡ self.now.place }
    {
        self.place
    }

    /// Which column of its page comes next; 1 is the first.
    pub fn column(&self) -> u8
        ensures { result ≡ self.now.column }
    {
        self.column
    }

    /// Which page of a spread the next column stands on.
    pub fn side(&self) -> Side
        ensures { result ≡ self.now.side }
    {
        self.side
    }

    /// The run that the page of the next column must have, if it must have one.
    pub fn run(&self) -> Option<u8>
        ensures { result ≡ self.now.run }
    {
        self.run
    }

    /// The height of the wide area of the page that is begun, in scaled points, if there is one.
    pub fn wide(&self) -> Option<i64>
        ensures { result ≡ self.now.wide }
    {
        self.rest.wide()
    }

    /// The fitness that the next column is compared with, if there is one.
    pub fn fitness(&self) -> Option<u8>
        ensures { result ≡ self.now.fitness }
    {
        self.fitness
    }

    /// How many floats of each class are placed. No memory is taken.
    pub fn placed(&self) -> &[u16]
        ensures { result.now ≡ self.now.placed }
    {
        self.rest.placed()
    }

    /// The ages of the waiting floats. No memory is taken.
    pub fn ages(&self) -> &[u8]
        ensures { result.now ≡ self.now.ages }
    {
        self.rest.ages()
    }

    /// Whether another state is the same, as far as few bytes tell: a no proves nothing. No memory is taken.
    pub fn is_surely_same(&self, other: &SmallState) -> bool
        ensures { result ≡ true → self.now ≡ other.now }
    {
        self.place == other.place
            && self.has_same_page(other)
            && self.rest.is_surely_same(&other.rest)
    }

    /// Whether another state is the same but for place and fitness, as far as few bytes tell: a no proves nothing. No memory
    /// is taken.
    #[inline]
    pub fn is_surely_same_line(&self, other: &SmallState) -> bool
        ensures { result ≡ true → other.now ≡ record self.now { place = other.now.place; fitness = other.now.fitness } }
    {
        (self.column == other.column && self.side == other.side)
            && (self.run == other.run && self.rest.is_surely_same(&other.rest))
    }

    /// A number that states have in common that differ in place, fitness and ages alone. No memory is taken.
    pub fn key_hash(&self) -> u64 {
        let run = match self.run {
            None => 0,
            Some(run) => u64::from(run) + 1,
        };
        let side = match self.side {
            Side::R => 1,
            _ => 0,
        };
        let page = (64 * run + 4 * side) ^ u64::from(self.column);
        page.wrapping_mul(0x27D4_EB2F_1656_67C5) ^ self.rest.placed_hash()
    }

    /// A number that states with the same ages have in common. No memory is taken.
    pub fn ages_hash(&self) -> u64 {
        self.rest.ages_hash()
    }

    // Whether the column, the side, the run and the fitness are the same.
    fn has_same_page(&self, other: &SmallState) -> bool
        ensures column { result ≡ true → self.now.column ≡ other.now.column }
        ensures side { result ≡ true → self.now.side ≡ other.now.side }
        ensures run { result ≡ true → self.now.run ≡ other.now.run }
        ensures fitness { result ≡ true → self.now.fitness ≡ other.now.fitness }
    {
        (self.column == other.column && self.side == other.side)
            && (self.run == other.run && self.fitness == other.fitness)
    }

    /// Whether as many floats of each class are placed in another state, as far as few bytes tell: a no proves nothing.
    pub fn has_surely_same_placed(&self, other: &SmallState) -> bool
        ensures { result ≡ true → self.now.placed ≡ other.now.placed }
    {
        self.rest.has_surely_same_placed(&other.rest)
    }

    /// Whether there are as many ages as in another state and none is greater, as far as few bytes tell: a no proves
    /// nothing.
    pub fn has_surely_no_older(&self, other: &SmallState) -> bool
        ensures long { result ≡ true → length self.now.ages ≡ length other.now.ages }
        ensures young { result ≡ true → (i : ℕ) → i < length self.now.ages →
            get_or self.now.ages i 0 ≤ get_or other.now.ages i 0 }
    {
        self.rest.has_surely_no_older(&other.rest)
    }

    /// Lets the column before it end at a place, with a fitness. No memory is taken.
    pub fn end_at(&mut self, place: Place, fitness: Option<u8>)
        ensures { self.new ≡ record self.old { place = place; fitness = fitness } }
    {
        self.place = place;
        self.fitness = fitness;
    }
}
