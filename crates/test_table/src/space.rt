//! A small space for the table: the numbers from 0 to a last one, where a move adds 1 or 2 at the cost 1 and
//! only the last number is done. It counts the calls of `expand`. That it is lawful is proved; its meaning is
//! `numbers` of specs/Numbers.antt.
ghost use Rattle.std.specs.Prelude.{◌≡◌, ◌≤◌, ◌^◌, OnOk};
ghost use Rattle.test_table.specs.Numbers.{numbers, with_step};

use pg_table::{Narrowing, Opened, Space, Step, StepList, Steps};
use std::alloc::{AllocError, Global};
use std::cell::Cell;
use std::cmp::Ordering;
use std::sync::ledger::Ledger;

/// The numbers from 0 to `last`, with a count of the calls of `expand`.
#[derive(Drop)]
pub struct Numbers {
    pub last: u32,
    calls: Cell<u32>,
    alloc: Global,
    ghost limit: { last ≤ 2 ^ 30 },
}

impl Numbers {
    /// The numbers from 0 to `last`.
    pub fn new(alloc: Global, last: u32) -> Numbers
        requires { last ≤ 2 ^ 30 }
        ensures { result.last ≡ last }
    {
        Numbers {
            last,
            calls: Cell::new(0),
            alloc,
        }
    }

    /// How often `expand` was called since the last `take_calls`.
    pub fn take_calls(&self) -> u32 {
        let calls = self.calls.get();
        self.calls.set(0);
        calls
    }

    /// Puts the step by this much at the end, if it leads to one of the numbers.
    fn add_step(&self, steps: &mut StepList<u32, u32>, from: u32, by: u32) -> Result<(), AllocError>
        requires from { from ≤ self.now.last }
        requires by { by ≤ 2 }
        ensures { OnOk result (steps.new ≡ with_step self.now.last from by steps.old) }
    {
        let to = from + by;
        if to <= self.last {
            steps.push(Step { to, by, cost: 1 })?;
        }
        Ok(())
    }
}

impl Space for Numbers {
    type State = u32;

    type Move = u32;

    type Key = u32;

    ghost use Rattle.test_table.specs.NumbersLaws.{numbers_lawful};

    ghost meaning = { λ s. numbers s.last };

    ghost lawful = { λ s. numbers_lawful s.last s.limit };

    fn start(&self) -> Result<u32, AllocError> {
        Ok(0)
    }

    fn is_done(&self, state: &u32) -> bool {
        *state == self.last
    }

    fn order(&self, a: &u32, b: &u32) -> Ordering {
        a.cmp(b)
    }

    fn no_worse(&self, a: &u32, b: &u32) -> bool {
        *a == *b
    }

    fn rank(&self, state: &u32) -> u64 {
        u64::from(*state)
    }

    fn block(&self, state: &u32) -> u32 {
        *state
    }

    fn key(&self, state: &u32) -> Result<u32, AllocError> {
        Ok(*state)
    }

    fn expand<L: Ledger>(
        &self,
        state: &u32,
        steps: &mut Steps<L>,
    ) -> Result<Opened<u32, u32>, AllocError> {
        steps.tick();
        self.calls.set(self.calls.get().wrapping_add(1));
        let mut found = StepList::new(self.alloc);
        self.add_step(&mut found, *state, 1)?;
        self.add_step(&mut found, *state, 2)?;
        Ok(Opened {
            steps: found,
            reach: *state + 3,
        })
    }
}

/// All moves suffice.
impl Narrowing for Numbers {
    type State = u32;

    type Move = u32;

    type Key = u32;

    ghost use Rattle.test_table.specs.Numbers.{Adds, numbers};

    ghost wide = { λ s. numbers s.last };

    ghost Narrow = { λ s. Adds s.last };
}
