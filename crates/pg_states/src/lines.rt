//! The floats of one class at the end of a column, in the order in which they are placed.
ghost use Rattle.std.specs.Prelude.{◌≡◌, ◌≤◌, ◌<◌, ◌^◌, ◌-◌, ◌++◌, true, min, take, drop, length, pos, IfOk};
ghost use Rattle.pg_states.specs.Lines.{are_young, later, paid_by, with_zeros};

use crate::waiting_ages::{behind, front, price_at, price_of, push_ages, push_zeros};
use pg_plan::Ages;
use std::alloc::AllocError;

/// The floats of a class: the ages of those that waited, and how many are called only now, whose age is 0.
#[derive(Drop)]
pub struct Line<'a> {
    pub waited: &'a [u8],
    pub fresh: usize,
}

impl Line<'_> {
    // How many of the first floats are called only now.
    fn fresh_among(&self, count: usize) -> usize
        ensures { result ≡ min self.now.fresh (count - length self.now.waited.now) }
    {
        self.fresh.min(count.saturating_sub(self.waited.len()))
    }

    /// What the first floats pay together.
    pub fn price(&self, table: &[u32], count: usize) -> u128
        requires { count < 2 ^ 16 }
        ensures value { pos result ≡ paid_by table.now (take count (with_zeros self.now.waited.now self.now.fresh)) }
        ensures small { result ≤ 2 ^ 48 }
    {
        let waited = price_of(table, front(self.waited, count));
        waited + self.fresh_among(count) as u128 * u128::from(price_at(table, 0))
    }

    /// Adds the ages of the floats behind the first ones, so many pages later. Answers whether each is then below a
    /// limit.
    pub fn push_left(
        &self,
        limit: usize,
        pages: u8,
        count: usize,
        left: &mut Ages,
    ) -> Result<bool, AllocError>
        requires { limit ≤ 9 }
        ensures young { IfOk result (λ young. young
            ≡ are_young limit pages (drop count (with_zeros self.now.waited.now self.now.fresh))) }
        ensures left { IfOk result (λ young. young ≡ true → left.new
            ≡ left.old ++ later pages (drop count (with_zeros self.now.waited.now self.now.fresh))) }
    {
        let fresh = self.fresh - self.fresh_among(count);
        if !push_ages(limit, pages, behind(self.waited, count), left)? {
            return Ok(false);
        }
        push_zeros(limit, pages, fresh, left)
    }
}
