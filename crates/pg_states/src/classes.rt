//! The floats of all classes at the end of a column.
ghost use Rattle.std.specs.Prelude.{◌≡◌, ◌≤◌, ◌<◌, ◌^◌, ◌-◌, length, take, IfOk};
ghost use Rattle.pg_rules.specs.Floats.{distance_table, entry as entry_of, float_numbers};
ghost use Rattle.pg_states.specs.Lines.{is_line_empty, with_zeros};
ghost use Rattle.pg_states.specs.Settling.{SettlesBy, line_by};

use crate::counts::excess;
use crate::lines::Line;
use crate::settling::Settled;
use crate::waiting_ages::{behind, front};
use pg_floats::{entry, table_of};
use pg_plan::Ages;
use pg_style::Style;
use std::alloc::{AllocError, Global};

/// How many floats of each class wait at the beginning of a column, are called before it and up to its end, and are
/// placed before it and up to its end.
#[derive(Drop)]
pub struct Classes<'a> {
    pub waits: &'a [u16],
    pub called: &'a [u16],
    pub reached: &'a [u16],
    pub placed: &'a [u16],
    pub after: &'a [u16],
}

// The demerits of the floats of a slot by the pages that they wait. Made part of its caller, it would be looked for among all
// classes before it is known whether it is asked for.
#[inline(never)]
fn short_table(style: &Style, slot: usize) -> &[u32]
    requires { slot < length (float_numbers style.now) }
    ensures table { result.now ≡ distance_table style.now slot }
    ensures few { length result.now ≤ 9 }
{
    style.stays_in_range();
    table_of(style, slot)
}

impl Classes<'_> {
    // How many floats of a class wait.
    fn waiting(&self, slot: usize) -> usize
        ensures { result ≡ entry_of self.now.waits.now slot }
    {
        entry(self.waits, slot) as usize
    }

    // How many floats of a class the column places.
    fn taken(&self, slot: usize) -> usize
        ensures value { result ≡ entry_of self.now.after.now slot - entry_of self.now.placed.now slot }
        ensures few { result < 2 ^ 16 }
    {
        excess(self.after, self.placed, slot) as usize
    }

    // The floats of a class, given the ages of its floats and of those of later classes.
    fn line<'b>(&self, ages: &'b [u8], slot: usize) -> Line<'b>
        ensures { with_zeros result.waited.now result.fresh
            ≡ with_zeros (take (entry_of self.now.waits.now slot) ages.now)
            (entry_of self.now.reached.now slot - entry_of self.now.called.now slot) }
    {
        Line {
            waited: front(ages, self.waiting(slot)),
            fresh: excess(self.reached, self.called, slot) as usize,
        }
    }

    // Whether no float of a class waits, and none is called in the column.
    fn is_line_empty(&self, slot: usize) -> bool
        ensures { result ≡ is_line_empty self.now.waits.now self.now.called.now self.now.reached.now slot }
    {
        entry(self.waits, slot) == 0 && entry(self.reached, slot) <= entry(self.called, slot)
    }

    /// The floats at the end of the column, so many pages later, from the ages of those that wait: the ages of those
    /// that are left, and what the placed ones pay. None where one of those that are left is too old.
    #[inline(always)]
    pub fn settle(
        &self,
        alloc: Global,
        style: &Style,
        slots: usize,
        ages: &[u8],
        pages: u8,
    ) -> Result<Option<Settled>, AllocError>
        requires slots { slots ≡ length (float_numbers style.now) }
        requires few { slots ≤ 8 }
        ensures { IfOk result (SettlesBy style.now (line_by self.now ages.now) self.now.placed.now self.now.after.now
            pages slots) }
    {
        let mut left = Ages::new(alloc);
        let mut price = 0u128;
        let mut ahead = ages;
        for slot in 0..slots {
            if self.is_line_empty(slot) {
                continue;
            }
            let line = self.line(ahead, slot);
            let table = short_table(style, slot);
            let taken = self.taken(slot);
            if !line.push_left(table.len(), pages, taken, &mut left)? {
                return Ok(None);
            }
            price += line.price(table, taken);
            ahead = behind(ahead, self.waiting(slot));
        }
        Ok(Some(Settled { ages: left, price }))
    }
}
