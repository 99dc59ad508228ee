//! The floats that wait to be placed. The search does not use it: its states hold the ages of what waits, class by class.
ghost use Rattle.std.specs.Prelude.{◌≡◌, ◌↔◌, ◌<◌, ◌≤◌, ◌+◌, ◌^◌, [], None, Some, OnOk, OnErr, IfOk, IfSome, IsNone};
ghost use Rattle.std.specs.Prelude.{MatchResult, length, sum, take, slice_get, slice_index, drop};
ghost use Rattle.std.specs.List.{AllByRecursion};
ghost use Rattle.pg_style.specs.Classes.{is_float_class};
ghost use Rattle.pg_style.specs.Ranges.{AreClasses};
ghost use Rattle.pg_rules.specs.Floats.{float_numbers};
ghost use Rattle.pg_rules.specs.Floats.{distance_table};
ghost use Rattle.pg_floats.specs.QueueValue.{IsOf, IsQueue, none, ages_before, with_callout, with_placed, turned};
ghost use Rattle.pg_floats.specs.QueueValue.{late_by, late_of, late_in, table_in, float_count_in};

use pg_plan::{Ages, Counts};
use pg_style::{Class, Kind, Style};
use std::alloc::{AllocError, Global};
use std::marker::Model;

/// The floats placed and those that wait, by class, with the ages of these in pages.
///
/// Every call with a style wants the style with which the queue was made.
#[derive(Drop)]
pub struct Queue {
    placed: Counts,
    waiting: Counts,
    ages: Ages,
}

impl Model for Queue {
    ghost use Rattle.pg_floats.specs.QueueValue.{QueueValue};

    ghost Value = { QueueValue };

    ghost use Rattle.pg_floats.specs.QueueValue.{IsQueue};

    ghost view = { λ a. record { placed = a.placed; waiting = a.waiting; ages = a.ages } };

    ghost invariant = { λ a. IsQueue (record { placed = a.placed; waiting = a.waiting; ages = a.ages }) };
}

/// A float has waited for as many pages as its class's table has entries.
#[derive(Clone, Copy, PartialEq, Eq)]
pub struct Late {
    pub slot: usize,
    pub age: u8,
}

// The sum of counts.
fn sum_of(counts: &[u16]) -> usize
    requires { sum counts.now ≤ 2 ^ 12 }
    ensures { result ≡ sum counts.now }
{
    let mut total = 0;
    for count in counts {
        total += *count as usize;
    }
    total
}

// The first age that would reach a limit.
fn late_among(ages: &[u8], limit: usize, slot: usize) -> Option<Late>
    requires { limit ≤ 9 }
    ensures { result ≡ late_in limit slot ages.now }
{
    let mut rest = ages;
    'ages: while let [age, after @ ..] = rest {
        if *age as usize + 1 >= limit {
            return Some(Late {
                slot,
                age: limit as u8,
            });
        }
        rest = after;
    }
    None
}

// The classes of a style, which stand in increasing number.
fn classes_of(style: &Style) -> &[Class]
    ensures classes { result.now ≡ style.now.classes }
    ensures range { AreClasses style.now.classes }
{
    style.classes.as_slice()
}

// The distance table of a float class by its slot.
fn table_at(classes: &[Class], slot: usize) -> &[u32]
    ensures table { result.now ≡ table_in classes.now slot }
    ensures few { length result.now ≤ 9 }
{
    let mut rest = classes;
    let mut left = slot;
    'each: while let [class, after @ ..] = rest {
        if let Kind::Float { distance, .. } = &class.kind {
            if left == 0 {
                return distance.as_slice();
            }
            left -= 1;
        }
        rest = after;
    }
    &[]
}

fn is_float(class: &Class) -> bool
    ensures { result ≡ is_float_class class.now }
{
    matches!(class.kind, Kind::Float { .. })
}

fn count_floats(classes: &[Class]) -> usize
    ensures value { result ≡ float_count_in classes.now }
    ensures few { result ≤ length classes.now }
{
    let mut count = 0;
    let mut rest = classes;
    'each: while let [class, after @ ..] = rest {
        if is_float(class) {
            count += 1;
        }
        rest = after;
    }
    count
}

fn front(ages: &[u8], count: usize) -> &[u8]
    ensures { result.now ≡ take count ages.now }
{
    match ages.get(..count) {
        Some(front) => front,
        None => ages,
    }
}

fn behind(ages: &[u8], count: usize) -> &[u8]
    ensures { result.now ≡ drop count ages.now }
{
    match ages.get(count..) {
        Some(rest) => rest,
        None => &[],
    }
}

// How many float classes a style has.
fn count_of(style: &Style) -> usize
    ensures value { result ≡ length (float_numbers style.now) }
    ensures few { result ≤ 8 }
{
    count_floats(classes_of(style))
}

// The entry of a class's table.
fn entry_of(style: &Style, slot: usize, age: u8) -> u32
    requires { age < length (distance_table style.now slot) }
    ensures { result ≡ slice_index (distance_table style.now slot) age }
{
    let table = distances(style, slot);
    table[age as usize]
}

// The distance table of a float class.
fn distances(style: &Style, slot: usize) -> &[u32]
    ensures { result.now ≡ distance_table style.now slot }
{
    table_at(classes_of(style), slot)
}

// The first age that would reach its table's length.
fn late_in_queue(style: &Style, waiting: &[u16], ages: &[u8]) -> Option<Late>
    ensures value { result ≡ late_by (λ slot. length (distance_table style.now slot)) 0 waiting.now ages.now }
    ensures range { AreClasses style.now.classes }
{
    first_late(classes_of(style), waiting, ages)
}

// The first age by class and number that would reach its table's length.
fn first_late(classes: &[Class], waiting: &[u16], ages: &[u8]) -> Option<Late>
    ensures { result ≡ late_by (λ slot. length (table_in classes.now slot)) 0 waiting.now ages.now }
{
    let mut rest = waiting;
    let mut left = ages;
    let mut slot = 0;
    'each: while let [count, after @ ..] = rest {
        let limit = table_at(classes, slot).len();
        if let Some(late) = late_among(front(left, *count as usize), limit, slot) {
            return Some(late);
        }
        left = behind(left, *count as usize);
        rest = after;
        slot += 1;
    }
    None
}

impl Queue {
    /// How many floats of each class are placed.
    pub fn placed(&self) -> &Counts
        ensures placed { result.now ≡ self.now.placed }
        ensures kept { IsQueue self.now }
    {
        &self.placed
    }

    /// The ages of the floats that wait, by class and number.
    pub fn ages(&self) -> &Ages
        ensures ages { result.now ≡ self.now.ages }
        ensures kept { IsQueue self.now }
    {
        &self.ages
    }

    /// A float of a class waits, at the age 0.
    pub fn callout(&mut self, slot: usize) -> Result<(), AllocError>
        requires slot { slot < length self.old.waiting }
        requires room { sum self.old.placed + sum self.old.waiting < 2 ^ 12 }
        ensures ok { OnOk result (self.new ≡ with_callout self.old slot) }
        ensures err { OnErr result (self.new ≡ self.old) }
    {
        let at = sum_of(&self.waiting.as_slice()[..slot + 1]);
        let count = self.waiting.as_slice()[slot];
        self.ages.insert(at, 0)?;
        self.waiting.set(slot, count + 1);
        Ok(())
    }

    // The age of the first waiting float of a class, which is placed.
    fn take_first(&mut self, slot: usize) -> Option<u8>
        requires { slot < length self.old.waiting }
        ensures none { IsNone result ↔ (slice_index self.old.waiting slot ≡ 0) }
        ensures age { IfSome result (λ age. age ≡ slice_index self.old.ages (ages_before self.old slot)) }
        ensures placed { IfSome result (λ age. self.new ≡ with_placed self.old slot) }
        ensures same { IsNone result → self.new ≡ self.old }
        ensures kept { IsQueue self.old }
    {
        let count = self.waiting.as_slice()[slot];
        if count == 0 {
            None
        } else {
            let at = sum_of(&self.waiting.as_slice()[..slot]);
            let age = self.ages.remove(at);
            self.waiting.set(slot, count - 1);
            let placed = self.placed.as_slice()[slot];
            self.placed.set(slot, placed + 1);
            Some(age)
        }
    }

    /// A queue in which no float is placed and none waits. No memory is taken.
    pub fn start(alloc: Global, style: &Style) -> Queue
        ensures none { result ≡ none style.now }
        ensures of { IsOf style.now result }
    {
        let slots = count_of(style);
        Queue {
            placed: Counts::zeros(alloc, slots),
            waiting: Counts::zeros(alloc, slots),
            ages: Ages::new(alloc),
        }
    }

    /// A queue with these placed counts and these ages, of which each class has as many as its entry in `waiting`.
    pub fn resume(
        style: &Style,
        placed: &Counts,
        waiting: &Counts,
        ages: &Ages,
    ) -> Result<Queue, AllocError>
        requires queue { IsQueue (record { placed = placed.now; waiting = waiting.now; ages = ages.now }) }
        requires of { IsOf style.now (record { placed = placed.now; waiting = waiting.now; ages = ages.now }) }
        ensures { IfOk result
            (λ queue. queue ≡ record { placed = placed.now; waiting = waiting.now; ages = ages.now }) }
    {
        // the clause alone speaks of the style
        let _ = style;
        Ok(Queue {
            placed: placed.copy()?,
            waiting: waiting.copy()?,
            ages: ages.copy()?,
        })
    }

    // The first age that would reach its table's length. Where none would, all are small.
    fn late(&self, style: &Style) -> Option<Late>
        ensures value { result ≡ late_of style.now self.now }
        ensures small { IsNone result → AllByRecursion (λ age. age < 255) self.now.ages }
    {
        late_in_queue(style, self.waiting.as_slice(), self.ages.as_slice())
    }

    /// A page ends: all ages rise by one.
    ///
    /// `Late` comes exactly where an age would reach the length of its class's table, and names the first such float by
    /// class and number, with that length as its age; the queue is then unchanged.
    pub fn turn_page(&mut self, style: &Style) -> Result<(), Late>
        ensures ok { OnOk result (self.new ≡ turned self.old) }
        ensures late { MatchResult result (λ done. late_of style.now self.old ≡ None)
            (λ late. late_of style.now self.old ≡ Some late) }
        ensures err { OnErr result (self.new ≡ self.old) }
        ensures of { IsOf style.now self.old → IsOf style.now self.new }
    {
        if let Some(late) = self.late(style) {
            return Err(late);
        }
        self.ages.rise();
        Ok(())
    }

    /// Places the first float of a class that waits: answers the entry of its class's table at its age. None exactly
    /// where none waits.
    pub fn place(&mut self, style: &Style, slot: usize) -> Option<u32>
        requires slot { slot < length self.old.waiting }
        requires of { IsOf style.now self.old }
        ensures none { IsNone result ↔ (slice_index self.old.waiting slot ≡ 0) }
        ensures entry { IfSome result (λ demerits. demerits
            ≡ slice_index (distance_table style.now slot) (slice_index self.old.ages (ages_before self.old slot))) }
        ensures placed { IfSome result (λ demerits. self.new ≡ with_placed self.old slot) }
        ensures same { IsNone result → self.new ≡ self.old }
        ensures of { IsOf style.now self.new }
    {
        match self.take_first(slot) {
            None => None,
            Some(age) => Some(entry_of(style, slot, age)),
        }
    }
}
