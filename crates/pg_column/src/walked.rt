//! What is kept along a span.
ghost use Rattle.std.specs.Prelude.{◌≡◌, ◌<◌, ◌≤◌, ◌+◌, ◌^◌, ◌&&◌, Bool, is_none, int_le, nat_le, ◌||◌};
ghost use Rattle.pg_list.specs.Ranges.{IsItemInRange};
ghost use Rattle.pg_list.specs.Flat.{FlatItem};
ghost use Rattle.pg_notes.specs.NotesValue.{first_over_limit};
ghost use Rattle.pg_breaks.specs.Near.{place_forced};
ghost use Rattle.pg_rules.specs.Legal.{document};
ghost use Rattle.pg_column.specs.Judged.{end_penalty as end_penalty_of, is_break_by, may_pass as may_pass_of, started, verdict as verdict_of, walk_item};
ghost use Rattle.pg_column.specs.Numbers.{IsRoom, is_over_by};
ghost use Rattle.pg_column.specs.View.{IsFor, view};

use crate::cost::{TextCost, TextRoom, is_over, text_cost};
use crate::rule::{KeptRules, TextRule};
use pg_breaks::{break_cost, is_forced, is_spent};
use pg_list::{Galley, Item, Place};
use pg_notes::NoteSums;
use pg_style::Style;
use pg_sums::Sums;

/// The sums and notes of the items so far, and whether no break among them behind a box is forced or over in the room.
#[derive(Clone, Copy)]
pub struct Walked {
    pub sums: Sums,
    pub notes: NoteSums,
    pub passes: bool,
}

impl Walked {
    /// No items yet.
    pub fn start(style: &Style) -> Walked
        ensures value { view result ≡ started }
        ensures style { IsFor style.now result }
        ensures counts { (result.sums.count ≡ 0) × (result.notes.count ≡ 0) }
    {
        Walked {
            sums: Sums::start(style.topskip, style.maxdepth),
            notes: NoteSums::start(),
            passes: true,
        }
    }

    /// Whether the items so far are over in a room.
    pub fn is_over(&self, style: &Style, room: &TextRoom) -> bool
        requires { IsRoom room.now }
        ensures { result ≡ is_over_by style.now room.now self.now.sums.totals self.now.notes.sums }
    {
        is_over(style, room, &self.sums, &self.notes)
    }

    // Whether a place is a break behind a box.
    fn is_break(&self, galley: &Galley, at: Place) -> bool
        ensures { result ≡ is_break_by galley.now.blocks self.now.sums.totals at }
    {
        self.sums.has_box() && break_cost(galley, at).is_some()
    }

    // Whether a place is no break behind a box that is forced or over.
    fn may_pass(&self, galley: &Galley, style: &Style, room: &TextRoom, at: Place) -> bool
        requires { IsRoom room.now }
        ensures { result ≡ may_pass_of (document galley.now style.now) room.now (view self.now) at }
    {
        if !self.is_break(galley, at) {
            return true;
        }
        !(is_forced(galley, at) || self.is_over(style, room))
    }

    /// One more item, and the break before it.
    pub fn pass(&mut self, galley: &Galley, style: &Style, room: &TextRoom, at: Place, item: &Item)
        requires room { IsRoom room.now }
        requires style { IsFor style.now self.old }
        requires range { IsItemInRange item.now }
        requires few { (self.old.sums.count < 2 ^ 20) × (self.old.notes.count < 2 ^ 20) }
        ensures value { (is_front : Bool) → view self.new
            ≡ walk_item (document galley.now style.now) room.now (view self.old)
            (record { place = at; item = item.now; is_front = is_front }) }
        ensures style { IsFor style.now self.new }
        ensures counts { (self.new.sums.count ≡ self.old.sums.count + 1)
            × (self.new.notes.count ≡ self.old.notes.count + 1) }
    {
        let may_pass = self.may_pass(galley, style, room, at);
        self.passes = self.passes && may_pass;
        self.sums.add(item);
        self.notes.add(style, item);
    }

    // The penalty of a break at the end, behind a box.
    fn end_penalty(&self, galley: &Galley, to: Place) -> Option<i32>
        ensures { result ≡ end_penalty_of galley.now.blocks (view self.now) to }
    {
        if self.sums.has_box() {
            break_cost(galley, to)
        } else {
            None
        }
    }

    // Whether no class of notes is above its limit.
    fn is_within_limits(&self, style: &Style) -> bool
        ensures { result ≡ is_none (first_over_limit style.now.classes self.now.notes.sums) }
    {
        self.notes.first_over(style).is_none()
    }

    /// The least broken rule, or the numbers, for the column of the items so far up to a place.
    pub fn verdict(
        &self,
        galley: &Galley,
        style: &Style,
        room: &TextRoom,
        to: Place,
        is_loose: bool,
    ) -> Result<TextCost, u8>
        requires { IsRoom room.now }
        ensures { result ≡ verdict_of (document galley.now style.now) room.now is_loose to (view self.now) }
    {
        let Some(penalty) = self.end_penalty(galley, to) else {
            return Err(TextRule::Shape.number());
        };
        if self.is_over(style, room) {
            return Err(TextRule::Tolerance.number());
        }
        let is_spent = is_spent(galley, to);
        let cost = text_cost(style, room, &self.sums, &self.notes, is_spent, penalty);
        let rules = KeptRules {
            tolerance: is_tolerable(galley, style, to, cost.badness),
            breaks: self.passes,
            room: has_room(style, room),
            notes: self.is_within_limits(style),
            looseness: is_loose,
        };
        rules.decide(cost)
    }
}

// Whether the end is forced or the badness within the tolerance.
fn is_tolerable(galley: &Galley, style: &Style, to: Place, badness: u16) -> bool
    ensures { result ≡ (place_forced galley.now.blocks to || nat_le badness style.now.tolerance) }
{
    is_forced(galley, to) || badness <= style.tolerance
}

// Whether the room is at least the style's least.
fn has_room(style: &Style, room: &TextRoom) -> bool
    ensures { result ≡ int_le style.now.min_text room.now.size }
{
    i64::from(style.min_text) <= room.size
}
