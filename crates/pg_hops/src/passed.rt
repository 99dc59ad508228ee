//! What is kept of the items passed.
ghost use Rattle.std.specs.Prelude.{◌≡◌, ◌<◌, ◌+◌, ◌^◌, true, false, Some, None, nat_abs, Bool};
ghost use Rattle.pg_list.specs.Ranges.{IsItemInRange};
ghost use Rattle.pg_list.specs.Flat.{FlatItem};
ghost use Rattle.pg_rules.specs.Legal.{document};
ghost use Rattle.pg_style.specs.Values.{StyleValue};
ghost use Rattle.pg_column.specs.Passed.{are_within as are_within_of, crossed, fits as fits_of, is_end_here, least_room as least_room_of, nothing, pass_item, raised as raised_of, with_next};
ghost use Rattle.pg_hops.specs.Ahead.{item_ahead, place_ahead};
ghost use Rattle.pg_hops.specs.Needs.{AreNeeds, least_by};
ghost use Rattle.pg_hops.specs.Quiet.{is_quiet as is_quiet_of};
ghost use Rattle.pg_hops.specs.View.{IsFor, view};

use crate::cursor::Cursor;
use crate::leap::raised;
use crate::needs::Needs;
use pg_breaks::{break_cost, is_forced};
use pg_list::{Galley, Item, Place};
use pg_notes::NoteSums;
use pg_scaled::{minus, plus};
use pg_style::Style;
use pg_sums::Sums;

/// The sums of the items passed, those of their notes, and the least room in scaled points in which no break passed
/// behind a box is over, if one was passed.
#[derive(Clone, Copy)]
pub struct Passed {
    pub sums: Sums,
    pub notes: NoteSums,
    pub bound: Option<i64>,
}

impl Passed {
    /// Nothing passed yet.
    pub fn nothing(style: &Style) -> Passed
        ensures value { view result ≡ nothing }
        ensures style { IsFor style.now result }
        ensures counts { (result.sums.count ≡ 0) × (result.notes.count ≡ 0) }
    {
        Passed {
            sums: Sums::start(style.topskip, style.maxdepth),
            notes: NoteSums::start(),
            bound: None,
        }
    }

    /// The least room in which the items passed are not over, the skips of their notes shrunk.
    pub fn least_room(&self, style: &Style) -> i64
        ensures value { result ≡ least_room_of style.now (view self.now) }
        ensures small { nat_abs result < 2 ^ 57 }
    {
        self.least_with(self.notes.smallest(style))
    }

    // The same, where the notes passed take so much, their skips shrunk.
    fn least_with(&self, notes: i64) -> i64
        requires { nat_abs notes < 2 ^ 52 }
        ensures value { result ≡ least_by (view self.now) notes }
        ensures small { nat_abs result < 2 ^ 57 }
    {
        let full = plus(self.sums.total(), notes);
        let shrunk = minus(full, self.sums.shrink());
        let over = plus(full, 1);
        if over < shrunk { over } else { shrunk }
    }

    // The bound past a break here, where the notes passed take so much, their skips shrunk.
    pub(crate) fn bound_with(&self, notes: i64) -> i64
        requires { nat_abs notes < 2 ^ 52 }
        ensures { Some result ≡ raised_of self.now.bound (least_by (view self.now) notes) }
    {
        raised(self.bound, self.least_with(notes))
    }

    /// Whether no class of notes is above its limit. A style without classes has no limits, and no notes are looked at.
    #[inline]
    pub fn is_within_limits(&self, style: &Style) -> bool
        ensures { result ≡ are_within_of style.now (view self.now) }
    {
        if style.classes.as_slice().is_empty() {
            return true;
        }
        self.notes.first_over(style).is_none()
    }

    /// Whether the notes passed take no room.
    pub fn is_quiet(&self, style: &Style) -> bool
        ensures { result ≡ is_quiet_of style.now (view self.now) }
    {
        self.notes.height(style) == 0
    }

    /// Whether a room is not below the bound.
    pub fn fits(&self, room: i64) -> bool
        ensures { result ≡ fits_of self.now.bound room }
    {
        match self.bound {
            Some(least) => least <= room,
            None => true,
        }
    }

    /// Whether a place is a break behind a box.
    pub fn is_end(&self, galley: &Galley, place: Place) -> bool
        ensures { result ≡ is_end_here galley.now.blocks (view self.now) place }
    {
        self.sums.has_box() && break_cost(galley, place).is_some()
    }

    /// The same as `is_end`, where the next item of a stretch is at hand.
    ///
    /// Conditions: the item is the cursor's next one, and the place is the cursor's.
    pub fn ends_at(&self, galley: &Galley, at: Cursor, place: Place, item: &Item) -> bool
        requires item { item_ahead galley.now.blocks at ≡ Some item.now }
        requires place { place ≡ place_ahead at }
        ensures { result ≡ is_end_here galley.now.blocks (view self.now) place }
    {
        self.sums.has_box() && at.is_break(galley, item)
    }

    /// Past a break that is not over.
    pub fn cross(&mut self, style: &Style)
        requires { IsFor style.now self.old }
        ensures value { view self.new ≡ crossed style.now (view self.old) }
        ensures style { IsFor style.now self.new }
        ensures counts { (self.new.sums.count ≡ self.old.sums.count) × (self.new.notes.count ≡ self.old.notes.count) }
    {
        let least = self.least_room(style);
        self.bound = Some(raised(self.bound, least));
    }

    /// The same, where the needs of its place are at hand.
    pub fn cross_with(&mut self, needs: &Needs)
        ensures value { (style : StyleValue) → AreNeeds style (view self.old) needs.now →
            view self.new ≡ crossed style (view self.old) }
        ensures style { (style : StyleValue) → IsFor style self.old → IsFor style self.new }
        ensures counts { (self.new.sums.count ≡ self.old.sums.count) × (self.new.notes.count ≡ self.old.notes.count) }
    {
        self.bound = Some(needs.bound);
    }

    // Past an item.
    fn add(&mut self, style: &Style, item: &Item)
        requires style { IsFor style.now self.old }
        requires range { IsItemInRange item.now }
        requires few { (self.old.sums.count < 2 ^ 20) × (self.old.notes.count < 2 ^ 20) }
        ensures value { view self.new ≡ with_next style.now (view self.old) item.now }
        ensures style { IsFor style.now self.new }
        ensures counts { (self.new.sums.count ≡ self.old.sums.count + 1)
            × (self.new.notes.count ≡ self.old.notes.count + 1) }
    {
        self.sums.add(item);
        self.notes.add(style, item);
    }

    /// Past an item at a place, and past the break before it, if one is there behind a box, which is told. Answers false
    /// exactly where that break is forced; what is kept is then as it was.
    pub fn pass(
        &mut self,
        galley: &Galley,
        style: &Style,
        place: Place,
        is_end: bool,
        item: &Item,
    ) -> bool
        requires style { IsFor style.now self.old }
        requires end { is_end ≡ is_end_here galley.now.blocks (view self.old) place }
        requires range { IsItemInRange item.now }
        requires few { (self.old.sums.count < 2 ^ 20) × (self.old.notes.count < 2 ^ 20) }
        ensures goes { (is_front : Bool) → result ≡ true → pass_item (document galley.now style.now) (view self.old)
            (record { place = place; item = item.now; is_front = is_front }) ≡ Some (view self.new) }
        ensures stops { (is_front : Bool) → result ≡ false → (pass_item (document galley.now style.now) (view self.old)
            (record { place = place; item = item.now; is_front = is_front }) ≡ None) × (self.new ≡ self.old) }
        ensures style { IsFor style.now self.new }
        ensures counts { result ≡ true →
            (self.new.sums.count ≡ self.old.sums.count + 1) × (self.new.notes.count ≡ self.old.notes.count + 1) }
    {
        if is_end {
            if is_forced(galley, place) {
                return false;
            }
            self.cross(style);
        }
        self.add(style, item);
        true
    }
}
