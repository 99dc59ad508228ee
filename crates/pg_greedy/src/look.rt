//! A look ahead for the end of a page, in which the best break so far is kept.
ghost use Rattle.std.specs.Prelude.{◌≡◌, ◌<◌, ◌≤◌, ◌+◌, ◌^◌, ℕ, List, length, nat_abs, IfSome, Some, option_copied, slice_get};
ghost use Rattle.pg_list.specs.Places.{place};
ghost use Rattle.pg_list.specs.Ranges.{IsItemInRange};
ghost use Rattle.pg_list.specs.declared.item.Item.{Item as AnItem};
ghost use Rattle.pg_style.specs.Values.{StyleValue};
ghost use Rattle.pg_greedy.specs.Ahead.{better as better_of, taken};
ghost use Rattle.pg_greedy.specs.Breaks.{break_cost as break_cost_of};
ghost use Rattle.pg_greedy.specs.FirstFit.{Takes};
ghost use Rattle.pg_greedy.specs.Looking.{AreRead, IsBuilder, IsLook, IsPriced, counted, items_from, judged_at, seen_penalty, style_of};

use crate::judged::{Judged, judge_break};
use crate::read::Read;
use pg_breaks::{break_cost, is_spent};
use pg_column::blocks_of;
use pg_list::{Galley, Item, Place};
use pg_notes::front_has_no_notes;
use pg_scaled::minus;
use pg_style::Style;

/// A galley without choices, a style, and the room of its run 0.
#[derive(Clone, Copy)]
pub struct Builder<'a> {
    pub galley: &'a Galley,
    pub style: &'a Style,
    pub room: i64,
}

/// A break that was looked at: what it costs, and how many items stand before it.
#[derive(Clone, Copy)]
pub struct Candidate {
    pub cost: i64,
    pub count: u32,
}

/// What a look at one place comes to.
#[derive(Clone, Copy)]
pub enum Looked {
    /// The look goes on, with the best break so far.
    GoesOn(Option<Candidate>),
    /// The look ends, and the page takes so many items.
    Ends(u32),
}

/// Where a block begins.
pub fn place_at(block: u32) -> Place
    ensures { result ≡ place block 0 0 }
{
    Place {
        block,
        variant: 0,
        index: 0,
    }
}

// The better of the best break so far and a later one, which is taken where it costs no more.
fn better(best: Option<Candidate>, judged: &Judged, count: u32) -> Candidate
    ensures count { (style : StyleValue) (items : List AnItem) → IsPriced style items best →
        judged.now.cost ≡ break_cost_of style items count → result.count ≡ better_of style items (counted best) count }
    ensures cost { (style : StyleValue) (items : List AnItem) → IsPriced style items best →
        judged.now.cost ≡ break_cost_of style items count → result.cost ≡ break_cost_of style items result.count }
{
    if let Some(kept) = best {
        if kept.cost < judged.cost {
            return kept;
        }
    }
    Candidate {
        cost: judged.cost,
        count,
    }
}

impl<'a> Builder<'a> {
    // The number of blocks.
    fn end(&self) -> u32
        ensures value { result ≡ length self.now.galley.now.blocks }
        ensures few { result ≤ 2 ^ 20 }
    {
        blocks_of(self.galley).len() as u32
    }

    // The penalty of the break behind so many items of a page; the end is as good as an ejected page.
    fn penalty(&self, from: u32, count: u32) -> Option<i64>
        requires builder { IsBuilder self.now }
        requires within { from + count ≤ length self.now.galley.now.blocks }
        ensures value { 1 ≤ count → result ≡ seen_penalty (items_from self.now from) count }
        ensures small { IfSome result (λ penalty. nat_abs penalty < 2 ^ 32) }
    {
        let end = self.end();
        let penalty = break_cost(self.galley, place_at(from + count))?;
        if from + count == end {
            Some(-10000)
        } else {
            Some(i64::from(penalty))
        }
    }

    // What the break behind the items read so far costs, where it is one behind a box.
    fn judge(&self, from: u32, read: &Read) -> Option<Judged>
        requires builder { IsBuilder self.now }
        requires within { from + read.now.count ≤ length self.now.galley.now.blocks }
        requires read { AreRead (style_of self.now) (items_from self.now from) read.now }
        ensures { result ≡ judged_at (style_of self.now) (items_from self.now from) read.now.count }
    {
        let _end = self.end();
        front_has_no_notes();
        if !read.sums.has_box() {
            return None;
        }
        let penalty = self.penalty(from, read.count)?;
        let goal = minus(self.room, read.notes.height(self.style));
        let give = read.notes.give(self.style);
        let is_spent = is_spent(self.galley, place_at(from + read.count));
        Some(judge_break(&read.sums, goal, &give, penalty, is_spent))
    }

    // Looks at the break behind the items read so far.
    fn look_at(&self, from: u32, read: &Read, best: Option<Candidate>) -> Looked
        requires builder { IsBuilder self.now }
        requires within { from + read.now.count ≤ length self.now.galley.now.blocks }
        requires read { AreRead (style_of self.now) (items_from self.now from) read.now }
        requires priced { IsPriced (style_of self.now) (items_from self.now from) best }
        ensures { IsLook (style_of self.now) (items_from self.now from) read.now.count best result }
    {
        let Some(judged) = self.judge(from, read) else {
            return Looked::GoesOn(best);
        };
        let found = better(best, &judged, read.count);
        if judged.stops {
            Looked::Ends(found.count)
        } else {
            Looked::GoesOn(Some(found))
        }
    }

    // The item behind so many others of a page.
    fn item(&self, from: u32, count: u32) -> Option<&'a Item>
        requires builder { IsBuilder self.now }
        requires within { from + count ≤ length self.now.galley.now.blocks }
        ensures item { option_copied result ≡ slice_get (items_from self.now from) count }
        ensures range { IfSome result (λ item. IsItemInRange item.now) }
        ensures few { IfSome result (λ item. count < 2 ^ 20) }
    {
        // hands on the ranges of the blocks
        let _shaped = blocks_of(self.galley);
        self.galley.item_at(place_at(from + count))
    }

    // How many items the page takes that begins at a block.
    fn look_ahead(&self, from: u32) -> u32
        requires builder { IsBuilder self.now }
        requires within { from ≤ length self.now.galley.now.blocks }
        ensures { result ≡ taken (style_of self.now) (items_from self.now from) }
    {
        let mut read = Read::start(self.style);
        let mut best: Option<Candidate> = None;
        'items: while let Some(item) = self.item(from, read.count) {
            match self.look_at(from, &read, best) {
                Looked::Ends(count) => return count,
                Looked::GoesOn(kept) => best = kept,
            }
            read.add(self.style, item);
        }
        match self.look_at(from, &read, best) {
            Looked::Ends(count) => count,
            Looked::GoesOn(Some(kept)) => kept.count,
            Looked::GoesOn(None) => read.count,
        }
    }

    /// How many items the page takes that begins at a block: those before the last of the looked-at breaks with the
    /// least cost, or all where no break follows a box.
    pub fn take_page(&self, from: u32) -> u32
        requires builder { IsBuilder self.now }
        requires within { from ≤ length self.now.galley.now.blocks }
        ensures takes { Takes (style_of self.now) (items_from self.now from) result }
        ensures within { from + result ≤ length self.now.galley.now.blocks }
        ensures few { from + result ≤ 2 ^ 20 }
    {
        let _end = self.end();
        self.look_ahead(from)
    }
}
