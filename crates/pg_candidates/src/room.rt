//! The ends in a room among candidates.
ghost use Rattle.std.specs.Prelude.{◌≡◌, ◌<◌, ◌^◌, ◌≤ℤ◌, ◌-ℤ◌, ◌||◌, ◌++◌, ◌∷◌, [], ℤ, List, false, int_lt, map, nat_le, OnOk, IfOk, IfSome, nat_abs};
ghost use Rattle.std.specs.List.{AllByRecursion};
ghost use Rattle.std.specs.Rc.{rc_value};
ghost use Rattle.pg_list.specs.GalleyValue.{GalleyValue};
ghost use Rattle.pg_list.specs.declared.galley.Place.{Place as APlace};
ghost use Rattle.pg_column.specs.Numbers.{IsRoom, cost_for as cost_for_goal, most_room};
ghost use Rattle.pg_style.specs.Plain.{plus_give};
ghost use Rattle.pg_style.specs.Values.{StyleValue};
ghost use Rattle.pg_column.specs.Ends.{AreEnds};
ghost use Rattle.pg_rules.specs.Legal.{document};
ghost use Rattle.law_walk.specs.Best.{AreBest};
ghost use Rattle.law_walk.specs.Candidates.{AreCandidates, Candidate as ACandidate, has_text as has_text_of, kept_ends, text_ends};
ghost use Rattle.pg_candidates.specs.Alone.{AreTaken};
ghost use Rattle.pg_candidates.specs.Nears.{AreNear, ArePicks, all_picks, IsNear, IsNearIn, IsWithin, IsWorstCost, needed_in, needed_of};
ghost use Rattle.pg_candidates.specs.RoomEnds.{end_by, ends_of, picks_at};
ghost use Rattle.pg_candidates.specs.Taken.{IsPlain};
ghost use Rattle.pg_candidates.specs.View.{candidate_of};

use crate::all_rooms::AllRooms;
use crate::best::keep_best;
use crate::candidate::{Candidate, CandidateList};
use crate::kind::EndKind;
use crate::making::nears_of;
use crate::near::{Near, NearList};
use crate::room_end::{RoomEnd, all_with_picks};
use law_walk::laws::candidates_give_ends;
use pg_column::{EndList, TextCost, TextRoom, cost_for};
use pg_list::Galley;
use pg_plan::Picks;
use pg_scaled::minus;
use pg_style::{Give, Style};
use std::alloc::{AllocError, Global};
use std::rc::Rc;

// For how many ends there is room at once: few rooms have more.
const ROOM: usize = 256;

// What the notes of a candidate leave of a room.
fn goal_of(room: &TextRoom, near: &Near) -> i64
    requires { IsRoom room.now }
    ensures value { result ≡ room.now.size -ℤ near.now.notes }
    ensures size { nat_abs result < 2 ^ 52 }
{
    minus(room.size, near.notes)
}

// What the gaps around a candidate's text give in a room.
fn give_of(room: &TextRoom, near: &Near) -> Give
    requires { IsRoom room.now }
    ensures value { result ≡ plus_give room.now.give near.now.give }
    ensures size { (nat_abs result.stretch < 2 ^ 62) × (nat_abs result.shrink < 2 ^ 62) }
{
    room.give.plus(near.give)
}

// Whether an end is forced or the badness within the tolerance.
pub(crate) fn is_tolerable(style: &Style, kind: EndKind, badness: u16) -> bool
    ensures { result ≡ (kind.is_forced || nat_le badness style.now.tolerance) }
{
    kind.is_forced || badness <= style.tolerance
}

// The numbers of a candidate in a room.
fn cost_of(style: &Style, room: &TextRoom, near: &Near) -> TextCost
    requires { IsRoom room.now }
    ensures { (most : ℤ) → room.now.give.stretch ≤ℤ most →
        IfSome near.now.worst (IsWorstCost style.now most near.now.kind near.now.totals near.now.give) →
        result ≡ cost_for_goal style.now (room.now.size -ℤ near.now.notes) (plus_give room.now.give near.now.give)
        near.now.totals near.now.kind.is_spent near.now.kind.penalty }
{
    let goal = goal_of(room, near);
    match near.worst_at(goal) {
        Some(cost) => cost,
        None => cost_for(
            style,
            goal,
            &give_of(room, near),
            &near.sums,
            near.kind.is_spent,
            near.kind.penalty,
        ),
    }
}

// The end of a candidate with these numbers.
fn end_with(near: &Near, cost: TextCost) -> RoomEnd
    ensures { result ≡ end_by near.now cost }
{
    RoomEnd {
        to: near.to,
        at: near.at,
        cost,
        pick_demerits: near.pick_demerits,
    }
}

// Adds the end of the candidate that this is of, where it keeps the rules on its text in a room that is not below its least
// one and no end there is better.
fn keep_end(
    style: &Style,
    room: &TextRoom,
    listed: &[Rc<Picks>],
    near: &Near,
    ends: &mut Vec<RoomEnd>,
) -> Result<(), AllocError>
    requires size { IsRoom room.now }
    requires high { int_lt (most_room room.now) near.now.least ≡ false }
    ensures { OnOk result ((g : GalleyValue) (most : ℤ) → room.now.give.stretch ≤ℤ most → (cs : List ACandidate)
        (c : ACandidate) → picks_at (map rc_value listed.now) near.now.at ≡ c.picks →
        IsNear (document g style.now) most c near.now →
        AreBest (text_ends (document g style.now) room.now cs)
        (ends_of (map rc_value listed.now) ends.old.items) →
        AreBest (text_ends (document g style.now) room.now (cs ++ c ∷ []))
        (ends_of (map rc_value listed.now) ends.new.items)) }
{
    let cost = cost_of(style, room, near);
    if !is_tolerable(style, near.kind, cost.badness) {
        return Ok(());
    }
    keep_best(listed, ends, end_with(near, cost))
}

// Adds the end of the candidate that this is of, where it is needed in a room.
fn keep_near(
    style: &Style,
    room: &TextRoom,
    listed: &[Rc<Picks>],
    near: &Near,
    ends: &mut Vec<RoomEnd>,
) -> Result<(), AllocError>
    requires size { IsRoom room.now }
    ensures { OnOk result ((g : GalleyValue) (most : ℤ) → room.now.give.stretch ≤ℤ most → (cs ds : List ACandidate) →
        ArePicks ds (map rc_value listed.now) → IsNearIn (document g style.now) most ds near.now →
        AreBest (text_ends (document g style.now) room.now cs)
        (ends_of (map rc_value listed.now) ends.old.items) →
        AreBest (text_ends (document g style.now) room.now
        (cs ++ needed_of room.now.size ds near.now))
        (ends_of (map rc_value listed.now) ends.new.items)) }
{
    if near.is_too_low(room) {
        return Ok(());
    }
    if !near.is_needed(room) {
        return Ok(());
    }
    keep_end(style, room, listed, near, ends)
}

/// Whether a room is at least the style's least.
pub fn has_text(style: &Style, room: &TextRoom) -> bool
    ensures { result ≡ has_text_of style.now room.now }
{
    i64::from(style.min_text) <= room.size
}

impl NearList {
    /// The ends in a room of the columns that keep the rules on their text however low the room is, best for each place and
    /// fitness, each with the number of its candidate.
    ///
    /// Condition: the numbers of the room are below 2^40 in size. The one refusal is want of memory.
    pub fn text_ends(
        &self,
        alloc: Global,
        style: &Style,
        room: &TextRoom,
    ) -> Result<Vec<RoomEnd>, AllocError>
        requires { IsRoom room.now }
        ensures best { IfOk result (λ ends. (g : GalleyValue) (most : ℤ) → room.now.give.stretch ≤ℤ most →
            (cs : List ACandidate) → ArePicks cs self.now.picks →
            AllByRecursion (IsNearIn (document g style.now) most cs) self.now.nears →
            AreBest (text_ends (document g style.now) room.now (needed_in room.now.size cs self.now.nears))
            (ends_of self.now.picks ends.items)) }
    {
        let listed = self.picks.as_slice();
        let mut ends = Vec::with_capacity(alloc, self.nears.len().min(ROOM))?;
        'each: for near in self.nears.as_slice() {
            keep_near(style, room, listed, near, &mut ends)?;
        }
        Ok(ends)
    }

    /// The ends in a room of the columns from the place whose candidates these are: for each place and fitness the best of
    /// those that keep the rules on one column, each with the number of its candidate. Of candidates that suffice up to a
    /// greatest room they are all ends in each room up to it, where the gaps of its areas are shrunk, and stretched by no
    /// more than was told when the list was made.
    ///
    /// Condition: the numbers of the room are below 2^40 in size. The one refusal is want of memory.
    pub fn room_ends(
        &self,
        alloc: Global,
        galley: &Galley,
        style: &Style,
        room: &TextRoom,
    ) -> Result<Vec<RoomEnd>, AllocError>
        requires { IsRoom room.now }
        ensures best { IfOk result (λ ends. (most : ℤ) → room.now.give.stretch ≤ℤ most → (cs : List ACandidate) →
            ArePicks cs self.now.picks →
            AllByRecursion (IsNearIn (document galley.now style.now) most cs) self.now.nears →
            AreBest (kept_ends (document galley.now style.now) room.now (needed_in room.now.size cs self.now.nears))
            (ends_of self.now.picks ends.items)) }
        ensures ends { IfOk result (λ ends. (from : APlace) (top most : ℤ) (cs : List ACandidate) →
            AreNear (document galley.now style.now) most cs self.now → IsWithin most room.now →
            most_room room.now ≤ℤ top → AreCandidates (document galley.now style.now) from top cs →
            AreEnds (document galley.now style.now) from room.now (ends_of self.now.picks ends.items)) }
    {
        style.stays_in_range();
        let _ = galley.blocks().as_slice();
        candidates_give_ends(galley, style);
        if !has_text(style, room) {
            return Ok(Vec::new(alloc));
        }
        self.text_ends(alloc, style, room)
    }

    /// The same ends with their picks.
    ///
    /// Condition: the numbers of the room are below 2^40 in size. The one refusal is want of memory.
    pub fn ends_in(
        &self,
        alloc: Global,
        galley: &Galley,
        style: &Style,
        room: &TextRoom,
    ) -> Result<EndList, AllocError>
        requires { IsRoom room.now }
        ensures best { IfOk result (λ ends. (most : ℤ) → room.now.give.stretch ≤ℤ most → (cs : List ACandidate) →
            ArePicks cs self.now.picks →
            AllByRecursion (IsNearIn (document galley.now style.now) most cs) self.now.nears →
            AreBest (kept_ends (document galley.now style.now) room.now (needed_in room.now.size cs self.now.nears))
            ends) }
        ensures ends { IfOk result (λ ends. (from : APlace) (top most : ℤ) (cs : List ACandidate) →
            AreNear (document galley.now style.now) most cs self.now → IsWithin most room.now →
            most_room room.now ≤ℤ top → AreCandidates (document galley.now style.now) from top cs →
            AreEnds (document galley.now style.now) from room.now ends) }
    {
        let ends = self.room_ends(alloc, galley, style, room)?;
        all_with_picks(alloc, self.picks.as_slice(), ends.as_slice())
    }
}

// The picks of each candidate, shared with it.
fn picks_of_all(alloc: Global, candidates: &[Candidate]) -> Result<Vec<Rc<Picks>>, AllocError>
    ensures { IfOk result (λ listed. map rc_value listed.items ≡ all_picks (map candidate_of candidates.now)) }
{
    let mut picks = Vec::with_capacity(alloc, candidates.len())?;
    for candidate in candidates {
        picks.push(Rc::clone(&candidate.picks)?)?;
    }
    Ok(picks)
}

impl CandidateList {
    /// What the rooms share: these candidates, with what no room changes of each, in an order in which their ends stand.
    /// In each room the ends of those that are needed there suffice, where the gaps of its areas are stretched by no more
    /// than `most` says.
    ///
    /// Condition: that is below 2^40 in size. The one refusal is want of memory.
    pub fn into_near(
        self,
        alloc: Global,
        galley: &Galley,
        style: &Style,
        most: &Give,
    ) -> Result<NearList, AllocError>
        requires { nat_abs most.now.stretch < 2 ^ 40 }
        ensures { IfOk result (AreNear (document galley.now style.now) most.now.stretch self) }
    {
        let nears = nears_of(alloc, galley, style, most, self.as_slice())?;
        let picks = picks_of_all(alloc, self.as_slice())?;
        Ok(NearList { picks, nears })
    }
}

impl AllRooms<'_> {
    /// What no room changes of the candidates that were taken, none of which has picks.
    pub fn into_near(self) -> NearList
        ensures { (style : StyleValue) (cs : List ACandidate) → AllByRecursion IsPlain cs →
            AreTaken style cs self.entry →
            AreNear (document self.entry.galley.now style) self.entry.most.stretch cs result }
    {
        NearList {
            picks: Vec::new(*self.nears.allocator()),
            nears: self.nears,
        }
    }
}
