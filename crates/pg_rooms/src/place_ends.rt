//! The ends in the rooms of a place.
ghost use Rattle.std.specs.Prelude.{◌≡◌, ◌++◌, [], true, false, is_some, Contains, IfOk, IfSome, List, ℕ, MatchOption, None, OnOk};
ghost use Rattle.std.specs.List.{AllByRecursion};
ghost use Rattle.pg_list.specs.declared.galley.Place.{Place as APlace};
ghost use Rattle.pg_column.specs.Numbers.{IsRoom};
ghost use Rattle.pg_column.specs.declared.cost.TextRoom.{TextRoom as ATextRoom};
ghost use Rattle.pg_rules.specs.IsState.{IsPlace};
ghost use Rattle.law_walk.specs.Best.{AreBest};
ghost use Rattle.law_walk.specs.Candidates.{AreCandidates, Candidate, has_text as has_text_of, text_ends};
ghost use Rattle.law_walk.specs.Reached.{tallest};
ghost use Rattle.pg_candidates.specs.RoomEnds.{ends_of};
ghost use Rattle.pg_walk.specs.Fronts.{AreApart};
ghost use Rattle.pg_walk.specs.Straight.{Tells, straight_candidates, tallest_room};
ghost use Rattle.pg_rooms.specs.declared.laid.Laid.{Laid as ALaid};
ghost use Rattle.pg_sources.specs.Document.{doc_of};
ghost use Rattle.pg_rooms.specs.Calls.{AreCalls};
ghost use Rattle.pg_rooms.specs.PlaceEnds.{AddsRoom, AreFirst, AreFrontEndsOf, ArePlaceEnds, AreRoomEnds, IsNearOnPages, IsPageRoom, behind_candidates, ends_in as ends_in_of, groups_in as groups_in_of, has_behind, has_room, is_same_room};

use crate::Laid;
use crate::behind::Behind;
use crate::calls::Calls;
use crate::grouping::{Group, group_ends};
use crate::left::ask_behind;
use pg_candidates::{NearList, RoomEnd, has_text};
use pg_column::TextRoom;
use pg_list::Place;
use pg_sources::{PlaceCounts, Sources};
use pg_walk::{FirstWalk, PlaceWalk, StraightEnds, straight_ends};
use std::alloc::{AllocError, Global};
use std::mem;

/// The ends in a room, of the candidates of a place, and their groups.
#[derive(Drop)]
pub struct RoomEnds {
    pub room: TextRoom,
    pub ends: Vec<RoomEnd>,
    pub groups: Vec<Group>,
}

// Whether two rooms have the same size, beside gaps that give the same.
fn is_same(a: &TextRoom, b: &TextRoom) -> bool
    ensures { result ≡ is_same_room a.now b.now }
{
    a.size == b.size && a.give.stretch == b.give.stretch && a.give.shrink == b.give.shrink
}

impl RoomEnds {
    // Whether these are the ends in a room.
    fn is_of(&self, room: &TextRoom) -> bool
        ensures { result ≡ is_same_room self.now.room room.now }
    {
        is_same(&self.room, room)
    }
}

/// What is kept of a place: its walk, the ends in the rooms that were asked for, what is called before them and around the
/// place, and what is kept behind the front up to which the walk goes, where it does not go on itself.
#[derive(Drop)]
pub struct PlaceEnds {
    pub walk: PlaceWalk,
    /// Whether the ends along the first stretch are found room by room, and not among candidates.
    pub is_straight: bool,
    pub rooms: Vec<RoomEnds>,
    pub calls: Calls,
    pub behind: Option<Behind>,
    /// What is called around the place.
    pub counts: PlaceCounts,
}

// What is kept of a room.
fn kept<'a>(rooms: &'a [RoomEnds], room: &TextRoom) -> Option<&'a RoomEnds>
    ensures has { has_room rooms.now room.now ≡ is_some result }
    ensures ends { MatchOption result (ends_in_of rooms.now room.now ≡ [])
        (λ it. ends_in_of rooms.now room.now ≡ it.now.ends.items) }
    ensures groups { MatchOption result (groups_in_of rooms.now room.now ≡ [])
        (λ it. groups_in_of rooms.now room.now ≡ it.now.groups.items) }
{
    let mut rest = rooms;
    'rooms: while let [first, after @ ..] = rest {
        if first.is_of(room) {
            return Some(first);
        }
        rest = after;
    }
    None
}

// Whether the ends in a room are kept.
fn is_kept(rooms: &[RoomEnds], room: &TextRoom) -> bool
    ensures { result ≡ has_room rooms.now room.now }
{
    kept(rooms, room).is_some()
}

// Keeps the ends in a room, in groups, of which the list has none yet.
fn keep_room(
    sources: &Sources<'_>,
    room: &TextRoom,
    ends: Vec<RoomEnd>,
    none: Vec<Group>,
    rooms: &mut Vec<RoomEnds>,
    calls: &mut Calls,
) -> Result<(), AllocError>
    requires { none.items ≡ [] }
    ensures has { OnOk result (has_room rooms.new.items room.now ≡ true) }
    ensures keeps { OnOk result ((other : ATextRoom) → has_room rooms.old.items other ≡ true →
        has_room rooms.new.items other ≡ true) }
    ensures right { OnOk result ((cs : List Candidate) (ps : List (List ℕ)) →
        AreBest (text_ends (doc_of sources.now) room.now cs) (ends_of ps ends.items) →
        IsPageRoom sources.now.style.now room.now → AreCalls (doc_of sources.now) calls.old.items.items →
        AllByRecursion (AreRoomEnds (doc_of sources.now) cs ps) rooms.old.items →
        AllByRecursion (AreRoomEnds (doc_of sources.now) cs ps) rooms.new.items) }
    ensures calls { OnOk result (AreCalls (doc_of sources.now) calls.old.items.items →
        AreCalls (doc_of sources.now) calls.new.items.items) }
{
    let groups = group_ends(sources, calls, ends.as_slice(), none)?;
    rooms.push(RoomEnds {
        room: *room,
        ends,
        groups,
    })?;
    Ok(())
}

// Works out the ends in a room from candidates. A function of its own, since few rooms that are asked for come to it.
#[inline(never)]
fn make_room(
    sources: &Sources<'_>,
    near: &NearList,
    room: &TextRoom,
    rooms: &mut Vec<RoomEnds>,
    calls: &mut Calls,
) -> Result<(), AllocError>
    requires { IsRoom room.now }
    ensures { OnOk result (AddsRoom (doc_of sources.now) near.now room.now rooms.old.items rooms.new.items
        calls.old.items.items calls.new.items.items) }
{
    let ends = near.text_ends(sources.alloc, sources.style, room)?;
    keep_room(sources, room, ends, Vec::new(sources.alloc), rooms, calls)
}

/// Works out the ends in a room from candidates, where they are not kept yet.
#[inline(always)]
pub(crate) fn add_room(
    sources: &Sources<'_>,
    near: &NearList,
    room: &TextRoom,
    rooms: &mut Vec<RoomEnds>,
    calls: &mut Calls,
) -> Result<(), AllocError>
    requires { IsRoom room.now }
    ensures has { OnOk result (has_room rooms.new.items room.now ≡ true) }
    ensures keeps { OnOk result ((other : ATextRoom) → has_room rooms.old.items other ≡ true →
        has_room rooms.new.items other ≡ true) }
    ensures right { OnOk result ((cs : List Candidate) → IsNearOnPages (doc_of sources.now) cs near.now →
        IsPageRoom sources.now.style.now room.now → AreCalls (doc_of sources.now) calls.old.items.items →
        AllByRecursion (AreRoomEnds (doc_of sources.now) cs near.now.picks) rooms.old.items →
        AllByRecursion (AreRoomEnds (doc_of sources.now) cs near.now.picks) rooms.new.items) }
    ensures calls { OnOk result (AreCalls (doc_of sources.now) calls.old.items.items →
        AreCalls (doc_of sources.now) calls.new.items.items) }
{
    if is_kept(rooms.as_slice(), room) {
        return Ok(());
    }
    make_room(sources, near, room, rooms, calls)
}

// Works out the ends in a room along the first stretch from a place by a walk, where they are not kept yet.
fn add_straight(
    sources: &Sources<'_>,
    from: Place,
    room: &TextRoom,
    rooms: &mut Vec<RoomEnds>,
    calls: &mut Calls,
) -> Result<(), AllocError>
    requires place { IsPlace sources.now.galley.now.blocks from }
    requires room { IsRoom room.now }
    ensures has { OnOk result (has_room rooms.new.items room.now ≡ true) }
    ensures keeps { OnOk result ((other : ATextRoom) → has_room rooms.old.items other ≡ true →
        has_room rooms.new.items other ≡ true) }
    ensures right { OnOk result (IsPageRoom sources.now.style.now room.now →
        AreCalls (doc_of sources.now) calls.old.items.items →
        AllByRecursion (AreRoomEnds (doc_of sources.now) (straight_candidates (doc_of sources.now) from) []) rooms.old.items →
        AllByRecursion (AreRoomEnds (doc_of sources.now) (straight_candidates (doc_of sources.now) from) [])
        rooms.new.items) }
    ensures calls { OnOk result (AreCalls (doc_of sources.now) calls.old.items.items →
        AreCalls (doc_of sources.now) calls.new.items.items) }
{
    if is_kept(rooms.as_slice(), room) {
        return Ok(());
    }
    let straight = straight_ends(sources.alloc, sources.galley, sources.style, from, room)?;
    keep_room(
        sources,
        room,
        straight.ends,
        Vec::new(sources.alloc),
        rooms,
        calls,
    )
}

// The list of ends of the last room, taken out for its memory, without its ends.
fn emptied_ends(rooms: &mut Vec<RoomEnds>) -> Vec<RoomEnd>
    ensures { result.items ≡ [] }
{
    let alloc = *rooms.allocator();
    let Some(last) = rooms.last_mut() else {
        return Vec::new(alloc);
    };
    let mut ends = mem::replace(&mut last.ends, Vec::new(alloc));
    ends.clear();
    ends
}

// The list of groups of the last room, taken out for its memory, without its groups.
fn emptied_groups(rooms: &mut Vec<RoomEnds>) -> Vec<Group>
    ensures { result.items ≡ [] }
{
    let alloc = *rooms.allocator();
    let Some(last) = rooms.last_mut() else {
        return Vec::new(alloc);
    };
    let mut groups = mem::replace(&mut last.groups, Vec::new(alloc));
    groups.clear();
    groups
}

// Keeps the ends in the one room of the style, where the first stretch tells them, in place of those of another place.
fn begin_rooms(
    sources: &Sources<'_>,
    straight: Option<StraightEnds>,
    rooms: &mut Vec<RoomEnds>,
    calls: &mut Calls,
) -> Result<(), AllocError>
    ensures none { OnOk result (straight ≡ None → rooms.new.items ≡ []) }
    ensures right { OnOk result ((cs : List Candidate) → IfSome straight (λ it.
        (it.room ≡ tallest_room sources.now.style.now)
        × AreBest (text_ends (doc_of sources.now) it.room cs) (ends_of [] it.ends.items)) →
        AreCalls (doc_of sources.now) calls.old.items.items →
        AllByRecursion (AreRoomEnds (doc_of sources.now) cs []) rooms.new.items) }
    ensures calls { OnOk result (AreCalls (doc_of sources.now) calls.old.items.items →
        AreCalls (doc_of sources.now) calls.new.items.items) }
{
    sources.style.stays_in_range();
    let none = emptied_groups(rooms);
    rooms.clear();
    let Some(StraightEnds { room, ends }) = straight else {
        return Ok(());
    };
    keep_room(sources, &room, ends, none, rooms, calls)
}

// The place where columns begin, whether the ends along the first stretch are found room by room, and else the candidates
// among which they are.
#[derive(Clone, Copy)]
struct FirstStretch<'a> {
    from: Place,
    is_straight: bool,
    near: &'a NearList,
}

// Works out the ends in a room that is not below the least one, where they are not kept yet: by a walk, or from candidates.
fn ask_room(
    sources: &Sources<'_>,
    first: &FirstStretch<'_>,
    room: &TextRoom,
    rooms: &mut Vec<RoomEnds>,
    calls: &mut Calls,
) -> Result<(), AllocError>
    requires place { IsPlace sources.now.galley.now.blocks first.now.from }
    requires room { IsRoom room.now }
    ensures has { OnOk result (has_text_of sources.now.style.now room.now ≡ true →
        has_room rooms.new.items room.now ≡ true) }
    ensures keeps { OnOk result ((other : ATextRoom) → has_room rooms.old.items other ≡ true →
        has_room rooms.new.items other ≡ true) }
    ensures right { OnOk result ((cs : List Candidate) →
        AreFirst (doc_of sources.now) first.now.from cs first.now.is_straight first.now.near.now →
        IsPageRoom sources.now.style.now room.now → AreCalls (doc_of sources.now) calls.old.items.items →
        AllByRecursion (AreRoomEnds (doc_of sources.now) cs first.now.near.now.picks) rooms.old.items →
        AllByRecursion (AreRoomEnds (doc_of sources.now) cs first.now.near.now.picks) rooms.new.items) }
    ensures calls { OnOk result (AreCalls (doc_of sources.now) calls.old.items.items →
        AreCalls (doc_of sources.now) calls.new.items.items) }
{
    if !has_text(sources.style, room) {
        return Ok(());
    }
    if first.is_straight {
        return add_straight(sources, first.from, room, rooms, calls);
    }
    add_room(sources, first.near, room, rooms, calls)
}

// Works out the ends in the rooms of layouts that are not below the least one, where they are not kept yet.
fn add_rooms(
    sources: &Sources<'_>,
    first: &FirstStretch<'_>,
    laid: &[Laid],
    rooms: &mut Vec<RoomEnds>,
    calls: &mut Calls,
) -> Result<(), AllocError>
    requires place { IsPlace sources.now.galley.now.blocks first.now.from }
    requires small { AllByRecursion (λ (it : ALaid). IsRoom it.room) laid.now }
    ensures has { OnOk result ((it : ALaid) → Contains laid.now it → has_text_of sources.now.style.now it.room ≡ true →
        has_room rooms.new.items it.room ≡ true) }
    ensures right { OnOk result ((cs : List Candidate) →
        AreFirst (doc_of sources.now) first.now.from cs first.now.is_straight first.now.near.now →
        AllByRecursion (λ (it : ALaid). IsPageRoom sources.now.style.now it.room) laid.now →
        AreCalls (doc_of sources.now) calls.old.items.items →
        AllByRecursion (AreRoomEnds (doc_of sources.now) cs first.now.near.now.picks) rooms.old.items →
        AllByRecursion (AreRoomEnds (doc_of sources.now) cs first.now.near.now.picks) rooms.new.items) }
    ensures calls { OnOk result (AreCalls (doc_of sources.now) calls.old.items.items →
        AreCalls (doc_of sources.now) calls.new.items.items) }
{
    for it in laid {
        ask_room(sources, first, &it.room, rooms, calls)?;
    }
    Ok(())
}

/// The groups of the ends in a room, and these ends; none of them where they are not kept.
pub fn room_in<'a>(rooms: &'a [RoomEnds], room: &TextRoom) -> (&'a [Group], &'a [RoomEnd])
    ensures groups { result.0.now ≡ groups_in_of rooms.now room.now }
    ensures ends { result.1.now ≡ ends_in_of rooms.now room.now }
{
    match kept(rooms, room) {
        Some(it) => (it.groups.as_slice(), it.ends.as_slice()),
        None => (&[], &[]),
    }
}

impl PlaceEnds {
    /// A walk, with no room asked for, calls of any places, and the counts at the place. No memory is taken.
    pub fn new(alloc: Global, walk: PlaceWalk, calls: Calls, counts: PlaceCounts) -> PlaceEnds
        ensures walk { result.walk ≡ walk }
        ensures listed { result.is_straight ≡ false }
        ensures rooms { result.rooms.items ≡ [] }
        ensures calls { result.calls ≡ calls }
        ensures behind { result.behind ≡ None }
        ensures counts { result.counts ≡ counts }
    {
        PlaceEnds {
            walk,
            is_straight: false,
            rooms: Vec::new(alloc),
            calls,
            behind: None,
            counts,
        }
    }

    /// The list of ends of a room, taken out for its memory, without its ends: where what is kept goes on to another place, the
    /// ends there may stand in it.
    pub fn take_ends(&mut self) -> Vec<RoomEnd>
        ensures none { result.items ≡ [] }
        ensures calls { self.new.calls ≡ self.old.calls }
        ensures behind { self.new.behind ≡ self.old.behind }
    {
        emptied_ends(&mut self.rooms)
    }

    /// Takes out what is kept behind the front.
    pub fn take_behind(&mut self) -> Option<Behind>
        ensures behind { result ≡ self.old.behind }
        ensures none { self.new.behind ≡ None }
        ensures calls { self.new.calls ≡ self.old.calls }
    {
        // little is moved where nothing is kept
        if self.behind.is_none() {
            return None;
        }
        self.behind.take()
    }

    /// Takes what is kept behind the front to which columns from the next place come.
    pub fn put_behind(&mut self, behind: Behind)
        ensures behind { self.new.behind ≡ Some behind }
        ensures calls { self.new.calls ≡ self.old.calls }
    {
        self.behind = Some(behind);
    }

    /// Goes on to a place: keeps what the first stretch from there tells, and the counts there, beside what is kept behind the
    /// front and calls of any places. The one refusal is want of memory.
    pub fn go_on(
        &mut self,
        sources: &Sources<'_>,
        first: FirstWalk,
        reach: u32,
        counts: PlaceCounts,
    ) -> Result<(), AllocError>
        ensures reach { OnOk result (self.new.walk.reach ≡ reach) }
        ensures counts { OnOk result (self.new.counts ≡ counts) }
        ensures right { OnOk result ((from : APlace) (cs ds : List Candidate) → Tells (doc_of sources.now) from cs first →
            AreCandidates (doc_of sources.now) from (tallest sources.now.style.now)
            (cs ++ behind_candidates self.old.behind ds) → AreApart cs (behind_candidates self.old.behind ds) →
            AreCalls (doc_of sources.now) self.old.calls.items.items →
            IfSome self.old.behind (λ it. AreFrontEndsOf (doc_of sources.now) ds it.ends) →
            ArePlaceEnds (doc_of sources.now) from self.new) }
    {
        let FirstWalk { near, straight, .. } = first;
        self.is_straight = straight.is_some();
        self.walk = PlaceWalk { near, reach };
        self.counts = counts;
        begin_rooms(sources, straight, &mut self.rooms, &mut self.calls)
    }

    /// Works out the ends in the rooms of layouts that are not below the least one, where they are not kept yet.
    ///
    /// Conditions: the place is the one of which this is kept, and the numbers of each room are below 2^40 in size. The one
    /// refusal is want of memory.
    pub fn ask_all(
        &mut self,
        sources: &Sources<'_>,
        from: Place,
        laid: &[Laid],
    ) -> Result<(), AllocError>
        requires place { IsPlace sources.now.galley.now.blocks from }
        requires small { AllByRecursion (λ (it : ALaid). IsRoom it.room) laid.now }
        ensures walk { OnOk result (self.new.walk ≡ self.old.walk) }
        ensures counts { OnOk result (self.new.counts ≡ self.old.counts) }
        ensures has { OnOk result ((it : ALaid) → Contains laid.now it → has_text_of sources.now.style.now it.room ≡ true →
            has_room self.new.rooms.items it.room ≡ true) }
        ensures behind { OnOk result ((it : ALaid) → Contains laid.now it → has_text_of sources.now.style.now it.room ≡ true →
            has_behind self.new.behind it.room ≡ true) }
        ensures right { OnOk result (
            AllByRecursion (λ (it : ALaid). IsPageRoom sources.now.style.now it.room) laid.now →
            ArePlaceEnds (doc_of sources.now) from self.old → ArePlaceEnds (doc_of sources.now) from self.new) }
    {
        let first = FirstStretch {
            from,
            is_straight: self.is_straight,
            near: &self.walk.near,
        };
        add_rooms(sources, &first, laid, &mut self.rooms, &mut self.calls)?;
        ask_behind(sources, laid, &mut self.behind, &mut self.calls)
    }
}
