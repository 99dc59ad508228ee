//! The ends behind a front, in what rooms leave there.
ghost use Rattle.std.specs.Prelude.{◌≡◌, ◌≤ℤ◌, ◌+ℤ◌, ◌^◌, true, pos, Contains, IfSome, List, OnOk, Some};
ghost use Rattle.std.specs.List.{AllByRecursion};
ghost use Rattle.pg_column.specs.Numbers.{IsRoom};
ghost use Rattle.pg_column.specs.Passed.{fits};
ghost use Rattle.pg_column.specs.declared.cost.TextRoom.{TextRoom as ATextRoom};
ghost use Rattle.pg_rooms.specs.declared.laid.Laid.{Laid as ALaid};
ghost use Rattle.pg_sources.specs.Document.{doc_of};
ghost use Rattle.law_walk.specs.Candidates.{Candidate, has_text as has_text_of};
ghost use Rattle.pg_rooms.specs.Calls.{AreCalls};
ghost use Rattle.pg_rooms.specs.PlaceEnds.{AreFrontEndsOf, IsPageRoom, IsSameBehind, behind_candidates, has_behind, room_behind as room_behind_of};

use crate::Laid;
use crate::behind::Behind;
use crate::calls::Calls;
use crate::place_ends::add_room;
use pg_candidates::has_text;
use pg_column::TextRoom;
use pg_scaled::{minus, plus};
use pg_sources::Sources;
use std::alloc::AllocError;

impl Behind {
    // Whether a column comes to the front in a room, the gaps of its areas shrunk.
    fn comes_in(&self, room: i64) -> bool
        ensures { result ≡ fits self.now.bound room }
    {
        match self.bound {
            Some(least) => least <= room,
            None => true,
        }
    }

    /// What a room leaves behind the front, if a column comes there in it.
    ///
    /// Condition: the numbers of the room are below 2^40 in size.
    pub fn room_behind(&self, room: &TextRoom) -> Option<TextRoom>
        requires { IsRoom room.now }
        ensures value { result ≡ room_behind_of self.now room.now }
        ensures small { pos 0 ≤ℤ (room.now.size +ℤ pos (2 ^ 31)) → IfSome result IsRoom }
    {
        if !self.comes_in(plus(room.size, room.give.shrink)) {
            return None;
        }
        Some(TextRoom {
            size: minus(room.size, self.by),
            give: room.give,
        })
    }
}

// Works out the ends behind a front in what a room leaves there that is not below the least one, where they are not kept
// yet.
fn ask_left(
    sources: &Sources<'_>,
    room: &TextRoom,
    behind: &mut Behind,
    calls: &mut Calls,
) -> Result<(), AllocError>
    requires { IsRoom room.now }
    ensures has { OnOk result (has_text_of sources.now.style.now room.now ≡ true →
        has_behind (Some behind.new) room.now ≡ true) }
    ensures keeps { OnOk result ((other : ATextRoom) → has_behind (Some behind.old) other ≡ true →
        has_behind (Some behind.new) other ≡ true) }
    ensures right { OnOk result ((cs : List Candidate) → IsPageRoom sources.now.style.now room.now →
        AreCalls (doc_of sources.now) calls.old.items.items →
        AreFrontEndsOf (doc_of sources.now) cs behind.old.ends → AreFrontEndsOf (doc_of sources.now) cs behind.new.ends) }
    ensures same { OnOk result (IsSameBehind behind.old behind.new) }
    ensures calls { OnOk result (AreCalls (doc_of sources.now) calls.old.items.items →
        AreCalls (doc_of sources.now) calls.new.items.items) }
{
    if !has_text(sources.style, room) {
        return Ok(());
    }
    sources.style.stays_in_range();
    let Some(left) = behind.room_behind(room) else {
        return Ok(());
    };
    let near = &behind.ends.walk.near;
    add_room(sources, near, &left, &mut behind.ends.rooms, calls)
}

// The same in what the rooms of layouts leave there.
fn add_behind(
    sources: &Sources<'_>,
    laid: &[Laid],
    behind: &mut Behind,
    calls: &mut Calls,
) -> Result<(), AllocError>
    requires small { AllByRecursion (λ (it : ALaid). IsRoom it.room) laid.now }
    ensures has { OnOk result ((it : ALaid) → Contains laid.now it → has_text_of sources.now.style.now it.room ≡ true →
        has_behind (Some behind.new) it.room ≡ true) }
    ensures right { OnOk result ((cs : List Candidate) →
        AllByRecursion (λ (it : ALaid). IsPageRoom sources.now.style.now it.room) laid.now →
        AreCalls (doc_of sources.now) calls.old.items.items →
        AreFrontEndsOf (doc_of sources.now) cs behind.old.ends → AreFrontEndsOf (doc_of sources.now) cs behind.new.ends) }
    ensures same { OnOk result (IsSameBehind behind.old behind.new) }
    ensures calls { OnOk result (AreCalls (doc_of sources.now) calls.old.items.items →
        AreCalls (doc_of sources.now) calls.new.items.items) }
{
    for it in laid {
        ask_left(sources, &it.room, behind, calls)?;
    }
    Ok(())
}

/// Works out the ends behind a front in what the rooms of layouts leave there that are not below the least one, where
/// they are not kept yet, if something is kept there.
pub(crate) fn ask_behind(
    sources: &Sources<'_>,
    laid: &[Laid],
    behind: &mut Option<Behind>,
    calls: &mut Calls,
) -> Result<(), AllocError>
    requires small { AllByRecursion (λ (it : ALaid). IsRoom it.room) laid.now }
    ensures has { OnOk result ((it : ALaid) → Contains laid.now it → has_text_of sources.now.style.now it.room ≡ true →
        has_behind behind.new it.room ≡ true) }
    ensures right { OnOk result ((cs : List Candidate) →
        AllByRecursion (λ (it : ALaid). IsPageRoom sources.now.style.now it.room) laid.now →
        AreCalls (doc_of sources.now) calls.old.items.items →
        IfSome behind.old (λ it. AreFrontEndsOf (doc_of sources.now) cs it.ends) →
        IfSome behind.new (λ it. AreFrontEndsOf (doc_of sources.now) cs it.ends)) }
    ensures walk { OnOk result ((cs : List Candidate) → behind_candidates behind.new cs ≡ behind_candidates behind.old cs) }
    ensures calls { OnOk result (AreCalls (doc_of sources.now) calls.old.items.items →
        AreCalls (doc_of sources.now) calls.new.items.items) }
{
    match behind {
        None => Ok(()),
        Some(it) => add_behind(sources, laid, it, calls),
    }
}
