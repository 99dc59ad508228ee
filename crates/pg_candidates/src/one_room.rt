//! The ends in one room, found on the way along a stretch.
ghost use Rattle.std.specs.Prelude.{◌≡◌, ◌<◌, ◌^◌, [], IfOk, int_lt, nat_abs};
ghost use Rattle.pg_column.specs.Numbers.{IsRoom, cost_by, most_room};
ghost use Rattle.pg_hops.specs.Needs.{AreNeeds};
ghost use Rattle.pg_hops.specs.View.{view};

use crate::best::keep_best;
use crate::kind::{EndKind, kind_at};
use crate::room::is_tolerable;
use crate::room_end::RoomEnd;
use crate::taking::{TakesEnds, WalkEnd};
use pg_column::{TextCost, TextRoom, cost_for};
use pg_hops::{Needs, Passed};
use pg_list::Galley;
use pg_plan::Picks;
use pg_scaled::{minus, plus};
use pg_style::Style;
use std::alloc::{AllocError, Global};

// For how many ends there is room at once: few columns have more lines.
const ROOM: usize = 64;

/// The ends in a room of columns without picks, each taken as a walk comes to it: the best for each place and fitness.
#[derive(Drop)]
pub struct OneRoom<'a> {
    pub galley: &'a Galley,
    pub room: TextRoom,
    pub ends: Vec<RoomEnd>,
    ghost size: { nat_abs room.size < 2 ^ 40 },
    ghost stretch: { nat_abs room.give.stretch < 2 ^ 40 },
    ghost shrink: { nat_abs room.give.shrink < 2 ^ 40 },
}

impl<'a> OneRoom<'a> {
    /// No ends in a room.
    ///
    /// Condition: the numbers of the room are below 2^40 in size. The one refusal is want of memory.
    pub fn new(alloc: Global, galley: &'a Galley, room: TextRoom) -> Result<OneRoom<'a>, AllocError>
        requires { IsRoom room }
        ensures galley { IfOk result (λ it. it.galley.now ≡ galley.now) }
        ensures room { IfOk result (λ it. it.room ≡ room) }
        ensures ends { IfOk result (λ it. it.ends.items ≡ []) }
    {
        Ok(OneRoom {
            galley,
            room,
            ends: Vec::with_capacity(alloc, ROOM)?,
        })
    }
}

// Whether a room, the gaps of its areas shrunk, is below the least one worth asking.
fn is_too_low(room: &TextRoom, least: i64) -> bool
    requires { IsRoom room.now }
    ensures { result ≡ int_lt (most_room room.now) least }
{
    plus(room.size, room.give.shrink) < least
}

// The numbers in a room of a column behind which an end of this kind stands.
fn cost_in(
    style: &Style,
    room: &TextRoom,
    kind: EndKind,
    passed: &Passed,
    needs: &Needs,
) -> TextCost
    requires room { IsRoom room.now }
    requires needs { AreNeeds style.now (view passed.now) needs.now }
    ensures { result ≡ cost_by style.now room.now passed.now.sums.totals passed.now.notes.sums kind.is_spent kind.penalty }
{
    cost_for(
        style,
        minus(room.size, needs.notes),
        &room.give.plus(needs.give),
        &passed.sums,
        kind.is_spent,
        kind.penalty,
    )
}

impl TakesEnds for OneRoom<'_> {
    ghost use Rattle.pg_candidates.specs.Taken.{TookIn, both_in, none_in};

    ghost Took = { TookIn };

    type Shared = ();

    ghost SharedOf = { λ shared picks. Unit {0} };

    fn share(&self, _picks: &Picks) -> Result<(), AllocError> {
        Ok(())
    }

    #[inline(always)]
    fn take(
        &mut self,
        style: &Style,
        needs: &Needs,
        end: &WalkEnd,
        _shared: &(),
    ) -> Result<(), AllocError> {
        let room = &self.room;
        if is_too_low(room, needs.bound) {
            return Ok(());
        }
        let kind = kind_at(self.galley, end.to);
        let cost = cost_in(style, room, kind, end.passed, needs);
        if !is_tolerable(style, kind, cost.badness) {
            return Ok(());
        }
        let kept = RoomEnd {
            to: end.to,
            at: 0,
            cost,
            pick_demerits: 0,
        };
        keep_best(&[], &mut self.ends, kept)
    }

    ghost none_taken = { none_in };

    ghost both_taken = { both_in };
}
