//! An end in a room, by the number of its candidate.
ghost use Rattle.std.specs.Prelude.{◌≡◌, IfOk, IfSome, IfNone, [], map};
ghost use Rattle.std.specs.Rc.{rc_value};
ghost use Rattle.pg_candidates.specs.RoomEnds.{end_of, ends_of, picks_at};

use pg_column::{End, EndList, TextCost};
use pg_list::Place;
use pg_plan::Picks;
use std::alloc::{AllocError, Global};
use std::rc::Rc;

/// An end of a column in a room: its place, the number of the candidate that it is of, its numbers, and the demerits of
/// the variants picked. The picks are those of the candidate: few ends are ever asked for them.
#[derive(Clone, Copy)]
pub struct RoomEnd {
    pub to: Place,
    pub at: usize,
    pub cost: TextCost,
    pub pick_demerits: i64,
}

// The picks at an index, if there are some.
pub(crate) fn picks_of(listed: &[Rc<Picks>], at: usize) -> Option<&Picks>
    ensures some { IfSome result (λ picks. picks.now ≡ picks_at (map rc_value listed.now) at) }
    ensures none { IfNone result (picks_at (map rc_value listed.now) at ≡ []) }
{
    match listed.get(at) {
        Some(picks) => Some(picks.as_ref()),
        None => None,
    }
}

// A copy of the picks at an index, and none where there are none.
fn copy_picks(alloc: Global, listed: &[Rc<Picks>], at: usize) -> Result<Picks, AllocError>
    ensures { IfOk result (λ picks. picks ≡ picks_at (map rc_value listed.now) at) }
{
    match picks_of(listed, at) {
        Some(picks) => picks.copy(),
        None => Ok(Picks::new(alloc)),
    }
}

// The end with its picks.
fn with_picks(alloc: Global, listed: &[Rc<Picks>], it: &RoomEnd) -> Result<End, AllocError>
    ensures { IfOk result (λ end. end ≡ end_of (map rc_value listed.now) it.now) }
{
    Ok(End {
        to: it.to,
        picks: copy_picks(alloc, listed, it.at)?,
        cost: it.cost,
        pick_demerits: it.pick_demerits,
    })
}

// All ends with their picks.
pub(crate) fn all_with_picks(
    alloc: Global,
    listed: &[Rc<Picks>],
    its: &[RoomEnd],
) -> Result<EndList, AllocError>
    ensures { IfOk result (λ ends. ends ≡ ends_of (map rc_value listed.now) its.now) }
{
    let mut ends = EndList::with_room(alloc, its.len())?;
    for it in its {
        ends.push(with_picks(alloc, listed, it)?)?;
    }
    Ok(ends)
}
