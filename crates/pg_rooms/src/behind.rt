//! What is kept behind the front of a choice, as columns from a place come there.
ghost use Rattle.std.specs.Prelude.{◌≡◌, ◌<ℤ◌, ◌≤ℤ◌, ◌^◌, [], pos};

use crate::place_ends::RoomEnds;
use pg_walk::FrontWalk;
use std::alloc::Global;

/// What is kept behind the front of a choice: the walk from a state before it, and the ends in the rooms that were asked
/// for. It serves each place whose columns come to the front as that walk does, but for their height.
#[derive(Drop)]
pub struct FrontEnds {
    pub walk: FrontWalk,
    pub rooms: Vec<RoomEnds>,
}

impl FrontEnds {
    /// A walk behind a front, with no room asked for. No memory is taken.
    pub fn new(alloc: Global, walk: FrontWalk) -> FrontEnds
        ensures walk { result.walk ≡ walk }
        ensures rooms { result.rooms.items ≡ [] }
    {
        FrontEnds {
            walk,
            rooms: Vec::new(alloc),
        }
    }
}

/// What is kept behind a front, for columns that come there with so much more height, in scaled points, past breaks of which
/// none is over in this room, if one was passed.
#[derive(Drop)]
pub struct Behind {
    pub ends: FrontEnds,
    pub by: i64,
    pub bound: Option<i64>,
    ghost up: { pos 0 ≤ℤ by },
    ghost small: { by <ℤ pos (2 ^ 39) },
}
