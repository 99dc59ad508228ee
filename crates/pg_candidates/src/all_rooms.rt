//! The candidates along a stretch, for all rooms, found on the way.
ghost use Rattle.std.specs.Prelude.{◌≡◌, ◌<◌, ◌^◌, [], IfOk, nat_abs};

use crate::candidate::ROOM;
use crate::making::{first_with, goal_for, near_first};
use crate::near::Near;
use crate::taking::{TakesEnds, WalkEnd};
use pg_hops::Needs;
use pg_list::Galley;
use pg_plan::Picks;
use pg_style::{Give, Style};
use std::alloc::{AllocError, Global};

/// What no room changes of the candidates along a stretch, each taken as a walk comes to it. Each is the only one of its
/// place.
#[derive(Drop)]
pub struct AllRooms<'a> {
    pub(crate) galley: &'a Galley,
    pub(crate) most: Give,
    pub(crate) nears: Vec<Near>,
    ghost stretch: { nat_abs most.stretch < 2 ^ 40 },
}

impl<'a> AllRooms<'a> {
    /// No candidates, for rooms the gaps of whose areas are stretched by no more than `most` says.
    ///
    /// Condition: that is below 2^40 in size. The one refusal is want of memory.
    pub fn new(alloc: Global, galley: &'a Galley, most: Give) -> Result<AllRooms<'a>, AllocError>
        requires { nat_abs most.stretch < 2 ^ 40 }
        ensures galley { IfOk result (λ it. it.galley.now ≡ galley.now) }
        ensures most { IfOk result (λ it. it.most ≡ most) }
        ensures nears { IfOk result (λ it. it.nears.items ≡ []) }
    {
        Ok(AllRooms {
            galley,
            most,
            nears: Vec::with_capacity(alloc, ROOM)?,
        })
    }
}

impl TakesEnds for AllRooms<'_> {
    ghost use Rattle.pg_candidates.specs.Alone.{TookAlone, both_alone, none_alone};

    ghost Took = { TookAlone };

    type Shared = ();

    ghost SharedOf = { λ shared picks. Unit {0} };

    fn share(&self, _picks: &Picks) -> Result<(), AllocError> {
        Ok(())
    }

    #[inline(always)]
    fn take(
        &mut self,
        style: &Style,
        needs: &Needs,
        end: &WalkEnd,
        _shared: &(),
    ) -> Result<(), AllocError> {
        let at = self.nears.len();
        let most = &self.most;
        let goal = goal_for(style, most, &end.passed.sums, &needs.give);
        let first = first_with(self.galley, at, goal, end, needs);
        self.nears
            .push(near_first(style, most, first, goal, end, needs))?;
        Ok(())
    }

    ghost none_taken = { none_alone };

    ghost both_taken = { both_alone };
}
