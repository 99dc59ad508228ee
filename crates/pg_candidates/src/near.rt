//! What the rooms of a place share of its candidates.
ghost use Rattle.std.specs.Prelude.{◌≡◌, IfNone, IfSome, [], int_lt};
ghost use Rattle.pg_column.specs.Numbers.{IsRoom, most_room};
ghost use Rattle.pg_candidates.specs.RoomEnds.{picks_at};
ghost use Rattle.pg_candidates.specs.Nears.{at_goal as at_goal_of, is_needed as is_needed_of, worst_at as worst_at_of};

use crate::kind::EndKind;
use crate::room_end::picks_of;
use pg_column::{TextCost, TextRoom};
use pg_list::Place;
use pg_plan::Picks;
use pg_scaled::plus;
use pg_style::Give;
use pg_sums::Sums;
use std::alloc::Global;
use std::marker::Model;
use std::rc::Rc;

/// What no room changes of a candidate, in scaled points: which one of the list it is, where its end is, the sums of what
/// was passed, the height of its notes and what their skips give, the demerits of its picks, the kind of its end, the room
/// from which on that end is not needed, if there is one, the least room for a column to it where the gaps of the areas
/// are shrunk, and the numbers of the end at a goal at which its badness is the worst, if one was found: at each greater
/// goal they are the same but for the goal. All that a room asks stands together here.
#[derive(Drop)]
pub struct Near {
    pub at: usize,
    pub to: Place,
    pub sums: Sums,
    pub notes: i64,
    pub give: Give,
    pub pick_demerits: i64,
    pub kind: EndKind,
    pub until: Option<i64>,
    pub least: i64,
    pub worst: Option<TextCost>,
}

impl Model for Near {
    ghost use Rattle.pg_candidates.specs.Nears.{IsWellKept, NearValue};

    ghost Value = { NearValue };

    ghost view = { λ a. record {
      at = a.at;
      to = a.to;
      totals = a.sums.totals;
      notes = a.notes;
      give = a.give;
      pick_demerits = a.pick_demerits;
      kind = a.kind;
      until = a.until;
      least = a.least;
      worst = a.worst;
    } };

    ghost invariant = { λ a. IsWellKept a.notes a.give };
}

// Whether a goal is below the one of these numbers.
#[inline]
fn is_below(goal: i64, cost: &TextCost) -> bool
    ensures { result ≡ int_lt goal cost.now.goal }
{
    goal < cost.goal
}

// The same numbers at another goal.
#[inline]
fn at_goal(goal: i64, cost: &TextCost) -> TextCost
    ensures { result ≡ at_goal_of goal cost.now }
{
    TextCost { goal, ..*cost }
}

impl Near {
    // Whether the end is needed in a room.
    pub(crate) fn is_needed(&self, room: &TextRoom) -> bool
        ensures { result ≡ is_needed_of room.now.size self.now.until }
    {
        match self.until {
            Some(from) => room.size < from,
            None => true,
        }
    }

    // Whether a room, the gaps of its areas shrunk, is below the least one worth asking.
    pub(crate) fn is_too_low(&self, room: &TextRoom) -> bool
        requires { IsRoom room.now }
        ensures { result ≡ int_lt (most_room room.now) self.now.least }
    {
        plus(room.size, room.give.shrink) < self.least
    }

    // The numbers at a goal, where its badness is known to be the worst.
    #[inline]
    pub(crate) fn worst_at(&self, goal: i64) -> Option<TextCost>
        ensures { result ≡ worst_at_of goal self.now.worst }
    {
        let worst = self.worst.as_ref()?;
        if is_below(goal, worst) {
            return None;
        }
        Some(at_goal(goal, worst))
    }
}

/// What no room changes of candidates from one place, in an order in which ends may stand, and the picks of each. Where no
/// candidate has picks, none are listed.
#[derive(Drop)]
pub struct NearList {
    pub(crate) picks: Vec<Rc<Picks>>,
    pub(crate) nears: Vec<Near>,
}

impl Model for NearList {
    ghost use Rattle.std.specs.Prelude.{map};
    ghost use Rattle.std.specs.Rc.{rc_value};
    ghost use Rattle.pg_candidates.specs.Nears.{NearsValue};

    ghost Value = { NearsValue };

    ghost view = { λ a. record { picks = map rc_value a.picks.items; nears = a.nears.items } };
}

impl NearList {
    /// No candidates. No memory is taken.
    pub fn none(alloc: Global) -> NearList
        ensures { result.picks ≡ [] }
    {
        NearList {
            picks: Vec::new(alloc),
            nears: Vec::new(alloc),
        }
    }

    /// The picks of the candidate with this number, if some are listed.
    pub fn picks_of(&self, at: usize) -> Option<&Picks>
        ensures some { IfSome result (λ picks. picks.now ≡ picks_at self.now.picks at) }
        ensures none { IfNone result (picks_at self.now.picks at ≡ []) }
    {
        picks_of(self.picks.as_slice(), at)
    }
}
