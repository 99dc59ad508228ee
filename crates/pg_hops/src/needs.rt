//! What a place asks of a room, by what was passed before it.
ghost use Rattle.std.specs.Prelude.{◌≡◌, ◌<◌, ◌≤◌, ◌^◌, nat_abs, pos};
ghost use Rattle.pg_style.specs.Values.{StyleValue};
ghost use Rattle.pg_hops.specs.Needs.{AreNeeds, AreNoted};
ghost use Rattle.pg_hops.specs.View.{view};

use crate::Passed;
use crate::noted::Noted;
use pg_scaled::minus;
use pg_style::{Give, Style};

/// What the notes passed before a place take, in scaled points, what their skips give, and the least room in which no break
/// passed behind a box is over, nor one at this place.
#[derive(Clone, Copy)]
pub struct Needs {
    pub notes: i64,
    pub give: Give,
    pub bound: i64,
}

impl Noted {
    /// Of the notes passed. A style without classes has no notes, and none are looked at.
    #[inline]
    pub fn of(style: &Style, passed: &Passed) -> Noted
        ensures { AreNoted style.now passed.now.notes.sums result }
    {
        if style.classes.as_slice().is_empty() {
            return Noted {
                height: 0,
                give: Give::none(),
                is_within: true,
            };
        }
        Noted {
            height: passed.notes.height(style),
            give: passed.notes.give(style),
            is_within: passed.is_within_limits(style),
        }
    }
}

impl Needs {
    /// Those of a place behind what was passed, of whose notes is told.
    #[inline(always)]
    pub fn with(noted: &Noted, passed: &Passed) -> Needs
        ensures { (style : StyleValue) → AreNoted style passed.now.notes.sums noted.now →
            AreNeeds style (view passed.now) result }
    {
        Needs {
            notes: noted.height,
            give: noted.give,
            bound: passed.bound_with(minus(noted.height, noted.give.shrink)),
        }
    }

    /// Those of a place behind what was passed.
    #[inline]
    pub fn of(style: &Style, passed: &Passed) -> Needs
        ensures { AreNeeds style.now (view passed.now) result }
    {
        if style.classes.as_slice().is_empty() {
            return Needs {
                notes: 0,
                give: Give::none(),
                bound: passed.bound_with(0),
            };
        }
        let notes = passed.notes.height(style);
        let give = passed.notes.give(style);
        Needs {
            notes,
            give,
            bound: passed.bound_with(minus(notes, give.shrink)),
        }
    }
}
