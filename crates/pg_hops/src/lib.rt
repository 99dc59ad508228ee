//! The walk along a stretch, up to the next front of a choice: what a column keeps of its items (their sums, their
//! notes, the least room that lets it pass), and an index of breaks, so that what lies between two of them is summed
//! once for all columns that pass it.
//!
//! Proved: a `Cursor` goes through the items of the stretches of law_walk (`specs/Ahead`), and tells of each whether
//! its place is a break, of most from the item alone (`specs/Told`); `Passed::pass` goes past one item, and past the
//! break before it, as `specs/Passed` of pg_column says. Where the notes passed take no room (`specs/Quiet`), a walk
//! without notes goes the same way. `Needs` tells at once what a place asks of a room, for who looks at an end there and
//! who goes past it; what the notes passed add to it, `Noted`, is the same until a note is passed (`specs/Needs`).
//! `Added` sums what items behind a box or rule add, and shifts totals by it (`specs/Shift`).
//!
//! A `Hop` leads past items of which the first alone is a break, and tells what they add (`specs/Hop`); each hop that a
//! `BreakIndex` keeps leads on in its galley (`specs/Index`), also behind an edit, for which it is mended from the
//! edited block on; a step past a hop is a walk item by item (`specs/Goes`), so that `pass_on` answers what was passed
//! along a stretch and the greatest block on the way, whatever the index knows. A `Leap` leads past several breaks at
//! once, up to a front, an insert or a forced break, or to a break behind enough items, with the most that one of them
//! asks of a room: where the greatest room lets it pass, a step past it is such a walk too (`specs/Leap`), also behind
//! an edit. A variant has one, and among single items each begins where the last one leads.
#![tactic(auto)]

mod added;
mod cursor;
mod finding;
mod going;
mod hop;
mod index;
mod leap;
mod leaping;
mod needs;
mod noted;
mod passed;
mod passing;
mod shift;
mod state;

pub use added::Added;
pub use cursor::Cursor;
pub use going::{go, hop_ahead, hop_on};
pub use hop::Hop;
pub use index::BreakIndex;
pub use leap::raised;
pub use needs::Needs;
pub use noted::Noted;
pub use passed::Passed;
pub use passing::{Passing, pass_on};
pub use shift::Shift;
pub use state::State;
