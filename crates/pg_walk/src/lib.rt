//! The ends of the columns of text from a place, found by a walk over the text that is a space of the table: states at
//! the fronts of choices, picks as moves.
//!
//! Proved, for every galley and style: `candidates` finds where columns may end in some room up to a greatest one
//! (`AreCandidates` of law_walk), and `ends` lists each place and fitness at which a column of text from the place, in
//! a room of a height, keeps the rules on one column, with its numbers and its best picks, in order, and nothing else
//! (`AreEnds` of pg_column); `ends_many` does so for several rooms from one walk; `reach_of` tells how far columns from
//! a place may go (`IsReach` of pg_rules); `walk_from` does both from one place for all rooms, and gives the candidates
//! with what no room changes (`AreNearFrom` of pg_candidates). Where no choice is reached and the notes on the way take
//! no room, the walk for the candidates tells the reach too.
//!
//! The program cuts that walk at the first choice: `walk_first` goes so far, and `walk_behind` goes on from the state
//! there without its height (`lowered`). What it finds serves all places whose columns come to the front alike but for
//! their height (`fronts_serve`), and so does the reach told there (`reaches_serve`). Where a style has one room, `walk_first`
//! keeps the ends in it on the way and no candidates (`Tells`); `straight_ends` finds them in another room.
//!
//! Below that: `WalkSpace` keeps the laws that the table wants of a space (`specs/WalkLawful`), with the moves of the
//! walk of law_walk (`specs/Meaning`); `collect` adds what stands along the picks of the labels of a filled table
//! (`specs/Collected`), and `furthest` tells the greatest block along them (`specs/Furthest`).
#![tactic(auto)]

mod context;
mod filling;
mod front;
mod give;
mod label;
mod labels_reach;
mod picks;
mod place;
mod reach;
mod rooms;
mod runs;
mod space;
mod straight;
mod table;
mod walking;

pub use context::Context;
pub use front::{
    Front, FrontWalk, LoweredState, fronts_serve, is_same_state, lowered, reaches_serve,
    walk_behind,
};
pub use labels_reach::furthest;
pub use pg_candidates::{CandidateList, NearList};
pub use pg_column::{End, EndList, EndLists, TextCost};
pub use picks::{is_loose_enough, variants_at};
pub use place::{FirstWalk, PlaceWalk, walk_first, walk_from};
pub use reach::{reach_behind, reach_of};
pub use rooms::{ends, ends_many};
pub use space::{Key, WalkSpace};
pub use straight::{StraightEnds, straight_ends};
pub use table::collect;
pub use walking::candidates;
