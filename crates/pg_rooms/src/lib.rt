//! The rooms that the layouts of a column leave to its text, and the ends of columns in them.
//!
//! Proved: `find_texts` of `Layouts` tells each layout of a column of text up to a ceiling of counts, and `find_stays`
//! each of a column without text, with the wide area's height, the floats placed behind and the room for a text as the
//! rules give them (`specs/Laid`); each deals out floats that are there, and no room is above that of the tallest run.
//! What was laid for a state serves for each other one that has the same column, run, wide area and floats
//! (`specs/KeptLaid`).
//!
//! `PlaceEnds` keeps for each room that it was asked for all ends in it, from one walk, as pg_column defines them with
//! the picks of their candidates, in groups before which the same floats are called (`specs/PlaceEnds`). What is kept
//! behind the front of a choice serves columns of every height there: `Behind` tells which room one leaves.
#![tactic(auto)]

mod behind;
mod calls;
mod grouping;
mod kept_laid;
mod laid;
mod laying;
mod left;
mod place_ends;
mod runs;

pub use behind::{Behind, FrontEnds};
pub use calls::{Call, Calls};
pub use grouping::Group;
pub use kept_laid::Layouts;
pub use laid::{Laid, has_floats};
pub use place_ends::{PlaceEnds, RoomEnds, room_in};
