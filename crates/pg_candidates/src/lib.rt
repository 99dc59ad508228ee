//! Candidates for the ends of columns from a place: where columns may end in some room up to a greatest one, with what
//! they pass on the way; and the ends in a room among them.
//!
//! Proved: `walk_on` hands on the ends along a stretch (`ends_along` of law_walk, `specs/Walk`) to what takes them
//! (`TakesEnds`): a list of candidates, `OneRoom`, which keeps the best ends in one room (`specs/Taken`), or `AllRooms`,
//! which works out of each end at once what no room changes (`specs/Alone`). It tells how far it came (`reach_along`) and
//! whether the notes passed take room; `into_near` works out of candidates what no room changes, below which room no
//! column to the end of each keeps the rules, and from which room on that end is not needed (`AreNear`: in each room the
//! ends of those that are needed there suffice); `NearList::text_ends` gives the best ends in a room however low the room
//! is (`AreBest`); `NearList::room_ends` and `ends_in` give them where the room is not below the least one of a text, and
//! so, of candidates that suffice (`AreCandidates`), all ends in it (`AreEnds`).
#![tactic(auto)]

mod all_rooms;
mod along;
mod best;
mod candidate;
mod kind;
mod making;
mod near;
mod one_room;
mod order;
mod room;
mod room_end;
mod taking;
mod until;

pub use all_rooms::AllRooms;
pub use along::{Start, Walked, walk_on};
pub use candidate::{Candidate, CandidateList};
pub use near::NearList;
pub use one_room::OneRoom;
pub use room::has_text;
pub use room_end::RoomEnd;
pub use taking::{TakesEnds, WalkEnd};
