//! The notes of a segment, summed by class item by item: what they take of a column's room, and the first class
//! whose notes are above its limit.
//!
//! `NoteSums` is proved to hold, after any items, exactly the sums of the inserts of each class of the style, and to
//! answer from them what pg_rules (`specs/Room.antt`) says of the notes of those items; `specs/AreNotes.antt` says
//! what kept sums tell of items. The discardable items at the front of a segment have no notes
//! (`front_has_no_notes`).
#![tactic(auto)]

mod laws;
mod sums;

pub use laws::front_has_no_notes;
pub use sums::{NoteSum, NoteSums};
