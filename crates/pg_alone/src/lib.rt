//! One object of a galley that by itself forbids every pagination.
//!
//! Proved: where a float is higher than the columns of every run, or no area may have floats of its class, nothing is
//! legal; and `first_alone` finds such a float exactly where there is one (`specs/Alone`). So it is where a note is above
//! the limit of its class, and `high_note` finds the first (`specs/Notes`).
#![tactic(auto)]

mod alone;
mod laws;
mod notes;

pub use alone::{Alone, first_alone};
pub use laws::{alone_forbids, high_notes_forbid};
pub use notes::{HighNote, high_note};
