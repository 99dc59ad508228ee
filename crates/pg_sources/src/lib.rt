//! A galley, a style and the list of its floats, as one value that is handed around.
//!
//! Proved: `called` counts the floats of each class before a place, and `flushed` those before the last barrier in
//! front of a block, as the rules do; `counts_at` gives the counts that all states of a place share, and `slots` the
//! classes. What a clause says of a `Sources` it says of its document (`specs/Document`).
#![tactic(auto)]

mod calls;
mod place_counts;
mod sources;

pub use calls::Before;
pub use place_counts::PlaceCounts;
pub use sources::Sources;
