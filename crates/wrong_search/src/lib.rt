//! Calls of the search with the clauses that they have in their own crates, so that wrong bodies can be tried against
//! these clauses at little cost: columns of text, states, moves, the space of pages, sessions. No program stands on it.
#![tactic(auto)]

mod columns;
mod moving;
mod sessions;
mod solutions;
mod standing;
mod variants;

pub use columns::reach_of;
pub use moving::open_by;
pub use sessions::{edit, paginate, solve};
pub use solutions::{frontier_of, outcome_of};
pub use standing::{before, is_done, is_state, key_of, known, no_worse};
pub use variants::expand;
