//! Calls on which all others stand, of files and of tables of labels, with the clauses that they have there, so that
//! wrong bodies can be tried against these clauses at little cost. No program stands on it.
//!
//! Each body is one call. What refuses a wrong body here refuses it there as well, since the clauses are the same word
//! for word.
#![tactic(auto)]

mod shelves;
mod sinks;
mod tables;

pub use shelves::{fetch, fetch_file, fetch_kept};
pub use sinks::{write, write_stream};
pub use tables::{best, refill};
