//! Calls about printed labels with the clauses that they have in their own crates, so that wrong bodies can be tried
//! against these clauses at little cost: labels that are tested, the check of an output text. No program stands on it.
//!
//! Proved: whatever the judge answers but for want of memory is what the rules say (`proofs/Judged`), and a check does
//! not say yes where a test fails (`no_yes_at_a_fault`).
#![tactic(auto)]

mod checking;
mod covering;
mod laws;

pub use checking::check;
pub use covering::{covers, first_open};
pub use laws::no_yes_at_a_fault;
