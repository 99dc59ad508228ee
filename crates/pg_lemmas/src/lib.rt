//! Lemmas on tests, numbers, lists and orders that several crates use, and that the standard library does not have.
//!
//! There is no code here. What the standard library has is taken from there.
#![tactic(auto)]
