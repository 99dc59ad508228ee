//! Breaks of a galley (TeX: The Program, §1000), known from their places alone.
//!
//! `break_cost`, `is_forced` and `is_spent` are proved to say at a place what the definitions of pg_list
//! (`specs/Break.antt`) say at its offset in the flat list of the galley, whatever variants are picked, and in the
//! text of every column that starts before it. No flat list is made and no memory is taken.
#![tactic(auto)]

mod breaks;
mod near;

pub use breaks::{break_cost, is_forced, is_spent};
pub use near::is_forcing;
