//! The laws of the walk over a column's text: where columns may end, which ends are best, and how far they reach.
//!
//! There is no code here. The definitions are those of `specs/`: `Candidates` (where columns may end in some room, and
//! which ends are due in one), `Best` (the best end for each place and fitness), `Walk` (the walk by all picks), `Space`
//! (the same walk as a space of the table, where equal sums at one front are one), `Reached` (how far columns go). What
//! they come to stands in `specs/Laws`, as the contracts of `laws`.
#![tactic(auto)]

pub mod laws;
