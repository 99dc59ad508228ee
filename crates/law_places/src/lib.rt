//! The places of a galley: which stand behind which, what lies between them, and how columns cut the flat list.
//!
//! Proved: picks that lead from a place to another go on along the galley, item by item, and callouts only grow along
//! it. A column's picks cut the list of items from its start on in two, whatever picks come behind; the lists of items by
//! two lists of picks go on alike up to a box in both; and callouts are the inserts that are passed.
//!
//! Lemmas in `proofs/` are for the crates above, those on members of lists too: what is among the members of a mapped,
//! joined or filtered list and of a range, and when no two of them are equal. Members are taken by recursion (`Among`),
//! and so are pairs (`Pairs`), with the ways to std's words. There is no code here.
#![tactic(auto)]

mod cut_laws;
mod place_laws;

pub use cut_laws::picks_cut_the_flat_list;
pub use place_laws::{picks_lead_on, places_behind_have_more};
