//! Paginations, the states and labels of their beginnings, and the order among paginations of equal cost.
//!
//! Proved: `compare` is that order, which is total; lists are edited as lists are; a copy is equal. The definitions
//! are in `specs/Order`.
#![tactic(auto)]

mod ages;
mod backwards;
mod comparing;
mod counts;
mod laws;
mod pages;
mod picks;
mod states;

pub use ages::Ages;
pub use comparing::{compare, compare_moves, compare_picks, compare_places};
pub use counts::Counts;
pub use laws::{equal_moves_are_same, moves_are_ordered, paginations_are_ordered};
pub use pages::{Column, Columns, Moves, Page, PageMove, Pages, Pagination};
pub use picks::Picks;
pub use states::{Label, LabelList, PageKey, Side, State};
