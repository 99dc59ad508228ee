//! What the commands lean on beside the search: heads and references, and how large paginations are.
//!
//! Proved: the heads and references of a legal pagination are those of the galley's flat list; a best pagination is one,
//! and so is a frontier. From the limits of items and floats alone: how many pages a legal pagination has and what it costs at most, and
//! how many columns a first fit has. There is no code here.
#![tactic(auto)]

mod mark_laws;
mod size_laws;

pub use mark_laws::{
    best_pagination_is_one, frontier_is_one, legal_columns_fit, marks_are_those_of_the_flat_list,
};
pub use size_laws::{first_fits_are_short, legal_plans_are_small};
