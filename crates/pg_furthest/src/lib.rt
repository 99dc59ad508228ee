//! How far beginnings of paginations come: a galley under a style with the labels of all its pages, the label that
//! stands furthest, and a beginning of each label.
//!
//! Proved: the pages that are told are those of the best pagination, with its cost and what each column adds to it
//! (`specs/Pages`), or none is legal; at the place of the label that is told a beginning ends, and none ends behind it,
//! nor does a column lead behind it from there; and the beginning of a label leaves its state, at its cost
//! (`specs/Furthest`).
#![tactic(auto)]

mod best;
mod last;
mod laws;
mod legal;
mod search;
mod standing;
mod telling;

pub use best::BestPages;
pub use laws::{beginnings_of_labels, columns_of_labels, none_leads_on};
pub use legal::has_pages;
pub use search::Search;
pub use standing::Standing;
