//! The texts that the columns of a pagination cut from the galley's flat list.
//!
//! Proved: each box, rule, insert and carry of a legal pagination's flat list stands once in its segments, in order,
//! and each float is dealt out once; and what the rules read from a column's own items is what the one flat list of
//! all picks says between the column's places. The definitions are in `specs/Texts`.
#![tactic(auto)]

mod laws;

pub use laws::{columns_read_the_flat_list, legal_plans_have_each_once};
