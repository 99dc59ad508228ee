//! Labels of a space of pages, tested whether they are closed: each column that follows a label leads to what a label
//! covers.
//!
//! Proved for every space whose states and moves are those of pages: `first_open` answers the first label with a column
//! that leads to what no label covers, and the least place where such a column ends, or None where there is none; costs
//! are compared as whole numbers. The definitions are in `specs/Covered`. Before a column is made, the space asks whether
//! a label is found that covers what it leads to, and such a column is not made. Most of these it knows by their place,
//! fitness and cost, since labels are marked some way ahead of the one that is opened, as the search marks them. That a
//! label is found by hashing, and not by looking through all, is no part of what is proved.
#![tactic(auto)]

mod cover;
mod covering;
mod hints;

pub use cover::{Open, covers, first_open};
