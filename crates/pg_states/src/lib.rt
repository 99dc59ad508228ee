//! The states of pages, in code, for every galley and style, and the floats that wait in them.
//!
//! Proved, word for word in the terms of pg_rules: `start` is the state before all columns (`state_at`), `is_state`
//! says of each value whether it is a state (`IsState`), and `is_done` whether nothing is left to do behind one;
//! `key_of` is what states have in common that may be compared, and `no_worse` compares two; `rank_of` is the number by
//! which the space of pages orders them (`rank` of law_space).
//!
//! `known` counts what waits before a state, `may_end` tells whether a text may end at a place with so many floats
//! placed, and `settle` gives the ages of those that are left at the end of a column and the price of those that it places, or None where
//! one of those that are left is too old, all as the rules say (`specs/Settling`). The last two are given how many
//! floats are called before the end of the column, so they search no galley; `settle` takes memory for its ages alone.
//!
//! `PageMarks` remembers some states that were marked, with their costs: where `Line::is_outdone` says yes, a state that
//! is no worse was marked at a lower cost (`specs/Marks`). It may say no at any time, which costs time alone.
#![tactic(auto)]

mod ages;
mod beginning;
mod called;
mod classes;
mod comparing;
mod counts;
mod done;
mod lines;
mod marks;
mod rank;
mod settling;
mod testing;
mod waiting;
mod waiting_ages;

pub use beginning::start;
pub use comparing::{key_of, no_worse};
pub use done::is_done;
pub use marks::{Line, PageMarks};
pub use rank::{place_rank, rank_of, rest_rank};
pub use settling::{Known, Settled, may_end, settle};
pub use testing::is_state;
pub use waiting::known;
pub use waiting_ages::{behind, front};
