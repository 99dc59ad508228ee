//! The columns that follow a state, listed: layout by layout, and in each the ends of a column of text.
//!
//! Proved: the listed steps are the moves of the space of pages, each once (`specs/Listed` says them as code finds them,
//! `specs/Steps` in the words of the rules); counts of floats need be tried only up to what is called below the state's
//! reach; the next ages and the demerits of floats are found class by class from the ages of the state (`specs/Ages`, and
//! over one flat list `specs/Line`); and a test says of each value whether it is a state (`specs/StateTest`). No code.
#![tactic(auto)]

mod laws;

pub use laws::{listed_steps_are_moves, states_are_tested};
