//! The columns that follow a state, in code: one step for each, with text and without.
//!
//! Proved: `open` gives the moves of a state in the space of pages (law_space), each once with its best picks, and
//! the reach of its place (law_space); `open_by` does from what is kept of the place (pg_rooms), and leaves out
//! what is not wanted: of each layout it passes over the ends whose state was reached at a lower cost (`specs/Outdone`),
//! asks about the others with one state, and makes the steps that it is told to, with the picks of their candidates
//! (`specs/Thinned`). They list what law_moves lists: `text_steps` takes each layout of a column of text up to a ceiling
//! (pg_rooms) with the ends in its room, group by group, those behind a front in what the room leaves there, and
//! `add_stays` each of a column without text; what waits at an end and what is paid for floats comes from pg_states
//! (`specs/Stepping`).
#![tactic(auto)]

mod behind;
mod column;
mod groups;
mod opening;
mod stays;
mod steps;
mod texts;

pub use opening::{open, open_by, walk_place};
