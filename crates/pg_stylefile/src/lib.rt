//! Style files: a text in TOML is a style, or has a first fault in a fixed order.
//!
//! Proved: a text gives exactly the style that its table says, or else the first fault with the path of its key,
//! unless memory runs out. The definition is written as the tables of the format are: the whole in `specs/Style`, the
//! root table in `specs/Root`, the other tables in `specs/Tables`, what a table names in `specs/Names`, keys in
//! `specs/Keys`, values in `specs/Values`, kinds of fault and paths in `specs/Faults`.
#![tactic(auto)]

mod areas;
mod classes;
mod distance;
mod entries;
mod fault;
mod gaps;
mod keys;
mod names;
mod read;
mod root;
mod runs;
mod tables;
mod values;

pub use fault::{StyleFault, StyleKind};
pub use read::read_style;
