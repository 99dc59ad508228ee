//! Pages as a space: states of beginnings, columns as moves, and the reach of a place.
//!
//! Proved: the reach as a number is the reach of each place, and the only one; and each column that may follow a state
//! ends at a place whose block is below the reach of the state's place. No code follows its definition.
//!
//! Proved too: the space keeps all laws of a space, with every column and with those of best picks alone; its runs are
//! the beginnings of paginations; and a filled table of it tells the best pagination, that none is legal, and the
//! frontier. Its reach is that of a state's place, and each rank is below 2^64. The space is in `specs/PageSpace`.
//!
//! There is no code here.
#![tactic(auto)]

pub mod reach_laws;
mod space_laws;

pub use space_laws::{
    best_picks_better, better_beginnings_go_on, filled_table_tells_all, pages_are_a_space,
    ranks_fit, runs_are_beginnings,
};
