//! Whole paginations: the least rule that one breaks with its first column, or its cost.
//!
//! Proved: `judge` answers `Ok` exactly where the rules of pg_rules name no breach, with the cost that they define, and
//! else the breach itself; memory that runs out is the only other answer (`specs/Settled`). Any pagination is judged.
//! `specs/Verdict` says the least rule column by column, `specs/Progress` what is kept of the columns so far. Each
//! column's items are read once, and no place is searched from the front of the galley.
#![tactic(auto)]

mod added;
mod barriers;
mod basis;
mod ending;
mod floats;
mod judged;
mod moves;
mod pages;
mod picks;
mod progress;
mod rule;
mod seat;
mod walk;
mod whole;

pub use added::Counted;
pub use basis::{Basis, NextColumn};
pub use floats::pages_waited;
pub use moves::{MoveCost, fitness_price, run_price};
pub use picks::pick_demerits;
pub use progress::Progress;
pub use rule::JudgeFault;
pub use seat::{Seat, seat_of};
pub use whole::{judge, start};
