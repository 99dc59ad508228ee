//! Why a column may not follow a state.
//!
//! Proved: a column that starts at the state's place, on a page and with floats and picks that it may have, follows
//! exactly where it breaks none of the rules on its text, on callouts and on waiting floats (`cases_follow`, with
//! `fault_behind` in `specs/Reasons`); and `rule_at` tells the least rule on its text that a column breaks. Which ends
//! are looked at, and the heights that are told of them, are not proved.
#![tactic(auto)]

mod ends;
mod laws;

pub use ends::{Reach, reaches_of, rule_at};
pub use laws::cases_follow;
