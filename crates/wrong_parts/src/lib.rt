//! Calls of what columns are made of, with the clauses that they have there, so that wrong bodies can be tried against
//! these clauses at little cost. No program stands on it.
//!
//! Each body is one call. What refuses a wrong body here refuses it there as well, since the clauses are the same word
//! for word. `proofs/` has what no body shows: that pages which are no first fit are refused, and a way that is not the
//! least.
#![tactic(auto)]

mod builder;
mod columns;
mod glue;
mod lines;
mod making;
mod states;
mod waiting;

pub use builder::first_fit;
pub use columns::{add_item, area_give, cost_for, give_in, goal_in, judge_text};
pub use glue::{badness, set_widths};
pub use lines::break_lines;
pub use making::make_galley;
pub use states::key_of;
pub use waiting::{list_floats, place_float, turn_page};
