//! One column of text: its items, whether its span fits the galley, which rule it breaks first, its numbers, and what
//! the ends of all columns from a place are.
//!
//! What is proved, for every column that has this text and this room:
//! - `text_cost` gives its six numbers from the sums and notes of its items (`specs/Numbers`);
//! - `fits` is the part of rule 2, chain of columns, that speaks of one column (`specs/Fits`);
//! - `judge_text` answers the numbers, or the least of the rules 3, 4, 5, 6, 11 and 13 that it breaks (`specs/Judged`);
//! - `push_text` adds its items, with the variants that its picks name (`specs/Between`).
//!
//! `specs/Ends` says of a list of ends that it is that of a place in a room (`AreEnds`): each place and fitness at
//! which a column of text keeps the rules on one column, with its numbers and its best picks, in order, and nothing
//! else. Nothing is searched here. The rules and the numbers are those of pg_rules (`ColumnRules`, `Cost`).
//! `specs/Ahead` and the rest of `specs/Judged` say how a span is walked, and nobody need believe them; `specs/Passed`
//! is what a walk keeps that looks for all ends.
#![tactic(auto)]

mod cost;
mod end;
mod gives;
mod items;
mod judge;
mod rule;
mod span;
mod step;
mod walk;
mod walked;

pub use cost::{TextCost, TextRoom, cost_for, give_in, goal_in, is_over, text_cost};
pub use end::{End, EndList, EndLists};
pub use gives::area_give;
pub use items::{blocks_of, is_same_place};
pub use judge::{judge_from, judge_text};
pub use span::{Span, fits, fits_from};
pub use walk::{push_between, push_text};
