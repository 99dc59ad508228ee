//! The check of a printed output text against a galley and a style: eight tests, and the first that fails.
//!
//! Proved: `check` answers as `Checked` of law_check says, a yes exactly where all tests pass and a no exactly by
//! the first that fails, with its values; and its yes shows the truth. Where it names a cost, the shown pagination is
//! legal, has this cost and the page text that stands there, and no legal pagination costs less; where it names none, no
//! pagination is legal. What solving tells, with the labels of the frontier, gets a yes unless memory runs out. No table
//! of pages is built: each label is opened at most once, whatever the answer (`bounded`), and labels of one place that
//! stand together share its walk.
#![tactic(auto)]

mod checking;
mod firsts;
mod labels;
mod lines;
mod shown;

pub use checking::check;
pub use law_check::{No, Proved};
