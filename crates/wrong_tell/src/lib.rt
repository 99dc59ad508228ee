//! Calls of what tells in words, with the clauses that they have there, so that wrong bodies can be tried against these
//! clauses at little cost. No program stands on it.
//!
//! Each body is one call. What refuses a wrong body here refuses it there as well, since the clauses are the same word
//! for word.
#![tactic(auto)]

mod causes;
mod changes;
mod lines;
mod parts;
mod pieces;
mod searches;
mod told;

pub use causes::{first_alone, high_note, rule_at};
pub use changes::try_number;
pub use lines::{key_line, line_text};
pub use parts::{price_columns, sum_of};
pub use pieces::print;
pub use searches::{beginning, furthest, pages, standing};
pub use told::serve;
