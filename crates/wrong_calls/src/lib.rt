//! Calls of the commands and of the program with the clauses that they have in their own crates, so that wrong bodies can
//! be tried against these clauses at little cost. No program stands on it.
#![tactic(auto)]

mod fitting;
mod paginating;
mod printing;
mod serving;

pub use fitting::{compare_course, fold_course, heads_course};
pub use paginating::{check_course, edit_course, run_course};
pub use printing::{lines_course, show_course};
pub use serving::serve;
