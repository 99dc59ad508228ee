//! The eight tests of an output text, what a text that passes them shows, and the labels that bound all costs.
//!
//! Labels are any list of states with costs. Proved: where they are closed, no legal pagination costs less than their
//! cheapest finished one, and none is legal where none of them is finished; the columns with best picks alone decide
//! whether labels are closed, and where they are not; the frontier is closed, and its finished labels bound the cost by
//! that of a best pagination. The statements are in `specs/LabelLaws` and `specs/Gaps`.
//!
//! The tests against a galley and a style are in `specs/Tests`, how each fails and what a check answers in
//! `specs/Faults`. Proved: where all tests pass, the shown pagination is legal, has the shown cost and its own page text,
//! and no legal one costs less, or none is legal where that is shown; the labels need be no states of real beginnings.
//! What shows a best pagination, or that none is legal, with the frontier behind it, passes all tests. A test that
//! fails first and all tests that pass exclude each other, and one test at most fails first, with one set of values. The
//! statements are in `specs/CheckLaws`.
//!
//! There is no code here but the types of the answers.
#![tactic(auto)]

mod answers;
mod check_laws;
mod label_laws;

pub use answers::{No, Proved};
pub use check_laws::{
    best_picks_decide, faults_fail, first_fault_is_one, frontier_passes, passed_tests_prove,
};
pub use label_laws::{best_picks_close, closed_labels_bound, frontier_closes};
