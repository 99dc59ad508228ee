//! Printed output texts read back.
//!
//! Proved: the page text of each legal pagination, or the line that none is legal, with the text of labels behind it,
//! is read again as that pagination and these labels, in either form of label texts; and labels that are states are in
//! the range in which this holds (`specs/Ranges`, `specs/PageRanges`, `specs/StateRanges`).
//!
//! So what `run --labels` writes, the text of a best pagination, or the line that none is legal, with the labels of the
//! frontier behind it, is read as an output text that shows what solving the galley tells. Its numbers are in the range
//! of what reads back: each label is the state of a beginning, and a run of the space of pages has a cost below 2^60 in
//! size. There is no code here.
#![tactic(auto)]

mod output_laws;
mod recheck_laws;

pub use output_laws::{none_reads_back, pages_read_back, states_are_in_range};
pub use recheck_laws::labelled_texts_tell;
