//! The text of labels, and output texts: a page text followed by a label text.
//!
//! Proved: `print_labels` appends the label text of the definition, in either form; `read_output` answers what an
//! output text says exactly where it is one, and else the first line at which it is none. The definitions are in
//! `specs/LabelText`, `specs/PageLines`, `specs/LabelLines`, `specs/Drafts` and `specs/Reading`; `proofs/Worked`
//! computes them on texts.
#![tactic(auto)]

mod draft;
mod label_lines;
mod output;
mod page_lines;
mod print;
mod read;

pub use output::{Output, OutputFault, Shown};
pub use print::print_labels;
pub use read::read_output;
