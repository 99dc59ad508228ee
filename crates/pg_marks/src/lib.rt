//! The marks of pages, and references to pages, as TeX's marks are (The TeXbook, chapter 23).
//!
//! Proved, for every list of pages whose columns fit their galley: `heads` tells of each page the mark that was last
//! before it, its first and its last; `references` tells of each use its page and the page of the first label of its
//! name; and what is printed is the text of the definition. The definitions are in `specs/Carries`, `specs/Heads` and
//! `specs/HeadsText`; `proofs/WorkedMarks` computes them.
#![tactic(auto)]

mod carries;
mod lists;
mod page_items;
mod print;
mod running;
mod uses;

pub use carries::{label_of, mark_of, use_of};
pub use lists::{Head, HeadList, Reference, ReferenceList};
pub use print::print_heads;
pub use running::heads;
pub use uses::references;
