//! Finished horizontal lists: paragraphs of items, and the reading of a file of them.
//!
//! Proved: `read_paras` answers the paragraphs that the text says, or its first fault with its line and kind; only want
//! of memory may come in place of either. A paragraph has at most 2^11 items, each within the ranges of a list. The
//! definitions are functions of the list of lines: `specs/Nodes` and `specs/ParsedLine` tell what one line says,
//! `specs/Reading` what all lines say. Known files, and some for each kind of fault, are computed in `proofs/Known`.
#![tactic(auto)]

mod draft;
mod item;
mod node;
mod para;
mod parsed;
mod read;

pub use draft::Draft;
pub use item::{HItem, HNode, ParaLine};
pub use para::{Para, Paras};
pub use read::read_paras;
