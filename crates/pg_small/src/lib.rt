//! States, labels, columns and layouts in few bytes, for a search that keeps hundreds of thousands of them.
//!
//! A state takes 40 bytes, a column 64, a layout 24. What does not fit stands on the heap, so that nothing is refused. Proved: each
//! stands for exactly the state, label, column or layout that it was made of, and a change or a comparison is that of theirs.
#![tactic(auto)]

mod labels;
mod layouts;
mod lists;
mod moves;
mod picks;
mod rest;
mod states;

pub use labels::{SmallLabel, small_labels};
pub use layouts::SmallLayout;
pub use moves::SmallMove;
pub use states::{SmallState, StateParts};

// The sizes for which this crate is there.
const _: () = prove_eq!(std::mem::size_of::<SmallState>(), 40);

const _: () = prove_eq!(std::mem::size_of::<SmallMove>(), 64);

const _: () = prove_eq!(std::mem::size_of::<SmallLabel>(), 64);
