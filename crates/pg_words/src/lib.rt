//! Words of a text: how numbers, counts, places and sides are written, and read in that one spelling.
//!
//! Proved: what is written is the text of the definition; a word is read exactly where it is the one spelling of what
//! it says, and a line is cut into words at single blanks. The definitions are in `specs/Written`, `specs/Read` and
//! `specs/InOrder`; `proofs/WorkedWords` computes them.
#![tactic(auto)]

mod lists;
mod numbers;
mod printing;
mod scaled;
mod words;

pub use lists::{read_ages, read_counts, read_picks};
pub use numbers::{behind_minus, digits};
pub use printing::{
    print_ages, print_counts, print_decimal, print_picks, print_place, print_side, print_whole,
};
pub use scaled::{behind_point, read_length, read_length_or_none};
pub use words::Words;
