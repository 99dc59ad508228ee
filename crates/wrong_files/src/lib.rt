//! Calls of what reads and prints, with the clauses that they have there, so that wrong bodies can be tried against
//! these clauses at little cost. No program stands on it.
//!
//! Each body is one call. What refuses a wrong body here refuses it there as well, since the clauses are the same word
//! for word.
#![tactic(auto)]

mod drawings;
mod galleys;
mod outputs;
mod paragraphs;
mod said;
mod scripts;
mod styles;

pub use drawings::serve_drawing;
pub use galleys::{choose, read_galley, read_glue, splice};
pub use outputs::read_output;
pub use paragraphs::read_paras;
pub use said::say_line;
pub use scripts::read_script;
pub use styles::{make_distance, read_style};
