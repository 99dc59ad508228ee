//! What the page text shows of a legal pagination.
//!
//! Proved: each note stands once in the areas of notes, and each float once in the areas of floats, in order; and where
//! a text is higher than its goal, or lower with glue that can stretch, the widths that its glue is printed with bring it
//! to the goal exactly.
//!
//! There is no code here.
#![tactic(auto)]

mod page_laws;

pub use page_laws::{glue_fills_goals, pages_have_each_once};
