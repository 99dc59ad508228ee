//! The program that draws output texts: one page of HTML with a picture of each page, and the pages of two texts side
//! by side.
//!
//! Proved: the words are read as `specs/Words` says; where a text is drawn it is a page text or an output text, and one
//! that is refused is neither, with the line of `specs/Texts`; each ending has its status and its line (`specs/Lines`),
//! which is what is said; nothing is written unless all files are drawn; and whatever stands in a file comes into the
//! page without markup (`specs/Escaped`). Of the rest of the page no more is proved than that printing it is safe and
//! ends.
#![tactic(auto)]

mod card;
mod course;
mod ending;
mod marks;
mod open;
mod overview;
mod page;
mod pair;
mod pieces;
mod shapes;
mod styles;
mod system;
mod target;
mod tell;
mod words;

pub use course::serve;
pub use ending::{Ending, Status};
pub use system::program;
