//! Paragraphs broken into lines, and as a galley of choices: each in its best number of lines, and in others around it.
//!
//! Proved: the galley that `break_lines` answers is the one that `specs/Galleys` of law_lines defines, each variant the
//! least in demerits of its number of lines and the first among equals; a paragraph is refused exactly where no way to
//! break it is legal, and the galley where its items pass the limit; the first paragraph at fault decides.
//!
//! Below that: `LineSums` holds the sums over the items that were added, and says of them whether a line is over and
//! how bad it is; `line_box` answers the box that `specs/Boxes` of law_lines defines, with its text item by item;
//! `LineLists` holds exactly the lines that may stand, with their demerits, each found once; `BestSpace` and
//! `LineSpace` are spaces of the table with the meanings of law_lines; `fewest_lines` tells a bound from below on the
//! lines to the end; `best_count` answers the best number of lines, or that there is no way; `least_way` answers the
//! least way of a number of lines, the first among equals, or that there is none. `specs/Ends` lists the lines from a
//! place, `specs/Found` says what is found.
#![tactic(auto)]

mod ahead;
mod best;
mod boxes;
mod choice;
mod count;
mod ends;
mod fewest;
mod galley;
mod glue;
mod line;
mod lines;
mod lists;
mod near;
mod runs;
mod sizes;
mod sums;
mod text;
mod ways;

pub use ahead::Fall;
pub use best::BestSpace;
pub use boxes::line_box;
pub use count::best_count;
pub use ends::{LineEnd, LineEnds};
pub use fewest::fewest_lines;
pub use galley::break_lines;
pub use line::LineSpace;
pub use lists::LineLists;
pub use sums::LineSums;
pub use ways::{Way, least_way};
