//! Paragraphs broken into lines, as definitions: which ways to break a paragraph are legal, what each costs, which is
//! the least of its number of lines, and the galley of choices that they make.
//!
//! The definitions are those of `specs/`, in reading order: `Lines` (a line, its sums, when it may stand), `Ways` (ways,
//! their demerits, the least way, the best number of lines), `Boxes` (a line as a box with set glue), `Variants`,
//! `Galleys`, `Listing` (all ways of a small paragraph listed, as a plain slow answer). `proofs/` computes worked
//! examples.
//!
//! The lines of a paragraph are a space (`specs/LineSpace`): a state is where the next line starts and how many lines
//! stand before it, a move the place where a line ends. Proved: the space keeps all laws of a space; its runs are the
//! ways whose lines may stand, at their demerits; and a filled table of it tells for each number of lines the least way,
//! or that there is none.
//!
//! Proved too: the paragraphs that a file says are within their ranges, and their items have clean lines (`specs/Clean`);
//! each item of the galley that such paragraphs make shows what it is; and the text of that galley reads back to it.
//!
//! There is no code here but the types of a rule, of its faults and of a state.
#![tactic(auto)]

mod line_laws;
mod line_space_laws;
mod paragraphs_laws;
mod rule;
mod state;

pub use line_laws::{lines_read_back, lines_show_items, paragraphs_are_clean};
pub use line_space_laws::{
    best_label_tells_best_count, breaks_are_a_space, filled_table_tells_ways, lines_are_a_space,
    runs_are_lines,
};
pub use paragraphs_laws::{listing_is_broken, one_is_broken, paragraphs_make_blocks};
pub use rule::{LineFault, LineRule};
pub use state::LineState;
