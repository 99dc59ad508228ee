//! What a drawn page shows, as values, apart from HTML: places and sizes in a picture, the spaces between boxes, the
//! letters that have room, and what is told of a page in numbers.
//!
//! Proved: the glue and kerns between two boxes are drawn as their sum (`specs/Spaces`); a column is full, or short or
//! long by the distance of its total from its goal, and a page as bad as the worst of its columns (`specs/Fills`); a file
//! is named without its folders (`specs/Names`).
#![tactic(auto)]

mod count;
mod fill;
mod frame;
mod gaps;
mod lengths;
mod letters;
mod spaces;
mod view;

pub use count::{column_picks, count_floats, count_notes, waiting_of};
pub use fill::{Fill, Worst, badness_step, column_fill, page_badness, worst_pages};
pub use frame::{
    Frame, all_cost, area_room, areas_height, both, column_cost, frame_of, full_width, larger,
    left_of, page_height, quotient, shorter, units,
};
pub use gaps::{Gap, Stack, TextEnds, areas_apart, column_stack, gap_of, is_text, wide_stack};
pub use lengths::{Foot, Length, column_foot, page_length};
pub use letters::{
    Lines, Row, first_letters, letter_count, next_row, row_count, row_of, usual_lines,
};
pub use spaces::{Space, change_step, space_len, space_of};
pub use view::{View, base_name, is_side};
