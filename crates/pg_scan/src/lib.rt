//! Any text, scanned: its lines, its parts between separators, fixed texts, names, and numbers; and a text of several
//! lines printed with a point in front of each.
//!
//! Proved: each line comes with its number, without the carriage returns at its end, and joined with what follows it
//! where it is of the full width; no part is lost where a text is cut at a byte; a fixed text, a name or a number is
//! found in front exactly where its definition says so; a printed text has a point behind each line feed. The definitions are in `specs/Lines` and `specs/Parts`.
#![tactic(auto)]

mod bodies;
mod lines;
mod numbers;
mod parts;

pub use bodies::print_dotted;
pub use lines::{first_line_len, take_line, whole_line};
pub use numbers::{capped_value, whole_word};
pub use parts::{letter_first, named, skip, skip_if, split_part};
