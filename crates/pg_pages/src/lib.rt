//! The page text: what is written of a pagination.
//!
//! `print_pages` is proved to append exactly the text that `specs/PageText.antt` defines, for every legal pagination of
//! every galley and style. `proofs/WorkedTexts.antt` computes that text for galleys with floats, notes, soft glue and
//! bodies of several lines. How the printer goes is in `specs/Printed.antt`, `specs/Seated.antt` and
//! `specs/Sheets.antt`, which nobody need believe.
#![tactic(auto)]

mod areas;
mod bodies;
mod column;
mod column_numbers;
mod gaps;
mod glue;
mod lines;
mod matter;
mod number_line;
mod parts;
mod seats;
mod segment;
mod sheets;
mod text;

pub use lines::print_none;
pub use sheets::print_pages;
