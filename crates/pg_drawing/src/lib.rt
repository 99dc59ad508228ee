//! The drawing of a page text: its pages, their columns, the areas of these, and a mark for each item line.
//!
//! Proved: `read_drawing` answers the drawing that the definition makes of the lines of a text; the marks of each of its
//! areas are those of item lines, one for each and in order, each begins where the one before it ends, and the area is as
//! high as its lines say together; `adds_up` tells whether a total is that of marks, and takes each that is made so. The
//! definitions are in `specs/Pieces`, `specs/Shapes`, `specs/Signs`, `specs/Letters`, `specs/Drawn` and `specs/Totals`;
//! `specs/Laws` says what a drawing shows, and `proofs/WorkedDrawings` computes some.
#![tactic(auto)]

mod heads;
mod letters;
mod model;
mod pieces;
mod read;
mod series;
mod shapes;
mod signs;
mod totals;
mod widths;

pub use letters::read_letters;
pub use model::{
    AreaName, Drawing, DrawnArea, DrawnColumn, DrawnPage, Ends, Head, Mark, Numbers, PageHead,
    Shape,
};
pub use read::read_drawing;
pub use series::Series;
pub use shapes::extent;
pub use totals::adds_up;
