//! The layouts with which a column may follow a state: its page's run, and how many floats of each class stand where.
//!
//! Proved: the lists of counts are all within limits and a sum, each once (`specs/Counts`, `specs/Laws`); and the code
//! answers the lists and the layouts that the definitions name (`specs/Layouts`), in their order.
#![tactic(auto)]

mod counting;
mod kind;
mod laws;
mod layout;
mod layouts;
mod limits;
mod lists;
mod runs;
mod search;

pub use counting::count_lists;
pub use laws::counts_are_listed;
pub use layout::Layout;
pub use layouts::plus_counts;
pub use limits::area_limits;
pub use lists::ListedCounts;
pub use runs::{float_layouts, text_layouts};
