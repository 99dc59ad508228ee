//! Changes of one number of a style under which a galley, of which nothing is legal, has a legal pagination; or of two,
//! where none helps alone.
//!
//! Proved: under the value of a change something is legal; and where it is told as the least, nothing is under the next
//! value back (`specs/Changes`). Of the tolerance, the looseness, the least height of a text and the counts of floats,
//! but of those across a page, nothing is under any value that changes the style less (`least_are_least`). That a change
//! is told of each number that helps is not proved, since searches may run out.
#![tactic(auto)]

mod change;
mod classes;
mod helping;
mod kinds;
mod laws;
mod number;
mod pairs;
mod tries;
mod trying;

pub use change::{Change, with_number};
pub use helping::{Helping, helping_of};
pub use laws::least_are_least;
pub use number::{Number, value_of};
pub use pairs::Pair;
pub use tries::SEARCHES;
pub use trying::{Trial, Tried, try_number, try_value};
