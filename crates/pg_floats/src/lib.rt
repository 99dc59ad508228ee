//! The floats of a galley: their sizes and callouts, the areas of a page that they stand in, and those that wait or
//! remain.
//!
//! `FloatList` is proved to be the list of floats that pg_rules (`specs/Floats.antt`) defines, with the callouts before
//! a place and the height of an area; `specs/AreFloats.antt` says what a list is of a galley. The list keeps the places
//! of the inserts in every variant, so that the callouts before a place are counted by searches by halves. `Queue` is
//! proved to keep, after any callouts, placings and ends of pages, the placed floats and the ages that counting gives
//! (`specs/QueueValue.antt`, `specs/History.antt`).
//!
//! Of areas: what may stand where is what the rules say of the float class of a slot (`specs/Spots`); counts are
//! allowed exactly where rule 7, counts of areas, says so; and a height is that of the rules (`checked_height` of
//! pg_rules), from 0 to four floats, three separators and a gap (`specs/Given`). Of the rest of a galley: `is_spent_at`
//! says of each place whether only discardable items stand from there on, and `has_dealt_all` whether each class has
//! placed all its floats, as the rules say (`specs/Legal` of pg_rules).
#![tactic(auto)]

mod area;
mod areas;
mod callouts;
mod counts;
mod fault;
mod inserts;
mod laws;
mod list;
mod queue;
mod remains;
mod spot;

pub use areas::{checked_area, checked_give, full_height};
pub use callouts::first_items_of;
pub use counts::{count_floats, entry, is_allowed, plus, total};
pub use fault::FloatFault;
pub use laws::{queues_count_history, queues_stay_young};
pub use list::FloatList;
pub use queue::{Late, Queue};
pub use remains::{has_dealt_all, is_spent_at, text_block_at};
pub use spot::{Spot, slots_of, table_of};
