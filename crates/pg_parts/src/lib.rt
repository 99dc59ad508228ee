//! What each column of a pagination adds to its cost, part by part.
//!
//! Proved: of columns each of which may stand behind those before it, `price_columns` tells the page, the numbers and
//! each part of the cost as pg_rules defines them (`specs/Priced`), and the parts of all columns add up to the cost
//! (`specs/Parts`). What is told of floats that wait is not proved.
#![tactic(auto)]

mod laws;
mod part;
mod priced;
mod pricing;
mod sums;
mod walk;

pub use laws::{columns_add_up, parts_add_up};
pub use part::Part;
pub use priced::{PlacedFloat, PricedColumn};
pub use sums::sum_of;
pub use walk::{Pricing, price_columns};
