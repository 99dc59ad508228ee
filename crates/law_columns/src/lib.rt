//! Columns behind a beginning: what follows its state, how beginnings grow, and how large states and columns may be.
//!
//! Proved: a column stands after a beginning exactly where it follows its state, with the same next state and cost,
//! ages included; and what follows a state follows each that is no worse. A column that follows a beginning's state
//! makes a longer beginning, and each beginning arises so; no rule is broken exactly where each column keeps all; and
//! the orders of paginations and of states are total. The start is a state, what follows a state is one, and a column
//! costs no more than its picks and floats allow.
//!
//! The one premise of all laws is `AreInRange` of pg_rules. There is no code here.
#![tactic(auto)]

mod beginning_laws;
mod bound_laws;
mod column_laws;

pub use beginning_laws::{beginnings_grow_by_followers, order_is_total, unbroken_plans_keep_rules};
pub use bound_laws::{columns_cost_little, states_lead_to_states};
pub use column_laws::no_worse_simulates;
