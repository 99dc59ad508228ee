//! Laws of that order, each the contract of a function that does nothing.
ghost use Rattle.std.specs.Prelude.{◌≡◌};
ghost use Rattle.std.specs.Cmp.{IsTotalOrder};
ghost use Rattle.std.specs.declared.cmp.Ordering.TheVariants.{Equal};
ghost use Rattle.pg_plan.specs.Order.{column_cmp, plan_cmp};

use crate::pages::PageMove;

/// The order among columns is total.
pub fn moves_are_ordered()
    ensures { IsTotalOrder column_cmp }
{}

/// Only equal columns are equal in that order.
pub fn equal_moves_are_same()
    ensures { (a b : PageMove) → column_cmp a b ≡ Equal → a ≡ b }
{}

/// The order among paginations is total.
pub fn paginations_are_ordered()
    ensures { IsTotalOrder plan_cmp }
{}
