//! Each law is the contract of a function that does nothing. Their premises are what the types of a
//! galley and of a style keep.
ghost use Rattle.std.specs.Cmp.{IsTotalOrder};
ghost use Rattle.std.specs.Prelude.{◌≡◌};
ghost use Rattle.std.specs.declared.cmp.Ordering.TheVariants.{Equal};
ghost use Rattle.pg_plan.specs.Order.{plan_cmp};
ghost use Rattle.pg_plan.specs.declared.states.State.{State};
ghost use Rattle.pg_rules.specs.Frontier.{state_cmp};
ghost use Rattle.pg_rules.specs.Ranges.{AreInRange};
ghost use Rattle.law_columns.specs.BeginningLaws.{FollowersArePushed, BeginningsFollow, UnbrokenKeepRules, PrefixesKeepRules, LegalAreDone, OrderTellsApart};

use pg_list::Galley;
use pg_style::Style;

/// A column that may follow the state of a beginning makes a longer beginning, in the state, with
/// the waiting floats and at the cost that it gives; and each beginning that has a page arises so.
pub fn beginnings_grow_by_followers(galley: &Galley, style: &Style)
    requires { AreInRange galley.now style.now }
    ensures pushed { FollowersArePushed galley.now style.now }
    ensures arises { BeginningsFollow galley.now style.now }
{}

/// No rule is broken exactly where the pages are filled, each column may stand after those before
/// it, the end is spent and all floats are placed; it is so for beginnings, whose floats may wait;
/// and a pagination is legal exactly where it is a beginning with nothing left to do.
pub fn unbroken_plans_keep_rules(galley: &Galley, style: &Style)
    requires { AreInRange galley.now style.now }
    ensures breach { UnbrokenKeepRules galley.now style.now }
    ensures prefix { PrefixesKeepRules galley.now style.now }
    ensures legal { LegalAreDone galley.now style.now }
{}

/// The order among paginations of equal cost is total, and paginations that fill their pages are
/// equal where it says so; the order of states is total, and says equal only for equal states.
pub fn order_is_total(style: &Style)
    ensures total { IsTotalOrder plan_cmp }
    ensures equal { OrderTellsApart style.now }
    ensures states { IsTotalOrder state_cmp }
    ensures equal_states { (a b : State) → state_cmp a b ≡ Equal → a ≡ b }
{}
