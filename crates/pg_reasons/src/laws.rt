//! Each law is the contract of a function that does nothing.
ghost use Rattle.pg_reasons.specs.Reasons.{CasesFollow, FollowersAreCases};

use pg_list::Galley;
use pg_style::Style;

/// A case follows exactly where it breaks no rule, and what follows is a case.
pub fn cases_follow(galley: &Galley, style: &Style)
    ensures follow { CasesFollow galley.now style.now }
    ensures cases { FollowersAreCases galley.now style.now }
{}
