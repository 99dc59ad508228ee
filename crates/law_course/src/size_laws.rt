//! Each law is the contract of a function that does nothing. Their premise is what the types of a galley and of a style
//! keep.
ghost use Rattle.pg_rules.specs.Ranges.{AreInRange};
ghost use Rattle.law_course.specs.SizeLaws.{FirstFitsAreShort, LegalAreSmall};

use law_columns::unbroken_plans_keep_rules;
use law_space::{pages_are_a_space, runs_are_beginnings};
use pg_greedy::first_fit_is_one;
use pg_list::Galley;
use pg_style::Style;

/// A legal pagination has fewer than 2^30 pages, and fewer than 2^21 where there are no more floats than a list of them
/// may have; it costs less than 2^60 in size.
pub fn legal_plans_are_small(galley: &Galley, style: &Style)
    requires { AreInRange galley.now style.now }
    ensures { LegalAreSmall galley.now style.now }
{
    pages_are_a_space(galley, style);
    runs_are_beginnings(galley, style);
    unbroken_plans_keep_rules(galley, style);
}

/// A first fit has at most 2^20 pages, each of one column.
pub fn first_fits_are_short(galley: &Galley, style: &Style)
    requires { AreInRange galley.now style.now }
    ensures { FirstFitsAreShort galley.now style.now }
{
    first_fit_is_one(galley, style);
}
