//! The law is the contract of a function that does nothing. Its premise is what the types of a galley
//! and of a style keep.
ghost use Rattle.pg_rules.specs.Ranges.{AreInRange};
ghost use Rattle.law_columns.specs.ColumnLaws.{NoWorseFollow, NoWorseDone};

use pg_list::Galley;
use pg_style::Style;

/// Whatever may follow a state may follow each that is no worse, at a cost that is not greater, to
/// a state that is no worse; and nothing is left to do there where nothing is left in the other.
pub fn no_worse_simulates(galley: &Galley, style: &Style)
    requires { AreInRange galley.now style.now }
    ensures follow { NoWorseFollow galley.now style.now }
    ensures done { NoWorseDone galley.now style.now }
{}
