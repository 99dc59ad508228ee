//! Each law is the contract of a function that does nothing. Their premises are what the types of a
//! galley and of a style keep.
ghost use Rattle.pg_rules.specs.Ranges.{AreInRange};
ghost use Rattle.law_texts.specs.Texts.{CalloutsReadFlat, ColumnsReadFlat, LegalHaveEachOnce, RulesReadTheFlatList};

use pg_list::Galley;
use pg_style::Style;

/// The texts of a legal pagination's columns, joined, are the flat list of its picks, but for
/// discardable items at its end; each box, rule, insert and carry stands once in the segments, in
/// order; the floats of each class are dealt out once, in order; and there are as many picks as
/// choices, each of which names a variant of its choice.
pub fn legal_plans_have_each_once(galley: &Galley, style: &Style)
    requires { AreInRange galley.now style.now }
    ensures { LegalHaveEachOnce galley.now style.now }
{}

/// Every column of a pagination whose columns fit reads from its own text what the one flat list
/// of the galley, with all picks of the pagination, says between the column's places: its items and
/// segments, the penalties of its breaks, which of them are forced, and what is spent. So each rule
/// on a text column, its fitness and its demerits are those of that part of the flat list; and the
/// callouts before a column's end are the inserts that stand before it in the flat list.
pub fn columns_read_the_flat_list(galley: &Galley, style: &Style)
    requires { AreInRange galley.now style.now }
    ensures reads { ColumnsReadFlat galley.now style.now }
    ensures rules { RulesReadTheFlatList galley.now style.now }
    ensures callouts { CalloutsReadFlat galley.now style.now }
{}
