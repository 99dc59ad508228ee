//! Each law is the contract of a function that does nothing but ask for the ranges that the types of a galley and of a
//! style keep.
ghost use Rattle.law_read_back.specs.OutputLaws.{PagesReadBack, NoneReadsBack, StatesAreInRange};

use pg_column::blocks_of;
use pg_list::Galley;
use pg_style::Style;

/// The page text of each legal pagination, with the text of any labels in range behind it, is read again as this
/// pagination and these labels.
pub fn pages_read_back(galley: &Galley, style: &Style)
    ensures { PagesReadBack galley.now style.now }
{
    let _ = galley.width();
    let _ = blocks_of(galley);
    style.stays_in_range();
}

/// The text that says that no pagination is legal, with the text of any labels in range behind it, reads back.
pub fn none_reads_back()
    ensures { NoneReadsBack }
{}

/// Labels that are states of a galley under a style, with costs of 128 bits, are in the range in which label texts read
/// back, where the galley has no more floats than a list of floats may have.
pub fn states_are_in_range(galley: &Galley, style: &Style)
    ensures { StatesAreInRange galley.now style.now }
{
    let _ = blocks_of(galley);
    style.stays_in_range();
}
