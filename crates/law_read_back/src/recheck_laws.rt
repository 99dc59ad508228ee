//! The law is the contract of a function that does nothing but ask for other laws.
ghost use Rattle.law_read_back.specs.RecheckLaws.{BestTextTells, NoneTextTells};

use crate::{none_reads_back, pages_read_back, states_are_in_range};
use law_check::frontier_passes;
use law_columns::unbroken_plans_keep_rules;
use law_space::{pages_are_a_space, runs_are_beginnings};
use pg_list::Galley;
use pg_style::Style;

/// The page text of a best pagination, or the line that none is legal, with the labels of the frontier behind it, is an
/// output text that shows what solving the galley tells. The galley has no more floats than a list of floats may have,
/// and the text fewer than 2^64 bytes.
pub fn labelled_texts_tell(galley: &Galley, style: &Style)
    ensures best { BestTextTells galley.now style.now }
    ensures none { NoneTextTells galley.now style.now }
{
    style.stays_in_range();
    // hands on the ranges of the blocks
    let _ = galley.blocks().as_slice();
    pages_read_back(galley, style);
    none_reads_back();
    states_are_in_range(galley, style);
    frontier_passes(galley, style);
    pages_are_a_space(galley, style);
    runs_are_beginnings(galley, style);
    unbroken_plans_keep_rules(galley, style);
}
