//! What is told of a galley whose labels are not listed.

use pg_space::Outcome;

/// What is told of a galley whose labels are not listed: its best pagination with its cost, or that none is legal, and
/// how many labels its frontier has.
#[derive(Drop)]
pub struct Told {
    pub outcome: Outcome,
    pub labels: usize,
}
