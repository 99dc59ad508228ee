//! Where a walk stands between two stretches.

use crate::passed::Passed;

/// Before the front of a choice at a block, or at the galley's end, with what was passed on the way.
#[derive(Clone, Copy)]
pub struct State {
    pub block: u32,
    pub passed: Passed,
}
