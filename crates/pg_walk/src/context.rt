//! What walks go over.
use pg_hops::BreakIndex;
use pg_list::Galley;
use pg_style::Style;
use std::alloc::Global;

/// What the walks of one search share: where memory comes from, a galley, its style, the index of its breaks, and the
/// greatest room, in scaled points. They go up to breaks that are forced or that no room up to that one lets pass.
#[derive(Clone, Copy)]
pub struct Context<'a> {
    pub alloc: Global,
    pub galley: &'a Galley,
    pub style: &'a Style,
    pub index: &'a BreakIndex,
    pub top: i64,
}
