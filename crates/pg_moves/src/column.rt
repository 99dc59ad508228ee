//! What stays the same while a state is opened, and while ends of one of its columns are asked about.

use pg_candidates::NearList;
use pg_plan::State;
use pg_rooms::Laid;
use pg_sources::Sources;
use pg_states::Known;

/// A state that is opened, the sources, and what is known of the state.
#[derive(Clone, Copy)]
pub(crate) struct Opening<'a> {
    pub(crate) sources: &'a Sources<'a>,
    pub(crate) state: &'a State,
    pub(crate) known: &'a Known,
}

/// A column of text from a state that is opened, in one layout, and the candidates among which are its ends.
#[derive(Clone, Copy)]
pub(crate) struct TextColumn<'a> {
    pub(crate) sources: &'a Sources<'a>,
    pub(crate) state: &'a State,
    pub(crate) known: &'a Known,
    pub(crate) laid: &'a Laid,
    pub(crate) near: &'a NearList,
}
