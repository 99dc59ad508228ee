//! Layouts that are kept for states behind which the same ones stand.
ghost use Rattle.std.specs.Prelude.{◌≡◌, ◌++◌, ◌∷◌, ◌⊎◌, [], slice_get, true, IfOk, IfSome, MatchOption, OnOk, Some};
ghost use Rattle.pg_rules.specs.IsState.{IsState};
ghost use Rattle.pg_rules.specs.Room.{Document};
ghost use Rattle.pg_sources.specs.Document.{doc_of};
ghost use Rattle.pg_rooms.specs.KeptLaid.{AreLayouts, AreStaysOf, AreTextsOf, DoesServe, laid_at as laid_at_of};
ghost use Rattle.pg_rooms.specs.Laid.{HasSoMany};

use crate::laid::Laid;
use crate::laying::{lay_floats, lay_texts};
use pg_plan::{Counts, State};
use pg_sources::Sources;
use std::alloc::{AllocError, Global};

// For how many states layouts are kept. States that are opened one after another differ in few of their parts.
const MOST: usize = 64;

/// What was laid behind a state, with counts up to a ceiling.
#[derive(Drop)]
pub struct KeptLaid {
    state: State,
    ceiling: Counts,
    laid: Vec<Laid>,
}

/// The layouts of columns of text, and those of columns without text, behind the states for which they were asked last.
/// They depend on a state's column, run, wide area and placed floats, and on the ceiling, so that states of many places share
/// them.
#[derive(Drop)]
pub struct Layouts {
    texts: Vec<KeptLaid>,
    stays: Vec<KeptLaid>,
}

impl KeptLaid {
    // Whether it serves for a state, with counts up to a ceiling.
    fn serves(&self, state: &State, ceiling: &Counts) -> bool
        ensures { result ≡ true → DoesServe self.now state.now ceiling.now }
    {
        self.state.column == state.column
            && self.state.run == state.run
            && self.state.wide == state.wide
            && self.state.placed == state.placed
            && self.ceiling == *ceiling
    }
}

// Where something is kept that serves for a state, looked for from the last one back.
fn find(kept: &[KeptLaid], state: &State, ceiling: &Counts) -> Option<usize>
    ensures { IfSome result (λ at.
        MatchOption (slice_get kept.now at) ⊥ (λ it. DoesServe it state.now ceiling.now)) }
{
    let mut at = kept.len();
    'kept: while at > 0 {
        at -= 1;
        if kept[at].serves(state, ceiling) {
            return Some(at);
        }
    }
    None
}

// Keeps one more, alone where too many are kept, and answers where it is.
fn keep(kept: &mut Vec<KeptLaid>, it: KeptLaid) -> Result<usize, AllocError>
    ensures kept { OnOk result ((kept.new.items ≡ it ∷ []) ⊎ (kept.new.items ≡ kept.old.items ++ it ∷ [])) }
    ensures at { IfOk result (λ at. slice_get kept.new.items at ≡ Some it) }
{
    if kept.len() >= MOST {
        kept.clear();
    }
    let at = kept.len();
    kept.push(it)?;
    Ok(at)
}

// The layouts at a place among those that are kept.
fn laid_at(kept: &[KeptLaid], at: usize) -> &[Laid]
    ensures { result.now ≡ laid_at_of kept.now at }
{
    match kept.get(at) {
        Some(it) => it.laid.as_slice(),
        None => &[],
    }
}

// What was laid behind a state.
fn kept_for(state: &State, ceiling: &Counts, laid: Vec<Laid>) -> Result<KeptLaid, AllocError>
    ensures { IfOk result (λ it. it ≡ record { state = state.now; ceiling = ceiling.now; laid = laid }) }
{
    Ok(KeptLaid {
        state: state.copy()?,
        ceiling: ceiling.copy()?,
        laid,
    })
}

impl Layouts {
    /// Nothing that is kept. No memory is taken.
    pub fn none(alloc: Global) -> Layouts
        ensures { (doc : Document) → AreLayouts doc result }
    {
        Layouts {
            texts: Vec::new(alloc),
            stays: Vec::new(alloc),
        }
    }

    /// Where the layouts of the columns of text behind a state are kept, with counts up to a ceiling. Those that are not
    /// kept are worked out. The one refusal is want of memory.
    pub fn find_texts(
        &mut self,
        sources: &Sources<'_>,
        state: &State,
        ceiling: &Counts,
    ) -> Result<usize, AllocError>
        requires own { IsState (doc_of sources.now) state.now }
        requires ceiling { HasSoMany (doc_of sources.now) ceiling.now }
        requires kept { AreLayouts (doc_of sources.now) self.old }
        ensures laid { IfOk result (λ at. AreTextsOf (doc_of sources.now) state.now ceiling.now
            (laid_at_of self.new.texts.items at)) }
        ensures kept { OnOk result (AreLayouts (doc_of sources.now) self.new) }
    {
        if let Some(at) = find(self.texts.as_slice(), state, ceiling) {
            return Ok(at);
        }
        let laid = lay_texts(sources, state, ceiling.as_slice())?;
        let it = kept_for(state, ceiling, laid)?;
        keep(&mut self.texts, it)
    }

    /// The same for the layouts of the columns without text.
    pub fn find_stays(
        &mut self,
        sources: &Sources<'_>,
        state: &State,
        ceiling: &Counts,
    ) -> Result<usize, AllocError>
        requires own { IsState (doc_of sources.now) state.now }
        requires ceiling { HasSoMany (doc_of sources.now) ceiling.now }
        requires kept { AreLayouts (doc_of sources.now) self.old }
        ensures laid { IfOk result (λ at. AreStaysOf (doc_of sources.now) state.now ceiling.now
            (laid_at_of self.new.stays.items at)) }
        ensures kept { OnOk result (AreLayouts (doc_of sources.now) self.new) }
    {
        if let Some(at) = find(self.stays.as_slice(), state, ceiling) {
            return Ok(at);
        }
        let laid = lay_floats(sources, state, ceiling.as_slice())?;
        let it = kept_for(state, ceiling, laid)?;
        keep(&mut self.stays, it)
    }

    /// The layouts of columns of text that are kept at a place.
    pub fn texts(&self, at: usize) -> &[Laid]
        ensures { result.now ≡ laid_at_of self.now.texts.items at }
    {
        laid_at(self.texts.as_slice(), at)
    }

    /// The layouts of columns without text that are kept at a place.
    pub fn stays(&self, at: usize) -> &[Laid]
        ensures { result.now ≡ laid_at_of self.now.stays.items at }
    {
        laid_at(self.stays.as_slice(), at)
    }
}
