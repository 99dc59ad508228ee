//! States at the fronts of choices, and the picks that lead from one to the next.
ghost use Rattle.std.specs.Prelude.{◌≡◌, ◌≤◌, ◌+◌, ◌++◌, ◌==◌, ◌&&◌, ◌^◌, OnOk, IfOk};
ghost use Rattle.pg_hops.specs.Index.{AreHops};
ghost use Rattle.pg_hops.specs.OneProof.{AreHops_prop};
ghost use Rattle.pg_notes.specs.declared.sums.NoteSum.{NoteSum as ANoteSum};
ghost use Rattle.pg_rules.specs.Legal.{document};
ghost use Rattle.pg_rules.specs.Ranges.{AreInRange, AreInRange_prop};
ghost use Rattle.pg_hops.specs.declared.state.State.{State as AState};
ghost use Rattle.pg_table.specs.Space.{AreMoves};
ghost use Rattle.law_walk.specs.Candidates.{is_no_greater as is_no_greater_of};
ghost use Rattle.law_walk.specs.Space.{is_no_worse, key_of as walk_key, same_bool, same_key as same_key_of, same_notes as same_notes_of, same_totals as same_totals_of};
ghost use Rattle.pg_walk.specs.Meaning.{IsOwn, IsOwn_prop, greatest_behind, reach_by, space_meaning, state_behind, state_of, steps_by};

use crate::picks::{is_loose_enough, variants_at};
use pg_hops::{BreakIndex, Cursor, State, pass_on};
use pg_list::{Galley, Variant};
use pg_notes::NoteSum;
use pg_style::Style;
use pg_sums::Totals;
use pg_table::{Opened, Space, Step, StepList, Steps};
use std::alloc::{AllocError, Global};
use std::cmp::Ordering;
use std::sync::ledger::Ledger;

/// What states have in common that are compared: the front and the sums.
#[derive(Clone, Copy, PartialEq, Eq, Hash)]
pub struct Key {
    pub block: u32,
    pub totals: Totals,
}

/// The walk from a state, up to breaks that no room up to the greatest one lets pass.
#[derive(Drop)]
pub struct WalkSpace<'a> {
    pub galley: &'a Galley,
    pub style: &'a Style,
    index: &'a BreakIndex,
    pub top: i64,
    pub start: State,
    alloc: Global,
    ghost in_range: { AreInRange galley.now style.now } by { AreInRange_prop galley.now style.now },
    ghost hops: { AreHops galley.now.blocks style.now.maxdepth index.now } by { AreHops_prop galley.now.blocks style.now.maxdepth index.now },
    ghost own: { IsOwn (document galley.now style.now) top start } by { IsOwn_prop (document galley.now style.now) top start },
}

// What is behind a pick: the state, where its stretch is passed, and the greatest block along the stretch.
#[derive(Clone, Copy)]
struct Behind {
    to: Option<State>,
    greatest: u32,
}

// Whether two notes are the same.
fn same_note(a: &NoteSum, b: &NoteSum) -> bool
    ensures { result ≡ ((a.now.size == b.now.size) && same_bool a.now.is_there b.now.is_there) }
{
    if a.size != b.size {
        return false;
    }
    if a.is_there { b.is_there } else { !b.is_there }
}

// Whether the notes are the same, class by class.
fn same_notes(a: &[NoteSum], b: &[NoteSum]) -> bool
    ensures { result ≡ same_notes_of a.now b.now }
{
    let mut left = a;
    let mut right = b;
    'classes: while let [first, after @ ..] = left {
        let [other, behind @ ..] = right else {
            return false;
        };
        if !same_note(first, other) {
            return false;
        }
        left = after;
        right = behind;
    }
    right.is_empty()
}

// Whether a bound is no greater than another.
fn is_no_greater(a: Option<i64>, b: Option<i64>) -> bool
    ensures { result ≡ is_no_greater_of a b }
{
    match a {
        None => true,
        Some(least) => match b {
            None => false,
            Some(other) => least <= other,
        },
    }
}

// Whether two sums are the same.
fn same_totals(a: Totals, b: Totals) -> bool
    ensures { result ≡ same_totals_of a b }
{
    a == b
}

// Whether two states are at one front with the same sums.
fn same_key(a: &State, b: &State) -> bool
    ensures { result ≡ same_key_of (walk_key (state_of a.now)) (walk_key (state_of b.now)) }
{
    a.block == b.block && same_totals(a.passed.sums.totals(), b.passed.sums.totals())
}

// Whether the notes of a state are those of another, and its bound is no greater.
fn is_lighter(a: &State, b: &State) -> bool
    ensures { result ≡ (same_notes_of a.now.passed.notes.sums b.now.passed.notes.sums
        && is_no_greater_of a.now.passed.bound b.now.passed.bound) }
{
    same_notes(a.passed.notes.as_slice(), b.passed.notes.as_slice())
        && is_no_greater(a.passed.bound, b.passed.bound)
}

/// Whether a state is no worse than another.
pub(crate) fn no_worse_than(a: &State, b: &State) -> bool
    ensures { result ≡ is_no_worse (state_of a.now) (state_of b.now) }
{
    same_key(a, b) && is_lighter(a, b)
}

impl<'a> WalkSpace<'a> {
    /// The walk from a state. No memory is taken.
    pub fn new(
        alloc: Global,
        galley: &'a Galley,
        style: &'a Style,
        index: &'a BreakIndex,
        top: i64,
        start: State,
    ) -> WalkSpace<'a>
        requires hops { AreHops galley.now.blocks style.now.maxdepth index.now }
        requires own { IsOwn (document galley.now style.now) top start }
        ensures galley { result.galley.now ≡ galley.now }
        ensures style { result.style.now ≡ style.now }
        ensures top { result.top ≡ top }
        ensures start { result.start ≡ start }
    {
        style.stays_in_range();
        let _ = galley.blocks().as_slice();
        WalkSpace {
            galley,
            style,
            index,
            top,
            start,
            alloc,
        }
    }

    // What is behind a pick at the front of a state.
    fn behind(&self, state: &State, pick: u32) -> Behind
        requires { IsOwn (document self.now.galley.now self.now.style.now) self.now.top state.now }
        ensures to { result.to ≡ state_behind (document self.now.galley.now self.now.style.now) self.now.top state.now
            pick }
        ensures greatest { result.greatest ≡ reach_by (document self.now.galley.now self.now.style.now) self.now.top
            (state_of state.now) pick }
    {
        let ahead = Cursor::picked(self.galley, state.block, pick);
        let passing = pass_on(
            self.galley,
            self.style,
            self.index,
            self.top,
            ahead,
            state.passed,
        );
        let front = passing.front;
        let greatest = passing.greatest;
        match passing.passed {
            None => Behind { to: None, greatest },
            Some(passed) => Behind {
                to: Some(State {
                    block: front,
                    passed,
                }),
                greatest,
            },
        }
    }

    // Adds the step by a pick, where its variant is loose enough and its stretch is passed, and tells the greatest block
    // along the stretch.
    fn add_step(
        &self,
        state: &State,
        pick: u32,
        variant: &Variant,
        found: &mut StepList<State, u32>,
    ) -> Result<u32, AllocError>
        requires { IsOwn (document self.now.galley.now self.now.style.now) self.now.top state.now }
        ensures steps { OnOk result (found.new ≡ found.old
            ++ steps_by (document self.now.galley.now self.now.style.now) self.now.top state.now pick variant.now) }
        ensures greatest { IfOk result (λ n. n ≡ reach_by (document self.now.galley.now self.now.style.now)
            self.now.top (state_of state.now) pick) }
    {
        let Behind { to, greatest } = self.behind(state, pick);
        if !is_loose_enough(self.style, variant) {
            return Ok(greatest);
        }
        let Some(to) = to else {
            return Ok(greatest);
        };
        found.push(Step {
            to,
            by: pick,
            cost: i128::from(variant.demerits),
        })?;
        Ok(greatest)
    }

    // The steps from a state, and one more than the greatest of its front and of the blocks along the stretches of all
    // picks there.
    fn opened(&self, state: &State) -> Result<Opened<State, u32>, AllocError>
        requires { IsOwn (document self.now.galley.now self.now.style.now) self.now.top state.now }
        ensures moves { IfOk result (λ o. AreMoves (space_meaning (document self.now.galley.now self.now.style.now)
            self.now.top self.now.start) state.now o.steps) }
        ensures reach { IfOk result (λ o. o.reach ≡ greatest_behind (document self.now.galley.now self.now.style.now)
            self.now.top (state_of state.now) + 1) }
    {
        let mut found = StepList::new(self.alloc);
        let mut left = variants_at(self.galley, state.block);
        let mut pick = 0u32;
        let mut greatest = state.block;
        'picks: while let [variant, after @ ..] = left {
            greatest = greatest.max(self.add_step(state, pick, variant, &mut found)?);
            left = after;
            pick += 1;
        }
        Ok(Opened {
            steps: found,
            reach: greatest + 1,
        })
    }
}

impl Space for WalkSpace<'_> {
    type State = State;

    type Move = u32;

    type Key = Key;

    ghost use Rattle.pg_rules.specs.Legal.{document};
    ghost use Rattle.pg_walk.specs.Meaning.{space_meaning};
    ghost use Rattle.pg_walk.specs.WalkLawful.{walk_space_lawful};

    ghost meaning = { λ s. space_meaning (document s.galley.now s.style.now) s.top s.start };

    ghost lawful = { λ s. walk_space_lawful s.galley.now s.style.now s.top s.start s.in_range s.own };

    fn start(&self) -> Result<State, AllocError> {
        Ok(self.start)
    }

    fn key(&self, state: &State) -> Result<Key, AllocError> {
        Ok(Key {
            block: state.block,
            totals: state.passed.sums.totals(),
        })
    }

    fn rank(&self, state: &State) -> u64 {
        u64::from(state.block)
    }

    fn block(&self, state: &State) -> u32 {
        state.block
    }

    fn is_done(&self, _state: &State) -> bool {
        false
    }

    fn no_worse(&self, a: &State, b: &State) -> bool {
        no_worse_than(a, b)
    }

    fn order(&self, a: &u32, b: &u32) -> Ordering {
        a.cmp(b)
    }

    fn expand<L: Ledger>(
        &self,
        state: &State,
        steps: &mut Steps<L>,
    ) -> Result<Opened<State, u32>, AllocError> {
        steps.tick();
        self.opened(state)
    }
}
