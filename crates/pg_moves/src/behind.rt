//! The state behind a column, made once for all ends of a layout, so that a step can be asked about before it is made.
ghost use Rattle.std.specs.Prelude.{◌≡◌, ◌≤◌, ◌+◌, ◌*◌, ◌^◌, ◌%◌, nat_abs, ◌+ℤ◌, ℤ, Some, true, IfOk, IfSome};
ghost use Rattle.pg_rules.specs.Floats.{total_count};
ghost use Rattle.pg_rules.specs.IsState.{IsState};
ghost use Rattle.pg_rules.specs.Room.{Document};
ghost use Rattle.law_moves.specs.Steps.{fitness_cost as fitness_cost_of, kept_fitness as kept_fitness_of};
ghost use Rattle.pg_sources.specs.Document.{doc_of};
ghost use Rattle.law_space.specs.PageSpace.{rank};
ghost use Rattle.pg_plan.specs.declared.states.State.{State as AState};
ghost use Rattle.pg_states.specs.Marks.{along};
ghost use Rattle.pg_moves.specs.Outdone.{AreLeft, AreSameMarks, AreSpared, IsAsked, IsLateBy, marked_at};
ghost use Rattle.pg_moves.specs.Stepping.{IsBehind};

use crate::steps::{fitness_price, kept_fitness, page_price, parts_behind, text_price};
use pg_candidates::RoomEnd;
use pg_list::Place;
use pg_plan::State;
use pg_rooms::Laid;
use pg_scaled::large_plus;
use pg_small::SmallState;
use pg_sources::Sources;
use pg_states::{Line, PageMarks, Settled, place_rank, rest_rank};
use pg_style::Style;
use pg_table::Wants;
use std::alloc::AllocError;

/// The state behind a column of a layout up to one end after another, with what is worked out once for all of them.
#[derive(Drop)]
pub(crate) struct Behind<'a> {
    pub(crate) state: SmallState,
    /// What the column pays for its page's run and for its floats.
    pub(crate) page: i128,
    /// What is remembered of states that differ from this one in place and fitness alone.
    pub(crate) reached: Option<Reached<'a>>,
}

/// What is remembered of states that differ from one in place and fitness alone.
#[derive(Copy, Clone)]
pub(crate) struct Reached<'a> {
    pub(crate) line: Line<'a>,
    /// What the run to the label costs, and what the column pays for its page's run and for its floats.
    pub(crate) cost: i128,
}

// What is remembered of states that differ from this one in place and fitness alone, where the column pays so much for its
// page's run and for its floats.
fn reached_at<'a, W: Wants<State = SmallState, Marks = PageMarks>>(
    wants: &'a W,
    state: &SmallState,
    page: i128,
) -> Option<Reached<'a>>
    requires { nat_abs page ≤ 2 ^ 52 }
    ensures asked { IfSome result (IsAsked state.now) }
    ensures spared { (v : AState) (c : ℤ) → marked_at result v c ≡ true → W.spares wants.now v (page +ℤ c) ≡ true }
{
    let marked = wants.marked()?;
    let cost = i64::try_from(marked.cost).ok()?;
    Some(Reached {
        line: marked.marks.line_of(state),
        cost: i128::from(cost) + page,
    })
}

impl Reached<'_> {
    // Whether a state no worse than that of the line at a place and with a fitness was reached at a lower cost than a column
    // that pays so much beside what is paid already, as far as that is remembered.
    #[inline]
    fn is_outdone(
        &mut self,
        own: &SmallState,
        place: Place,
        fitness: Option<u8>,
        pays: i128,
    ) -> bool
        requires asked { IsAsked own.now self.old }
        requires pays { nat_abs pays ≤ 2 ^ 66 }
        ensures asked { IsAsked own.now self.new }
        ensures same { AreSameMarks self.old self.new }
        ensures told { result ≡ true → marked_at (Some self.old) (along own.now place fitness) pays ≡ true }
    {
        let cost = large_plus(self.cost, pays);
        self.line.is_outdone(own, place, fitness, cost)
    }
}

// A rank of its two parts, in 64 bits.
fn joined(place: u64, tail: u64) -> u64
    ensures { result ≡ (2 ^ 18 * place + tail) % 2 ^ 64 }
{
    place.wrapping_mul(1 << 18).wrapping_add(tail)
}

/// The state behind a column of a layout, where it begins, with nothing asked yet of what is remembered.
#[inline(always)]
pub(crate) fn first_behind<'a>(
    sources: &Sources<'_>,
    state: &State,
    laid: &Laid,
    settled: &Settled,
) -> Result<Behind<'a>, AllocError>
    requires own { IsState (doc_of sources.now) state.now }
    requires price { settled.now.price ≤ 2 ^ 51 }
    ensures { IfOk result (IsBehind sources.now.style.now state.now laid.now settled.now) }
{
    let style = sources.style;
    let page = page_price(style, state, laid, settled.price);
    let next = parts_behind(style, state, laid, state.place, None, &settled.ages);
    Ok(Behind {
        state: SmallState::of_parts(sources.alloc, &next)?,
        page,
        reached: None,
    })
}

impl<'a> Behind<'a> {
    /// Asks what is remembered of states that differ from this one in place and fitness alone. It is asked where the state
    /// stands, so that this is not handed on any more.
    pub(crate) fn ask<W: Wants<State = SmallState, Marks = PageMarks>>(&mut self, wants: &'a W)
        requires { nat_abs self.old.page ≤ 2 ^ 52 }
        ensures same { self.new ≡ record self.old { reached = self.new.reached } }
        ensures spared { AreSpared (W.spares wants.now) self.new }
    {
        self.reached = reached_at(wants, &self.state, self.page);
    }
}

impl Behind<'_> {
    /// Lets the column end at this end.
    pub(crate) fn end_at(&mut self, style: &Style, end: &RoomEnd)
        ensures { self.new ≡ record self.old {
          state = record self.old.state {
            place = end.now.to;
            fitness = kept_fitness_of style.now end.now.cost.fitness;
          };
        } }
    {
        self.state
            .end_at(end.to, kept_fitness(style, end.cost.fitness));
    }

    // Whether a state no worse than that behind a column to this end was reached at a lower cost, as far as that is
    // remembered.
    #[inline]
    fn is_late(
        &self,
        style: &Style,
        state: &State,
        reached: &mut Reached<'_>,
        end: &RoomEnd,
    ) -> bool
        requires asked { IsAsked self.now.state reached.old }
        ensures asked { IsAsked self.now.state reached.new }
        ensures same { AreSameMarks reached.old reached.new }
        ensures late { result ≡ true → IsLateBy style.now state.now self.now.state (Some reached.old) end.now }
    {
        let fitness = end.cost.fitness;
        let pays = large_plus(
            text_price(end),
            fitness_price(style, state.fitness, fitness),
        );
        reached.is_outdone(&self.state, end.to, kept_fitness(style, fitness), pays)
    }

    // The same where there are some. A method of its own, so that what the loop does not write is read once.
    #[inline(never)]
    fn skip_some<'e>(&self, style: &Style, state: &State, ends: &'e [RoomEnd]) -> &'e [RoomEnd]
        requires { IfSome self.now.reached (IsAsked self.now.state) }
        ensures { AreLeft style.now state.now self.now ends.now result.now }
    {
        let Some(mut reached) = self.reached else {
            return ends;
        };
        let mut rest = ends;
        'ends: while let [end, after @ ..] = rest {
            if !self.is_late(style, state, &mut reached, end) {
                return rest;
            }
            rest = after;
        }
        rest
    }

    /// These ends from the first one on whose state was not reached at a lower cost, as far as that is remembered.
    #[inline(always)]
    pub(crate) fn skip_outdone<'e>(
        &self,
        style: &Style,
        state: &State,
        ends: &'e [RoomEnd],
    ) -> &'e [RoomEnd]
        requires { IfSome self.now.reached (IsAsked self.now.state) }
        ensures { AreLeft style.now state.now self.now ends.now result.now }
    {
        if ends.is_empty() {
            return ends;
        }
        self.skip_some(style, state, ends)
    }

    /// The rank of the state, behind which so many floats are placed, or what 64 bits hold of it where it is none of the
    /// space's own.
    pub(crate) fn rank(&self, placed: u32) -> u64
        requires { placed ≡ total_count self.now.state.placed }
        ensures { (doc : Document) → result ≡ rank doc self.now.state % 2 ^ 64 }
    {
        joined(place_rank(&self.state), rest_rank(&self.state, placed))
    }

    /// What the column of text to an end costs.
    pub(crate) fn cost_to(&self, style: &Style, state: &State, end: &RoomEnd) -> i128
        requires { nat_abs self.now.page ≤ 2 ^ 52 }
        ensures { result ≡ (end.now.cost.demerits +ℤ end.now.pick_demerits)
            +ℤ (self.now.page +ℤ fitness_cost_of style.now state.now.fitness end.now.cost.fitness) }
    {
        large_plus(
            text_price(end),
            large_plus(
                self.page,
                fitness_price(style, state.fitness, end.cost.fitness),
            ),
        )
    }
}
