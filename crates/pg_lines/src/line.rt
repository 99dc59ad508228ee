//! Ways by their number of lines.
ghost use Rattle.std.specs.Prelude.{◌≡◌, ◌≤◌, ◌++◌, length, IfOk, OnOk};
ghost use Rattle.pg_hlist.specs.Items.{IsPara};
ghost use Rattle.law_lines.specs.LineSpace.{IsLineState, is_done as is_done_of, is_same_state, line_meaning};
ghost use Rattle.pg_table.specs.Space.{AreMoves};
ghost use Rattle.pg_lines.specs.Ends.{all_ends};
ghost use Rattle.pg_lines.specs.Moves.{line_step, low_by};
ghost use Rattle.pg_lines.specs.OneProof.{IsPara_prop, lists_set};

use crate::ends::LineEnd;
use crate::fewest::low_at;
use crate::lists::LineLists;
use law_lines::{LineRule, LineState};
use pg_hlist::HItem;
use pg_table::{Opened, Space, Step, StepList, Steps};
use std::alloc::{AllocError, Global};
use std::cmp::Ordering;
use std::sync::ledger::Ledger;

/// The places of a paragraph where a line may start, each with the number of lines before it, up to a greatest number
/// of lines. `low` is how many lines stand at least from a place to the end, told from the end back.
#[derive(Drop)]
pub struct LineSpace<'a> {
    pub rule: &'a LineRule,
    pub items: &'a [HItem],
    pub lists: &'a LineLists,
    pub low: &'a [u32],
    pub most: u32,
    alloc: Global,
    ghost para: { IsPara items.now } by { IsPara_prop items.now },
    ghost listed: { lists.now ≡ all_ends rule.now items.now } by { lists_set lists.now (all_ends rule.now items.now) },
}

// Whether two states are the same.
fn is_same(a: &LineState, b: &LineState) -> bool
    ensures { result ≡ is_same_state a.now b.now }
{
    a.index == b.index && a.lines == b.lines
}

impl<'a> LineSpace<'a> {
    /// The space of a paragraph. No memory is taken.
    pub fn new(
        alloc: Global,
        rule: &'a LineRule,
        items: &'a [HItem],
        lists: &'a LineLists,
        low: &'a [u32],
        most: u32,
    ) -> LineSpace<'a>
        requires para { IsPara items.now }
        requires lists { lists.now ≡ all_ends rule.now items.now }
        ensures rule { result.rule.now ≡ rule.now }
        ensures items { result.items.now ≡ items.now }
        ensures low { result.low.now ≡ low.now }
        ensures most { result.most ≡ most }
    {
        LineSpace {
            rule,
            items,
            lists,
            low,
            most,
            alloc,
        }
    }

    // Adds the step of a line behind so many others, where the end is within reach behind it.
    fn push_step(
        &self,
        lines: u32,
        end: &LineEnd,
        found: &mut StepList<LineState, u32>,
    ) -> Result<(), AllocError>
        requires { lines ≤ length self.now.items.now }
        ensures { OnOk result (found.new ≡ found.old
            ++ line_step (low_by (length self.now.items.now) self.now.low.now) self.now.most lines end.now) }
    {
        let low = low_at(self.low, self.items.len(), end.place);
        if u64::from(lines) + 1 + u64::from(low) <= u64::from(self.most) {
            found.push(Step {
                to: LineState {
                    index: end.place,
                    lines: lines + 1,
                },
                by: end.place,
                cost: i128::from(end.demerits),
            })?;
        }
        Ok(())
    }

    // The steps from a state.
    fn moves(&self, state: &LineState) -> Result<StepList<LineState, u32>, AllocError>
        requires { IsLineState self.now.items.now state.now }
        ensures { IfOk result (AreMoves (line_meaning self.now.rule.now self.now.items.now
            (low_by (length self.now.items.now) self.now.low.now) self.now.most) state.now) }
    {
        let mut found = StepList::new(self.alloc);
        let mut rest = self.lists.ends_at(state.index as usize);
        'ends: while let [end, after @ ..] = rest {
            self.push_step(state.lines, end, &mut found)?;
            rest = after;
        }
        Ok(found)
    }
}

impl Space for LineSpace<'_> {
    type State = LineState;

    type Move = u32;

    type Key = LineState;

    ghost use Rattle.std.specs.Prelude.{length};
    ghost use Rattle.pg_lines.specs.Moves.{low_by};
    ghost use Rattle.law_lines.specs.LineSpace.{line_meaning};
    ghost use Rattle.law_lines.proofs.SpaceLaws.{lines_lawful};

    ghost meaning = { λ s. line_meaning s.rule.now s.items.now (low_by (length s.items.now) s.low.now) s.most };

    ghost lawful = { λ s. lines_lawful s.rule.now s.items.now (low_by (length s.items.now) s.low.now) s.most s.para };

    fn start(&self) -> Result<LineState, AllocError> {
        Ok(LineState { index: 0, lines: 0 })
    }

    fn key(&self, state: &LineState) -> Result<LineState, AllocError> {
        Ok(*state)
    }

    fn rank(&self, state: &LineState) -> u64 {
        u64::from(state.index)
    }

    fn block(&self, state: &LineState) -> u32 {
        state.index
    }

    fn is_done(&self, state: &LineState) -> bool {
        state.index as usize == self.items.len() && state.lines > 0
    }

    fn no_worse(&self, a: &LineState, b: &LineState) -> bool {
        is_same(a, b)
    }

    fn order(&self, a: &u32, b: &u32) -> Ordering {
        a.cmp(b)
    }

    fn expand<L: Ledger>(
        &self,
        state: &LineState,
        steps: &mut Steps<L>,
    ) -> Result<Opened<LineState, u32>, AllocError> {
        steps.tick();
        Ok(Opened {
            steps: self.moves(state)?,
            reach: self.items.len() as u32 + 1,
        })
    }
}
