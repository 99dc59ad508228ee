//! The best number of lines.
ghost use Rattle.std.specs.Prelude.{◌≡◌, ◌≤◌, ◌++◌, ◌+◌, ◌+ℤ◌, ◌*ℤ◌, pos, length, IfOk, OnOk};
ghost use Rattle.pg_hlist.specs.Items.{IsPara};
ghost use Rattle.law_lines.specs.BestSpace.{best_meaning, unit};
ghost use Rattle.pg_table.specs.Space.{AreMoves};
ghost use Rattle.pg_lines.specs.Ends.{all_ends};
ghost use Rattle.pg_lines.specs.Moves.{best_step};
ghost use Rattle.pg_lines.specs.OneProof.{IsPara_prop, lists_set};

use crate::ends::LineEnd;
use crate::lists::LineLists;
use law_lines::LineRule;
use pg_hlist::HItem;
use pg_table::{Opened, Space, Step, StepList, Steps};
use std::alloc::{AllocError, Global};
use std::cmp::Ordering;
use std::sync::ledger::Ledger;

/// The places of a paragraph where a line may start, and the lines that lead from one to the next. A line more counts as
/// one unit beside demerits that are each 4096, so that the fewest lines decide among equals.
#[derive(Drop)]
pub struct BestSpace<'a> {
    pub rule: &'a LineRule,
    pub items: &'a [HItem],
    pub lists: &'a LineLists,
    alloc: Global,
    ghost para: { IsPara items.now } by { IsPara_prop items.now },
    ghost listed: { lists.now ≡ all_ends rule.now items.now } by { lists_set lists.now (all_ends rule.now items.now) },
}

// What a line costs in units.
fn cost_in_units(demerits: i64) -> i128
    ensures { result ≡ (unit *ℤ demerits) +ℤ pos 1 }
{
    4096 * i128::from(demerits) + 1
}

// Adds the step of a line.
fn push_step(end: &LineEnd, found: &mut StepList<u32, u32>) -> Result<(), AllocError>
    ensures { OnOk result (found.new ≡ found.old ++ best_step end.now) }
{
    found.push(Step {
        to: end.place,
        by: end.place,
        cost: cost_in_units(end.demerits),
    })
}

impl<'a> BestSpace<'a> {
    /// The space of a paragraph. No memory is taken.
    pub fn new(
        alloc: Global,
        rule: &'a LineRule,
        items: &'a [HItem],
        lists: &'a LineLists,
    ) -> BestSpace<'a>
        requires para { IsPara items.now }
        requires lists { lists.now ≡ all_ends rule.now items.now }
        ensures rule { result.rule.now ≡ rule.now }
        ensures items { result.items.now ≡ items.now }
    {
        BestSpace {
            rule,
            items,
            lists,
            alloc,
        }
    }

    // The steps from a place.
    fn moves(&self, place: u32) -> Result<StepList<u32, u32>, AllocError>
        requires { place ≤ length self.now.items.now }
        ensures { IfOk result (AreMoves (best_meaning self.now.rule.now self.now.items.now) place) }
    {
        let mut found = StepList::new(self.alloc);
        let mut rest = self.lists.ends_at(place as usize);
        'ends: while let [end, after @ ..] = rest {
            push_step(end, &mut found)?;
            rest = after;
        }
        Ok(found)
    }
}

impl Space for BestSpace<'_> {
    type State = u32;

    type Move = u32;

    type Key = u32;

    ghost use Rattle.law_lines.specs.BestSpace.{best_meaning};
    ghost use Rattle.law_lines.proofs.BestCount.{best_lawful};

    ghost meaning = { λ s. best_meaning s.rule.now s.items.now };

    ghost lawful = { λ s. best_lawful s.rule.now s.items.now s.para };

    fn start(&self) -> Result<u32, AllocError> {
        Ok(0)
    }

    fn key(&self, state: &u32) -> Result<u32, AllocError> {
        Ok(*state)
    }

    fn rank(&self, state: &u32) -> u64 {
        u64::from(*state)
    }

    fn block(&self, state: &u32) -> u32 {
        *state
    }

    fn is_done(&self, state: &u32) -> bool {
        *state > 0 && *state as usize == self.items.len()
    }

    fn no_worse(&self, a: &u32, b: &u32) -> bool {
        *a == *b
    }

    fn order(&self, a: &u32, b: &u32) -> Ordering {
        a.cmp(b)
    }

    fn expand<L: Ledger>(
        &self,
        state: &u32,
        steps: &mut Steps<L>,
    ) -> Result<Opened<u32, u32>, AllocError> {
        steps.tick();
        Ok(Opened {
            steps: self.moves(*state)?,
            reach: self.items.len() as u32 + 1,
        })
    }
}
