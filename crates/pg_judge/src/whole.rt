//! Whole paginations.
ghost use Rattle.std.specs.Prelude.{◌≡◌, ◌<◌, ◌^◌, [], List, length, reverse};
ghost use Rattle.pg_list.specs.GalleyValue.{GalleyValue};
ghost use Rattle.pg_plan.specs.declared.pages.PageMove.{PageMove as APageMove};
ghost use Rattle.pg_plan.specs.Order.{columns};
ghost use Rattle.pg_rules.specs.Legal.{document, misfilled as misfilled_of};
ghost use Rattle.pg_floats.specs.AreFloats.{AreFloats};
ghost use Rattle.pg_floats.specs.Given.{IsListOf};
ghost use Rattle.pg_judge.specs.Progress.{IsKept, IsProgress, broken_pair};
ghost use Rattle.pg_judge.specs.Settled.{JudgesPlan, Settles, answered};

use crate::basis::Basis;
use crate::ending::end_rule;
use crate::pages::misfilled;
use crate::progress::{Broken, Progress, is_lost, lesser_of};
use crate::rule::JudgeFault;
use crate::walk::judge_pages;
use pg_floats::{FloatList, has_dealt_all, is_spent_at, slots_of};
use pg_list::{Galley, Place};
use pg_plan::{Counts, Pagination};
use pg_style::Style;
use std::alloc::Global;

/// No columns so far.
pub fn start(alloc: Global, style: &Style) -> Progress
    ensures kept { IsKept style.now result }
    ensures start { (galley : GalleyValue) → IsProgress (document galley style.now) [] result }
{
    style.stays_in_range();
    let slots = slots_of(style);
    Progress {
        slots,
        number: 0,
        column: 1,
        page: 1,
        at: Place {
            block: 0,
            variant: 0,
            index: 0,
        },
        run: None,
        wide: None,
        fitness: None,
        placed: Counts::zeros(alloc, slots),
        turns: Vec::new(alloc),
        broken: None,
        cost: 0,
    }
}

// The cost, or what is broken.
fn answer(broken: Option<Broken>, cost: i128) -> Result<i128, JudgeFault>
    ensures { result ≡ answered (broken_pair broken) cost }
{
    match broken {
        Some(broken) => Err(JudgeFault::Broken {
            rule: broken.rule,
            column: broken.column,
        }),
        None => Ok(cost),
    }
}

// What is answered where all columns were judged.
fn settle(
    galley: &Galley,
    style: &Style,
    list: &FloatList,
    progress: &Progress,
) -> Result<i128, JudgeFault>
    requires list { IsListOf galley.now.blocks style.now list.now }
    requires kept { IsKept style.now progress.now }
    ensures { (ms : List APageMove) → IsProgress (document galley.now style.now) ms progress.now →
        Settles (document galley.now style.now) ms result }
{
    if is_lost(progress.broken) {
        return answer(progress.broken, progress.cost);
    }
    let is_spent = is_spent_at(galley, progress.at);
    let has_dealt = has_dealt_all(
        galley,
        style,
        list,
        progress.slots,
        progress.placed.as_slice(),
    );
    let rule = end_rule(is_spent, has_dealt);
    answer(
        lesser_of(progress.broken, rule, progress.number),
        progress.cost,
    )
}

// The first column of the first page that lacks columns or has too many.
fn first_misfilled(style: &Style, plan: &Pagination) -> Option<u32>
    requires { length (columns plan.now) < 2 ^ 31 }
    ensures { result ≡ misfilled_of style.now.columns (reverse plan.now.pages) }
{
    misfilled(style.columns, plan.pages.as_slice())
}

// The columns of a pagination, one after another.
fn judge_columns(
    alloc: Global,
    galley: &Galley,
    style: &Style,
    floats: &FloatList,
    plan: &Pagination,
) -> Result<i128, JudgeFault>
    requires list { IsListOf galley.now.blocks style.now floats.now }
    requires few { length (columns plan.now) < 2 ^ 31 }
    ensures { Settles (document galley.now style.now) (columns plan.now) result }
{
    let mut progress = start(alloc, style);
    let basis = Basis {
        galley,
        style,
        list: floats,
    };
    match judge_pages(&mut progress, alloc, &basis, plan.pages.as_slice()) {
        Ok(()) => settle(galley, style, floats, &progress),
        Err(_) => Err(JudgeFault::Memory),
    }
}

/// The cost of a pagination that breaks no rule, or else the least rule that it breaks, from 1 to 14, with the first
/// column that breaks it, counted from 1.
///
/// Conditions: the list is of this galley and style, as `FloatList::of` makes it, and the pagination has fewer than
/// 2^31 columns. Any pagination is judged: places, picks, counts and runs may be none of the
/// galley's or the style's. `Memory` may come in place of any answer.
pub fn judge(
    alloc: Global,
    galley: &Galley,
    style: &Style,
    floats: &FloatList,
    plan: &Pagination,
) -> Result<i128, JudgeFault>
    requires floats { AreFloats galley.now.blocks style.now floats.now }
    requires few { length (columns plan.now) < 2 ^ 31 }
    ensures { JudgesPlan galley.now style.now plan.now result }
{
    floats.stays_few();
    match first_misfilled(style, plan) {
        Some(column) => Err(JudgeFault::Broken { rule: 1, column }),
        None => judge_columns(alloc, galley, style, floats, plan),
    }
}
