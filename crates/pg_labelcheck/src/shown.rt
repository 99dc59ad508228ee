//! The tests of the pagination that is shown: its rules, its cost and its page text.
ghost use Rattle.std.specs.Prelude.{◌≡◌, ◌<◌, ◌^◌, ℕ, length, List};
ghost use Rattle.pg_floats.specs.AreFloats.{AreFloats};
ghost use Rattle.pg_plan.specs.Order.{columns};
ghost use Rattle.pg_plan.specs.declared.states.Label.{Label as ALabel};
ghost use Rattle.pg_labels.specs.Reading.{IsFew};
ghost use Rattle.law_check.specs.Tests.{PassesCost};
ghost use Rattle.pg_labelcheck.specs.Tested.{TestedCost, TestedText, showing};

use crate::lines::first_other_line;
use law_check::No;
use pg_floats::FloatList;
use pg_judge::{Basis, JudgeFault, judge};
use pg_labels::{Output, Shown};
use pg_list::Galley;
use pg_pages::print_pages;
use pg_plan::Pagination;
use pg_style::Style;
use std::alloc::Global;

// Tests 1 and 2: the pagination breaks no rule, and has the printed cost.
fn test_cost(alloc: Global, basis: &Basis, plan: &Pagination, cost: i128) -> Result<(), No>
    requires floats { AreFloats basis.now.galley.now.blocks basis.now.style.now basis.now.list.now }
    requires few { length (columns plan.now) < 2 ^ 31 }
    ensures { (text : List ℕ) (labels : List ALabel) →
        TestedCost basis.now.galley.now basis.now.style.now (showing plan.now cost text labels) result }
{
    match judge(alloc, basis.galley, basis.style, basis.list, plan) {
        Ok(judged) => {
            if judged == cost {
                Ok(())
            } else {
                Err(No::CostDiffers {
                    printed: cost,
                    judged,
                })
            }
        }
        Err(JudgeFault::Broken { rule, column }) => Err(No::Broken { rule, column }),
        Err(JudgeFault::Memory) => Err(No::Memory),
    }
}

// Test 3: the page text is that of the pagination with the printed cost.
fn test_text(
    alloc: Global,
    basis: &Basis,
    plan: &Pagination,
    cost: i128,
    text: &[u8],
) -> Result<(), No>
    requires floats { AreFloats basis.now.galley.now.blocks basis.now.style.now basis.now.list.now }
    requires before { (labels : List ALabel) →
        PassesCost basis.now.galley.now basis.now.style.now (showing plan.now cost text.now labels) }
    ensures { (labels : List ALabel) →
        TestedText basis.now.galley.now basis.now.style.now (showing plan.now cost text.now labels) result }
{
    let mut printed = Vec::new(alloc);
    match print_pages(
        basis.galley,
        basis.style,
        basis.list,
        plan,
        cost,
        &mut printed,
    ) {
        Ok(()) => match first_other_line(text, printed.as_slice()) {
            None => Ok(()),
            Some(line) => Err(No::PagesDiffer { line }),
        },
        Err(_) => Err(No::Memory),
    }
}

// Tests 1 to 3, of a pagination with its cost and its page text.
fn test_pages(
    alloc: Global,
    basis: &Basis,
    plan: &Pagination,
    cost: i128,
    text: &[u8],
) -> Result<(), No>
    requires floats { AreFloats basis.now.galley.now.blocks basis.now.style.now basis.now.list.now }
    requires few { length (columns plan.now) < 2 ^ 31 }
    ensures { (labels : List ALabel) →
        TestedText basis.now.galley.now basis.now.style.now (showing plan.now cost text.now labels) result }
{
    match test_cost(alloc, basis, plan, cost) {
        Ok(()) => test_text(alloc, basis, plan, cost, text),
        Err(fault) => Err(fault),
    }
}

/// Tests 1 to 3 of an output. Where none is said to be legal they are passed over.
pub(crate) fn test_shown(
    alloc: Global,
    galley: &Galley,
    style: &Style,
    floats: &FloatList,
    output: &Output,
) -> Result<(), No>
    requires floats { AreFloats galley.now.blocks style.now floats.now }
    requires few { IsFew output.now }
    ensures { TestedText galley.now style.now output.now result }
{
    match &output.shown {
        Shown::Pages(plan, cost) => {
            let basis = Basis {
                galley,
                style,
                list: floats,
            };
            test_pages(alloc, &basis, plan, *cost, output.page_text.as_slice())
        }
        Shown::NoLegal => Ok(()),
    }
}
