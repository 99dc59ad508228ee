//! All columns of a pagination, one after another.
ghost use Rattle.std.specs.Prelude.{◌≡◌, ◌≤◌, ◌<◌, ◌+◌, ◌^◌, ◌++◌, [], List, length, map, reverse, IfOk, OnOk};
ghost use Rattle.pg_plan.specs.declared.pages.Column.{Column as AColumn};
ghost use Rattle.pg_plan.specs.declared.pages.PageMove.{PageMove as APageMove};
ghost use Rattle.pg_plan.specs.Order.{columns_of, no_floats as no_floats_of, page_moves};
ghost use Rattle.pg_judge.specs.Bases.{IsBasis, doc_of};
ghost use Rattle.pg_judge.specs.Progress.{IsKept, IsProgress, the_move};

use crate::basis::{Basis, NextColumn};
use crate::progress::Progress;
use pg_plan::{Column, Counts, Page};
use std::alloc::{AllocError, Global};

// A zero for each count.
fn no_floats(alloc: Global, counts: &[u16]) -> Result<Counts, AllocError>
    ensures { IfOk result (λ zeros. zeros ≡ no_floats_of counts.now) }
{
    let mut zeros = Counts::new(alloc);
    for count in counts {
        zeros.push(*count - *count)?;
    }
    Ok(zeros)
}

// The columns of a page behind its first.
fn judge_later(
    progress: &mut Progress,
    alloc: Global,
    basis: &Basis,
    run: u8,
    none: &Counts,
    later: &[Column],
) -> Result<(), AllocError>
    requires list { IsBasis basis.now }
    requires kept { IsKept basis.now.style.now progress.old }
    requires number { progress.old.number + length later.now < 2 ^ 31 }
    ensures kept { OnOk result (IsKept basis.now.style.now progress.new) }
    ensures number { OnOk result (progress.new.number ≡ progress.old.number + length later.now) }
    ensures next { OnOk result ((ms : List APageMove) → IsProgress (doc_of basis.now) ms progress.old →
        IsProgress (doc_of basis.now)
        (reverse (map (λ (column : AColumn). the_move column run none.now) later.now) ++ ms) progress.new) }
{
    for column in later {
        let step = NextColumn {
            column,
            run,
            wide: none,
        };
        progress.judge(alloc, basis, &step)?;
    }
    Ok(())
}

// The columns of a page.
fn judge_page(
    progress: &mut Progress,
    alloc: Global,
    basis: &Basis,
    page: &Page,
) -> Result<(), AllocError>
    requires list { IsBasis basis.now }
    requires kept { IsKept basis.now.style.now progress.old }
    requires number { progress.old.number + length page.now.columns < 2 ^ 31 }
    ensures kept { OnOk result (IsKept basis.now.style.now progress.new) }
    ensures number { OnOk result (progress.new.number ≡ progress.old.number + length page.now.columns) }
    ensures next { OnOk result ((ms : List APageMove) → IsProgress (doc_of basis.now) ms progress.old →
        IsProgress (doc_of basis.now) (reverse (page_moves page.now page.now.columns) ++ ms) progress.new) }
{
    let [first, later @ ..] = page.columns.as_slice() else {
        return Ok(());
    };
    let step = NextColumn {
        column: first,
        run: page.run,
        wide: &page.wide,
    };
    progress.judge(alloc, basis, &step)?;
    let none = no_floats(alloc, page.wide.as_slice())?;
    judge_later(progress, alloc, basis, page.run, &none, later)
}

/// The columns of pages behind those judged so far.
pub fn judge_pages(
    progress: &mut Progress,
    alloc: Global,
    basis: &Basis,
    pages: &[Page],
) -> Result<(), AllocError>
    requires list { IsBasis basis.now }
    requires kept { IsKept basis.now.style.now progress.old }
    requires start { IsProgress (doc_of basis.now) [] progress.old }
    requires number { length (columns_of (reverse pages.now)) < 2 ^ 31 }
    ensures kept { OnOk result (IsKept basis.now.style.now progress.new) }
    ensures progress { OnOk result (IsProgress (doc_of basis.now) (columns_of (reverse pages.now))
        progress.new) }
{
    for page in pages {
        judge_page(progress, alloc, basis, page)?;
    }
    Ok(())
}
