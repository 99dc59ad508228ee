//! The columns of a pagination, one by one from the last.
ghost use Rattle.std.specs.Prelude.{reverse, ◌≡◌, ◌<◌, [], ◌∷◌, length, MatchOption, IfSome};
ghost use Rattle.pg_plan.specs.Order.{columns, columns_of};
ghost use Rattle.pg_plan.specs.Backwards.{move_of, moves_left};

use crate::pages::{Column, Page, PageMove, Pagination};

/// A column with its page's run and wide counts. A page's second column has wide counts 0.
#[derive(Clone, Copy)]
pub struct MoveView<'a> {
    pub column: &'a Column,
    pub run: u8,
    pub wide: &'a [u16],
    pub is_first: bool,
}

impl<'a> MoveView<'a> {
    pub fn of(step: &'a PageMove) -> MoveView<'a>
        ensures { move_of result ≡ step.now }
    {
        MoveView {
            column: &step.column,
            run: step.run,
            wide: step.wide.as_slice(),
            is_first: true,
        }
    }
}

/// The columns that stand before a point of a pagination: those of the pages before, and the first
/// ones of a page.
#[derive(Clone, Copy)]
pub struct ColumnsBefore<'a> {
    pub pages: &'a [Page],
    pub run: u8,
    pub wide: &'a [u16],
    pub columns: &'a [Column],
}

impl<'a> ColumnsBefore<'a> {
    /// All columns of a pagination.
    pub fn of(plan: &'a Pagination) -> ColumnsBefore<'a>
        ensures { moves_left result ≡ columns plan.now }
    {
        ColumnsBefore {
            pages: plan.pages.as_slice(),
            run: 0,
            wide: &[],
            columns: &[],
        }
    }
}

// The last column of the page that is begun, and what stands before it.
fn split_column<'a>(front: &ColumnsBefore<'a>) -> (MoveView<'a>, ColumnsBefore<'a>)
    requires { 0 < length front.now.columns.now }
    ensures { moves_left front.now ≡ move_of result.0 ∷ moves_left result.1 }
{
    let last = front.columns.len() - 1;
    let seen = MoveView {
        column: &front.columns[last],
        run: front.run,
        wide: front.wide,
        is_first: last == 0,
    };
    let before = ColumnsBefore {
        pages: front.pages,
        run: front.run,
        wide: front.wide,
        columns: &front.columns[..last],
    };
    (seen, before)
}

// The columns of the last page, with the pages before it.
fn open_page<'a>(pages: &'a [Page]) -> Option<ColumnsBefore<'a>>
    ensures moves { MatchOption result (pages.now ≡ []) (λ front. moves_left front ≡ columns_of (reverse pages.now)) }
    ensures shorter { IfSome result (λ front. length front.pages.now < length pages.now) }
{
    let [before @ .., page] = pages else {
        return None;
    };
    Some(ColumnsBefore {
        pages: before,
        run: page.run,
        wide: page.wide.as_slice(),
        columns: page.columns.as_slice(),
    })
}

/// The last column, and what stands before it.
pub fn split_last<'a>(front: &ColumnsBefore<'a>) -> Option<(MoveView<'a>, ColumnsBefore<'a>)>
    ensures moves { MatchOption result (moves_left front.now ≡ []) (λ x. moves_left front.now ≡ move_of x.0
        ∷ moves_left x.1) }
    ensures shorter { IfSome result (λ x. length (moves_left x.1) < length (moves_left front.now)) }
{
    let mut left = *front;
    'pages: while left.columns.is_empty() {
        left = open_page(left.pages)?;
    }
    Some(split_column(&left))
}
