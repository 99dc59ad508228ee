//! Sessions of ten lines on pages of five: that memory suffices, and what is told of them.
ghost use Rattle.std.specs.Prelude.{◌≡◌, true};

use crate::galleys::{POINT, lines};
use pg_list::{Edit, Galley};
use pg_session::{EditFault, Session};
use pg_space::Outcome;
use pg_style::plain_style;
use pg_table::Steps;
use std::alloc::{AllocError, Global};
use std::marker::Brand;
use std::sync::ledger::{Blank, Ledger};
use std::test::Fail;

/// What a solution shows: its cost, 0 where no pagination is legal, and the number of labels.
#[derive(Clone, Copy, Debug, PartialEq, Eq, Drop)]
struct Solved {
    cost: i128,
    labels: usize,
}

/// What is told of two states of a galley without a solution, the solution of the second, and an edit that is refused
/// behind it.
#[derive(Drop)]
struct Course {
    first: Solved,
    second: Solved,
    told_solved: bool,
    solved: Solved,
    refused: Option<EditFault>,
    still_solved: bool,
    blocks: usize,
}

// The fault of an edit that puts lines in place of blocks.
fn edit_lines(
    alloc: Global,
    session: &mut Session,
    at: u32,
    gone: u32,
    more: u32,
) -> Result<Option<EditFault>, AllocError> {
    let edit = Edit {
        at,
        gone,
        fresh: lines(alloc, more)?,
    };
    Ok(session.edit(&edit).err())
}

// The cost of a best pagination, 0 where none is legal.
fn cost_of(outcome: &Outcome) -> i128 {
    match outcome {
        Outcome::Best(_, cost) => *cost,
        Outcome::NoLegal => 0,
    }
}

fn solve<L: Ledger>(session: &mut Session, steps: &mut Steps<L>) -> Result<Solved, AllocError> {
    let outcome = session.solve(steps)?;
    Ok(Solved {
        cost: cost_of(&outcome),
        labels: session.labels().as_slice().len(),
    })
}

// What is told without a solution.
fn paginate<L: Ledger>(session: &mut Session, steps: &mut Steps<L>) -> Result<Solved, AllocError> {
    let told = session.paginate(steps)?;
    Ok(Solved {
        cost: cost_of(&told.outcome),
        labels: told.labels,
    })
}

// Ten lines on pages of five.
fn ten_lines(alloc: Global) -> Result<Option<Session>, AllocError> {
    let galley = Galley::new(alloc, 345 * POINT);
    let Ok(mut session) = Session::new(alloc, galley, plain_style(alloc, 58 * POINT)) else {
        return Ok(None);
    };
    if edit_lines(alloc, &mut session, 0, 0, 9)?.is_some() {
        return Ok(None);
    }
    Ok(Some(session))
}

// Ten lines, paginated; their last line put anew, paginated again, and solved; then an edit behind their end.
fn edit_ten_lines<L: Ledger>(alloc: Global, blank: Blank) -> Result<Option<Course>, AllocError>
    requires name { blank.name ≡ L.name }
    requires parts { blank.parts ≡ L.parts }
    requires one { blank.parts ≡ 1 }
{
    let mut steps = Steps::<L>::new(blank);
    let Some(mut session) = ten_lines(alloc)? else {
        return Ok(None);
    };
    let first = paginate(&mut session, &mut steps)?;
    if edit_lines(alloc, &mut session, 18, 1, 0)?.is_some() {
        return Ok(None);
    }
    let second = paginate(&mut session, &mut steps)?;
    let told_solved = session.is_solved();
    let solved = solve(&mut session, &mut steps)?;
    let refused = edit_lines(alloc, &mut session, 20, 0, 0)?;
    Ok(Some(Course {
        first,
        second,
        told_solved,
        solved,
        refused,
        still_solved: session.is_solved(),
        blocks: session.galley().blocks().len(),
    }))
}

// Ten lines, solved; their last line put anew, and solved again.
fn solve_ten_lines<L: Ledger>(
    alloc: Global,
    blank: Blank,
) -> Result<Option<(Solved, Solved)>, AllocError>
    requires name { blank.name ≡ L.name }
    requires parts { blank.parts ≡ L.parts }
    requires one { blank.parts ≡ 1 }
{
    let mut steps = Steps::<L>::new(blank);
    let Some(mut session) = ten_lines(alloc)? else {
        return Ok(None);
    };
    let first = solve(&mut session, &mut steps)?;
    if edit_lines(alloc, &mut session, 18, 1, 0)?.is_some() {
        return Ok(None);
    }
    Ok(Some((first, solve(&mut session, &mut steps)?)))
}

const TEN_LINES: Solved = Solved {
    cost: 200,
    labels: 11,
};

#[test]
fn ten_lines_are_edited_and_solved_again(rt: HostRuntime) -> Result<(), Fail> {
    let found = solve_ten_lines::<Brand>(rt.alloc(), Blank::new(1))?.ok_or("an edit is refused")?;
    assert_eq!(rt; found, (TEN_LINES, TEN_LINES));
    Ok(())
}

#[test]
fn ten_lines_are_paginated_and_then_solved(rt: HostRuntime) -> Result<(), Fail> {
    let alloc = rt.alloc();
    let course = edit_ten_lines::<Brand>(alloc, Blank::new(1))?.ok_or("an edit is refused")?;
    assert_eq!(rt; course.first, TEN_LINES);
    assert_eq!(rt; course.second, TEN_LINES);
    assert!(rt; !course.told_solved);
    assert_eq!(rt; course.solved, TEN_LINES);
    let range = EditFault::Range {
        at: 20,
        gone: 0,
        len: 19,
    };
    assert_eq!(rt; course.refused, Some(range));
    assert_eq!(rt; range.number(), 1);
    assert!(rt; course.still_solved);
    assert_eq!(rt; course.blocks, 19);
    Ok(())
}
