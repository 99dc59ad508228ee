//! Paragraphs that are not set in their natural number of lines.
use pg_list::{Block, Galley};
use pg_pieces::{Form, Piece, print};
use pg_plan::{Column, Pagination};
use std::alloc::AllocError;

// How many paragraphs are told to a reader.
const MOST: u64 = 12;

// The looseness of the variant of a block that a pick names.
fn looseness(block: &Block, pick: u32) -> i32 {
    match block {
        Block::One(_) => 0,
        Block::Choice(choice) => match choice.variants().get(pick as usize) {
            Some(variant) => variant.looseness,
            None => 0,
        },
    }
}

// A paragraph, for a reader.
fn print_plain(count: u64, block: u64, lines: i32, out: &mut Vec<u8>) -> Result<(), AllocError> {
    if count >= MOST {
        return Ok(());
    }
    let before = if count == 0 {
        "paragraphs in other lengths: block "
    } else {
        ", block "
    };
    let words = if lines > 0 { " longer)" } else { " shorter)" };
    print(
        Form::Plain,
        out,
        &[
            Piece::Mark(before),
            Piece::Count(block),
            Piece::Mark(" ("),
            Piece::Count(u64::from(lines.unsigned_abs())),
            Piece::Mark(words),
        ],
    )
}

// A paragraph, as an object.
fn print_json(count: u64, block: u64, lines: i32, out: &mut Vec<u8>) -> Result<(), AllocError> {
    let before = if count == 0 { "" } else { "," };
    print(
        Form::Json,
        out,
        &[
            Piece::Mark(before),
            Piece::Mark("{\"block\":"),
            Piece::Count(block),
            Piece::Mark(",\"lines\":"),
            Piece::Number(i128::from(lines)),
            Piece::Mark("}"),
        ],
    )
}

// The paragraphs of a column, behind so many.
fn print_column(
    form: Form,
    galley: &Galley,
    column: &Column,
    before: u64,
    out: &mut Vec<u8>,
) -> Result<u64, AllocError> {
    let mut count = before;
    let mut left = column.picks.as_slice();
    let mut block = column.from.block as usize;
    if column.from.index != 0 {
        block = block.saturating_add(1);
    }
    let blocks = galley.blocks().as_slice().get(block..).unwrap_or(&[]);
    for it in blocks {
        if let Block::Choice(_) = it {
            let [pick, rest @ ..] = left else {
                break;
            };
            let lines = looseness(it, *pick);
            if lines != 0 {
                match form {
                    Form::Plain => print_plain(count, block as u64, lines, out)?,
                    Form::Json => print_json(count, block as u64, lines, out)?,
                }
                count = count.saturating_add(1);
            }
            left = rest;
        }
        block = block.saturating_add(1);
    }
    Ok(count)
}

/// Paragraphs that are set in more or fewer lines than is natural for them, by their blocks.
pub fn print_paragraphs(
    form: Form,
    galley: &Galley,
    plan: &Pagination,
    out: &mut Vec<u8>,
) -> Result<(), AllocError> {
    let mut count = 0u64;
    for page in plan.pages.as_slice() {
        for column in page.columns.as_slice() {
            count = print_column(form, galley, column, count, out)?;
        }
    }
    let Form::Plain = form else {
        return Ok(());
    };
    if count > MOST {
        print(
            form,
            out,
            &[
                Piece::Mark(", and "),
                Piece::Count(count - MOST),
                Piece::Mark(" more"),
            ],
        )?;
    }
    if count > 0 {
        print(form, out, &[Piece::Mark("\n")])?;
    }
    Ok(())
}
