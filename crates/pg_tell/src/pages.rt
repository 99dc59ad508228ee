//! What is told first of the best pages: how many they are, what they cost, and the parts of that.
ghost use Rattle.std.specs.Prelude.{◌≡◌, ◌<◌, ◌^◌, ◌++◌, length, IfOk, OnOk};
ghost use Rattle.pg_parts.specs.Priced.{amounts};
ghost use Rattle.pg_pieces.specs.declared.letters.Form.TheVariants.{Json};
ghost use Rattle.pg_tell.specs.Lines.{Begins, column_parts, count_text, float_parts, pages_front, part_line};
ghost use Rattle.pg_tell.specs.Lines.{part_name as part_name_of, part_text, parts_text, text_parts};

use crate::like::print_like;
use pg_furthest::BestPages;
use pg_list::Galley;
use pg_parts::{Part, PricedColumn, sum_of};
use pg_pieces::{Form, Piece, print};
use pg_style::Style;
use std::alloc::{AllocError, Global};

// The name of a part of the cost.
fn part_name(part: Part) -> &'static str
    ensures { result.now ≡ part_name_of part }
{
    match part {
        Part::Line => "line",
        Part::Badness => "badness",
        Part::Penalties => "penalties",
        Part::Empty => "columns without text",
        Part::Picks => "versions",
        Part::Runs => "runs",
        Part::Floats => "floats",
        Part::Fitness => "fitness",
    }
}

// A part of the cost on a line of its own, where it is not 0.
fn print_part_line(part: Part, amount: &i128, out: &mut Vec<u8>) -> Result<(), AllocError>
    ensures { OnOk result (out.new.items ≡ out.old.items ++ part_line part amount.now) }
{
    if *amount == 0 {
        return Ok(());
    }
    print(
        Form::Plain,
        out,
        &[
            Piece::Mark("  "),
            Piece::Mark(part_name(part)),
            Piece::Mark(" "),
            Piece::Number(*amount),
            Piece::Mark("\n"),
        ],
    )
}

// A part of the cost as a key of the object.
fn print_part_key(part: Part, amount: &i128, out: &mut Vec<u8>) -> Result<(), AllocError>
    ensures { OnOk result (out.new.items ≡ out.old.items ++ part_text Json part amount.now) }
{
    print(
        Form::Json,
        out,
        &[
            Piece::Mark(",\""),
            Piece::Mark(part_name(part)),
            Piece::Mark("\":"),
            Piece::Number(*amount),
        ],
    )
}

// A part of the cost.
fn print_part(form: Form, part: Part, amount: &i128, out: &mut Vec<u8>) -> Result<(), AllocError>
    ensures { OnOk result (out.new.items ≡ out.old.items ++ part_text form part amount.now) }
{
    match form {
        Form::Plain => print_part_line(part, amount, out),
        Form::Json => print_part_key(part, amount, out),
    }
}

// What columns add to a part of the cost.
fn print_sum(
    form: Form,
    part: Part,
    columns: &[PricedColumn],
    out: &mut Vec<u8>,
) -> Result<(), AllocError>
    requires { length columns.now < 2 ^ 31 }
    ensures { OnOk result (out.new.items ≡ out.old.items ++ part_text form part (amounts columns.now part)) }
{
    let amount = sum_of(columns, part);
    print_part(form, part, &amount, out)
}

// The parts that texts pay.
#[tactic(auto, unfolding(crate::specs::Lines::text_parts))]
fn print_text_parts(
    form: Form,
    columns: &[PricedColumn],
    out: &mut Vec<u8>,
) -> Result<(), AllocError>
    requires { length columns.now < 2 ^ 31 }
    ensures { OnOk result (out.new.items ≡ out.old.items ++ text_parts form (amounts columns.now)) }
{
    print_sum(form, Part::Line, columns, out)?;
    print_sum(form, Part::Badness, columns, out)?;
    print_sum(form, Part::Penalties, columns, out)
}

// The parts that columns without text, versions and runs pay.
#[tactic(auto, unfolding(crate::specs::Lines::column_parts))]
fn print_column_parts(
    form: Form,
    columns: &[PricedColumn],
    out: &mut Vec<u8>,
) -> Result<(), AllocError>
    requires { length columns.now < 2 ^ 31 }
    ensures { OnOk result (out.new.items ≡ out.old.items ++ column_parts form (amounts columns.now)) }
{
    print_sum(form, Part::Empty, columns, out)?;
    print_sum(form, Part::Picks, columns, out)?;
    print_sum(form, Part::Runs, columns, out)
}

// The parts that floats and differences of fitness pay.
#[tactic(auto, unfolding(crate::specs::Lines::float_parts))]
fn print_float_parts(
    form: Form,
    columns: &[PricedColumn],
    out: &mut Vec<u8>,
) -> Result<(), AllocError>
    requires { length columns.now < 2 ^ 31 }
    ensures { OnOk result (out.new.items ≡ out.old.items ++ float_parts form (amounts columns.now)) }
{
    print_sum(form, Part::Floats, columns, out)?;
    print_sum(form, Part::Fitness, columns, out)
}

// All parts of the cost.
#[tactic(auto, unfolding(crate::specs::Lines::parts_text))]
fn print_parts(form: Form, columns: &[PricedColumn], out: &mut Vec<u8>) -> Result<(), AllocError>
    requires { length columns.now < 2 ^ 31 }
    ensures { OnOk result (out.new.items ≡ out.old.items ++ parts_text form (amounts columns.now)) }
{
    print_text_parts(form, columns, out)?;
    print_column_parts(form, columns, out)?;
    print_float_parts(form, columns, out)
}

// How many pages there are, and what they cost.
fn print_count(form: Form, pages: usize, cost: &i128, out: &mut Vec<u8>) -> Result<(), AllocError>
    ensures { OnOk result (out.new.items ≡ out.old.items ++ count_text form pages cost.now) }
{
    match form {
        Form::Plain => print(
            form,
            out,
            &[
                Piece::Mark("pages "),
                Piece::Count(pages as u64),
                Piece::Mark(", cost "),
                Piece::Number(*cost),
                Piece::Mark("\n"),
            ],
        ),
        Form::Json => print(
            form,
            out,
            &[
                Piece::Mark("{\"version\":1,\"status\":0,\"pages\":"),
                Piece::Count(pages as u64),
                Piece::Mark(",\"cost\":"),
                Piece::Number(*cost),
            ],
        ),
    }
}

// What is told first of the best pages.
#[tactic(auto, unfolding(crate::specs::Lines::pages_front))]
fn print_front(
    form: Form,
    pages: usize,
    cost: &i128,
    columns: &[PricedColumn],
    out: &mut Vec<u8>,
) -> Result<(), AllocError>
    requires { length columns.now < 2 ^ 31 }
    ensures { OnOk result (out.new.items ≡ out.old.items ++ pages_front form pages cost.now (amounts columns.now)) }
{
    print_count(form, pages, cost, out)?;
    print_parts(form, columns, out)
}

/// What is told of the best pages: how many there are, what they cost, the parts of that, and what they are like.
pub fn pages_text(
    alloc: Global,
    form: Form,
    galley: &Galley,
    style: &Style,
    pages: &BestPages,
) -> Result<Vec<u8>, AllocError>
    requires { length pages.now.pricing.columns.items < 2 ^ 31 }
    ensures { IfOk result (λ out. Begins (pages_front form (length pages.now.plan.pages) pages.now.cost
        (amounts pages.now.pricing.columns.items)) out.items) }
{
    let mut rest = Vec::new(alloc);
    print_like(alloc, form, galley, style, pages, &mut rest)?;
    let mut out = Vec::new(alloc);
    let count = pages.plan.pages.as_slice().len();
    print_front(form, count, &pages.cost, &pages.pricing.columns, &mut out)?;
    out.extend_from_slice(&rest)?;
    Ok(out)
}
