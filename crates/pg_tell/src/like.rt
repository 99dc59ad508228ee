//! What the best pages are like: the columns that pay most, how long floats wait, paragraphs in other lengths.
use crate::letters::words_from;
use crate::paragraphs::print_paragraphs;
use crate::waits::print_waits;
use pg_column::TextCost;
use pg_furthest::BestPages;
use pg_list::Galley;
use pg_parts::{Part, PricedColumn};
use pg_pieces::{Form, Piece, print};
use pg_style::Style;
use std::alloc::{AllocError, Global};

// How many columns are told.
const MOST: usize = 3;

// The parts of the cost that tell one column from another: all but what each text pays for being one, and the runs.
const OWN: [Part; 6] = [
    Part::Badness,
    Part::Penalties,
    Part::Empty,
    Part::Picks,
    Part::Floats,
    Part::Fitness,
];

// What a column pays above what it has to.
fn own_price(column: &PricedColumn) -> i128 {
    let mut sum = 0i128;
    for part in &OWN {
        sum = sum.saturating_add(column.amount(*part));
    }
    sum
}

// A column, and what it pays.
#[derive(Clone, Copy)]
struct Worst {
    index: usize,
    price: i128,
}

// The column that pays most, of those that pay less than another, or the same and stand behind it.
fn next_worst(columns: &[PricedColumn], last: Option<Worst>) -> Option<Worst> {
    let mut found: Option<Worst> = None;
    let mut index = 0usize;
    for column in columns {
        let price = own_price(column);
        let is_next = match last {
            Some(last) => price < last.price || (price == last.price && index > last.index),
            None => true,
        };
        let is_more = match found {
            Some(found) => price > found.price,
            None => price > 0,
        };
        if is_next && is_more {
            found = Some(Worst { index, price });
        }
        index = index.saturating_add(1);
    }
    found
}

// How a text fills its goal, for a reader.
fn print_fill(text: &TextCost, out: &mut Vec<u8>) -> Result<(), AllocError> {
    print(
        Form::Plain,
        out,
        &[
            Piece::Mark("; badness "),
            Piece::Count(u64::from(text.badness)),
        ],
    )?;
    if text.badness == 0 {
        return Ok(());
    }
    let is_short = text.total < text.goal;
    let missing = if is_short {
        text.goal.saturating_sub(text.total)
    } else {
        text.total.saturating_sub(text.goal)
    };
    let words = if is_short {
        " points short"
    } else {
        " points too high"
    };
    print(
        Form::Plain,
        out,
        &[
            Piece::Mark(", "),
            Piece::Length(missing),
            Piece::Mark(words),
        ],
    )
}

// Why a column of text pays, for a reader.
fn print_text_reasons(text: &TextCost, out: &mut Vec<u8>) -> Result<(), AllocError> {
    print_fill(text, out)?;
    if text.penalty > 0 {
        print(
            Form::Plain,
            out,
            &[
                Piece::Mark("; it ends at a penalty of "),
                Piece::Number(i128::from(text.penalty)),
                Piece::Mark(" (a widow, a club line, a broken word)"),
            ],
        )?;
    }
    Ok(())
}

// An amount behind words, where it is not 0.
fn print_amount(
    words: &'static str,
    amount: i128,
    unit: &'static str,
    out: &mut Vec<u8>,
) -> Result<(), AllocError> {
    if amount == 0 {
        return Ok(());
    }
    print(
        Form::Plain,
        out,
        &[Piece::Mark(words), Piece::Number(amount), Piece::Mark(unit)],
    )
}

// Why a column pays, for a reader.
fn print_reasons(column: &PricedColumn, out: &mut Vec<u8>) -> Result<(), AllocError> {
    match &column.text {
        Some(text) => print_text_reasons(text, out)?,
        None => print(Form::Plain, out, &[Piece::Mark("; it has no text")])?,
    }
    print_amount("; versions pay ", column.amount(Part::Picks), "", out)?;
    print_amount(
        "; floats pay ",
        column.amount(Part::Floats),
        " for waiting",
        out,
    )?;
    print_amount(
        "; ",
        column.amount(Part::Fitness),
        " for more than a step of fitness",
        out,
    )?;
    print_amount("; floats that wait: ", i128::from(column.waits), "", out)
}

// Where a column stands, and what it pays, for a reader.
fn print_place(column: &PricedColumn, price: i128, out: &mut Vec<u8>) -> Result<(), AllocError> {
    print(
        Form::Plain,
        out,
        &[
            Piece::Mark("  page "),
            Piece::Count(u64::from(column.page)),
            Piece::Mark(", column "),
            Piece::Count(u64::from(column.column)),
            Piece::Mark(", from block "),
            Piece::Count(u64::from(column.from.block)),
            Piece::Mark(": "),
            Piece::Number(price),
        ],
    )
}

// The words of a column, for a reader.
fn print_words(words: &[u8], out: &mut Vec<u8>) -> Result<(), AllocError> {
    if words.is_empty() {
        out.push(b'\n')?;
        return Ok(());
    }
    print(
        Form::Plain,
        out,
        &[
            Piece::Mark("\n    "),
            Piece::Text(words),
            Piece::Mark("..\n"),
        ],
    )
}

// A column that pays, for a reader.
fn print_plain_worst(
    column: &PricedColumn,
    price: i128,
    words: &[u8],
    out: &mut Vec<u8>,
) -> Result<(), AllocError> {
    print_place(column, price, out)?;
    print_reasons(column, out)?;
    print_words(words, out)
}

// The numbers of a text as keys of the object.
fn print_text_keys(text: &TextCost, out: &mut Vec<u8>) -> Result<(), AllocError> {
    print(
        Form::Json,
        out,
        &[
            Piece::Mark(",\"goal\":\""),
            Piece::Length(text.goal),
            Piece::Mark("\",\"total\":\""),
            Piece::Length(text.total),
            Piece::Mark("\",\"badness\":"),
            Piece::Count(u64::from(text.badness)),
            Piece::Mark(",\"penalty\":"),
            Piece::Number(i128::from(text.penalty)),
        ],
    )
}

// Where a column stands, and what it pays, as keys of the object.
fn print_place_keys(
    column: &PricedColumn,
    price: i128,
    out: &mut Vec<u8>,
) -> Result<(), AllocError> {
    print(
        Form::Json,
        out,
        &[
            Piece::Mark("{\"page\":"),
            Piece::Count(u64::from(column.page)),
            Piece::Mark(",\"column\":"),
            Piece::Count(u64::from(column.column)),
            Piece::Mark(",\"block\":"),
            Piece::Count(u64::from(column.from.block)),
            Piece::Mark(",\"pays\":"),
            Piece::Number(price),
        ],
    )
}

// The floats that wait and the words of a column, as keys of the object.
fn print_rest_keys(waits: u32, words: &[u8], out: &mut Vec<u8>) -> Result<(), AllocError> {
    print(
        Form::Json,
        out,
        &[
            Piece::Mark(",\"waits\":"),
            Piece::Count(u64::from(waits)),
            Piece::Mark(",\"text\":\""),
            Piece::Text(words),
            Piece::Mark("\"}"),
        ],
    )
}

// A column that pays, as an object.
fn print_json_worst(
    column: &PricedColumn,
    price: i128,
    words: &[u8],
    out: &mut Vec<u8>,
) -> Result<(), AllocError> {
    print_place_keys(column, price, out)?;
    if let Some(text) = &column.text {
        print_text_keys(text, out)?;
    }
    print_rest_keys(column.waits, words, out)
}

// What stands before an element of a list.
fn print_before(
    form: Form,
    is_first: bool,
    head: &'static str,
    out: &mut Vec<u8>,
) -> Result<(), AllocError> {
    let before = match form {
        Form::Plain => { if is_first { head } else { "" } }
        Form::Json => { if is_first { "" } else { "," } }
    };
    print(form, out, &[Piece::Mark(before)])
}

// The columns that pay most.
fn print_worst(
    alloc: Global,
    form: Form,
    galley: &Galley,
    columns: &[PricedColumn],
    out: &mut Vec<u8>,
) -> Result<(), AllocError> {
    let mut last = None;
    for count in 0..MOST {
        let Some(worst) = next_worst(columns, last) else {
            return Ok(());
        };
        let Some(column) = columns.get(worst.index) else {
            return Ok(());
        };
        let words = words_from(alloc, galley, column.from)?;
        print_before(form, count == 0, "the columns that pay most\n", out)?;
        match form {
            Form::Plain => print_plain_worst(column, worst.price, &words, out)?,
            Form::Json => print_json_worst(column, worst.price, &words, out)?,
        }
        last = Some(worst);
    }
    Ok(())
}

// Words of JSON between lists.
fn print_key(form: Form, key: &'static str, out: &mut Vec<u8>) -> Result<(), AllocError> {
    match form {
        Form::Plain => Ok(()),
        Form::Json => print(form, out, &[Piece::Mark(key)]),
    }
}

/// What the best pages are like: the columns that pay most, how long floats wait, and paragraphs in other lengths.
pub fn print_like(
    alloc: Global,
    form: Form,
    galley: &Galley,
    style: &Style,
    pages: &BestPages,
    out: &mut Vec<u8>,
) -> Result<(), AllocError> {
    let columns = pages.pricing.columns.as_slice();
    print_key(form, ",\"worst\":[", out)?;
    print_worst(alloc, form, galley, columns, out)?;
    print_key(form, "],\"waits\":[", out)?;
    print_waits(form, style, pages.pricing.floats.as_slice(), out)?;
    print_key(form, "],\"paragraphs\":[", out)?;
    print_paragraphs(form, galley, &pages.plan, out)?;
    print_key(form, "]}\n", out)
}
