//! How many pages floats wait, class by class.
use pg_parts::PlacedFloat;
use pg_pieces::{Form, Piece, print};
use pg_style::{Kind, Style};
use std::alloc::AllocError;

// No table of distances has more entries.
const PAGES: usize = 9;

// How many floats of a slot stand so many pages behind their callouts.
fn count_waits(floats: &[PlacedFloat], slot: usize, pages: usize) -> u64 {
    let mut count = 0u64;
    for float in floats {
        if float.slot == slot && float.pages == pages {
            count = count.saturating_add(1);
        }
    }
    count
}

// So many floats, and how long they waited, for a reader.
fn print_count(
    is_first: bool,
    pages: usize,
    count: u64,
    out: &mut Vec<u8>,
) -> Result<(), AllocError> {
    let before = if is_first { ": " } else { ", " };
    print(
        Form::Plain,
        out,
        &[Piece::Mark(before), Piece::Count(count)],
    )?;
    match pages {
        0 => print(Form::Plain, out, &[Piece::Mark(" on the page of the call")]),
        1 => print(Form::Plain, out, &[Piece::Mark(" a page later")]),
        _ => print(
            Form::Plain,
            out,
            &[
                Piece::Mark(" "),
                Piece::Count(pages as u64),
                Piece::Mark(" pages later"),
            ],
        ),
    }
}

// The floats of a class, for a reader.
fn print_plain_class(
    floats: &[PlacedFloat],
    slot: usize,
    number: u8,
    out: &mut Vec<u8>,
) -> Result<(), AllocError> {
    let mut is_first = true;
    for pages in 0..PAGES {
        let count = count_waits(floats, slot, pages);
        if count > 0 {
            if is_first {
                print(
                    Form::Plain,
                    out,
                    &[
                        Piece::Mark("floats of class "),
                        Piece::Count(u64::from(number)),
                    ],
                )?;
            }
            print_count(is_first, pages, count, out)?;
            is_first = false;
        }
    }
    if is_first {
        Ok(())
    } else {
        print(Form::Plain, out, &[Piece::Mark("\n")])
    }
}

// The floats of a class, as an object.
fn print_json_class(
    floats: &[PlacedFloat],
    slot: usize,
    number: u8,
    out: &mut Vec<u8>,
) -> Result<(), AllocError> {
    print(
        Form::Json,
        out,
        &[
            Piece::Mark(if slot == 0 {
                "{\"class\":"
            } else {
                ",{\"class\":"
            }),
            Piece::Count(u64::from(number)),
            Piece::Mark(",\"pages\":["),
        ],
    )?;
    for pages in 0..PAGES {
        print(
            Form::Json,
            out,
            &[
                Piece::Mark(if pages == 0 { "" } else { "," }),
                Piece::Count(count_waits(floats, slot, pages)),
            ],
        )?;
    }
    print(Form::Json, out, &[Piece::Mark("]}")])
}

/// How many pages floats stand behind their callouts, class by class. As an object each class has a list of counts, from
/// the page of the callout on.
pub fn print_waits(
    form: Form,
    style: &Style,
    floats: &[PlacedFloat],
    out: &mut Vec<u8>,
) -> Result<(), AllocError> {
    let mut slot = 0usize;
    for class in style.classes.as_slice() {
        if let Kind::Float { .. } = &class.kind {
            match form {
                Form::Plain => print_plain_class(floats, slot, class.number, out)?,
                Form::Json => print_json_class(floats, slot, class.number, out)?,
            }
            slot = slot.saturating_add(1);
        }
    }
    Ok(())
}
