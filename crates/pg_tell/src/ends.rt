//! Why the next column can end nowhere.
ghost use Rattle.std.specs.Prelude.{◌<◌, ◌≤◌, ◌^◌, nat_abs};
ghost use Rattle.pg_column.specs.Numbers.{IsRoom};

use pg_column::TextRoom;
use pg_floats::full_height;
use pg_furthest::Search;
use pg_pieces::{Form, Piece, print};
use pg_reasons::{Reach, reaches_of};
use pg_scaled::minus;
use pg_style::Give;
use std::alloc::{AllocError, Global};

/// More than a wide area is high, in scaled points.
const WIDEST: i64 = 1 << 34;

// The height of a wide area.
fn wide_height(wide: Option<i64>) -> i64
    ensures { nat_abs result ≤ 2 ^ 34 }
{
    match wide {
        Some(height) => {
            if 0 < height && height < WIDEST {
                height
            } else {
                0
            }
        }
        None => 0,
    }
}

// The height that a page of the furthest label leaves to a column, in scaled points.
fn height_of(search: &Search) -> i64
    ensures { nat_abs result < 2 ^ 40 }
{
    let style = search.style();
    let Some(label) = search.labels().get(search.furthest()) else {
        return 0;
    };
    let run = label.state.run().unwrap_or(0);
    minus(full_height(style, run), wide_height(label.state.wide()))
}

// The room of a text there beside areas without floats.
fn room_of(search: &Search) -> TextRoom
    ensures { IsRoom result }
{
    TextRoom {
        size: height_of(search),
        give: Give::none(),
    }
}

// The last end that is not over, and holds a box.
fn last_within(ends: &[Reach]) -> Option<Reach> {
    let mut found = None;
    for end in ends {
        if !end.is_over && end.has_box {
            found = Some(*end);
        }
    }
    found
}

// The first end whose text breaks no rule.
fn first_kept(ends: &[Reach]) -> Option<Reach> {
    for end in ends {
        if end.rule.is_none() {
            return Some(*end);
        }
    }
    None
}

// The first end that is over.
fn first_over(ends: &[Reach]) -> Option<Reach> {
    for end in ends {
        if end.is_over {
            return Some(*end);
        }
    }
    None
}

// What a rule says, for a reader.
fn rule_words(rule: u8) -> &'static str {
    match rule {
        3 => "it holds no line",
        5 => "it runs on past a place where it is full, or where it has to end",
        6 => "its text has less room than min_text asks for",
        11 => "its notes are above their limit",
        13 => "a version of a paragraph is beyond max_looseness",
        _ => "it breaks a rule",
    }
}

// How far a text misses its goal, for a reader.
fn print_miss(end: &Reach, tolerance: u16, out: &mut Vec<u8>) -> Result<(), AllocError> {
    let is_short = end.total < end.goal;
    let missing = if is_short {
        end.goal.saturating_sub(end.total)
    } else {
        end.total.saturating_sub(end.goal)
    };
    let words = if is_short {
        " points short (badness "
    } else {
        " points too high to shrink so far (badness "
    };
    print(
        Form::Plain,
        out,
        &[
            Piece::Mark("it is "),
            Piece::Length(missing),
            Piece::Mark(words),
            Piece::Count(u64::from(end.badness)),
            Piece::Mark(", tolerance "),
            Piece::Count(u64::from(tolerance)),
            Piece::Mark(")"),
        ],
    )
}

// Why a column cannot end there, for a reader.
fn print_why(end: &Reach, tolerance: u16, out: &mut Vec<u8>) -> Result<(), AllocError> {
    match end.rule {
        Some(4) => print_miss(end, tolerance, out),
        Some(rule) => print(Form::Plain, out, &[Piece::Mark(rule_words(rule))]),
        None => print(
            Form::Plain,
            out,
            &[Piece::Mark(
                "its text may, but a float may wait no longer, finds no room, or would pass a barrier",
            )],
        ),
    }
}

// An end within the room, for a reader.
fn print_within(end: &Reach, tolerance: u16, out: &mut Vec<u8>) -> Result<(), AllocError> {
    print(
        Form::Plain,
        out,
        &[
            Piece::Mark("  before block "),
            Piece::Count(u64::from(end.to.block)),
            Piece::Mark(": "),
        ],
    )?;
    print_why(end, tolerance, out)?;
    print(Form::Plain, out, &[Piece::Mark("\n")])
}

// An end that is over, for a reader.
fn print_over(end: &Reach, out: &mut Vec<u8>) -> Result<(), AllocError> {
    print(
        Form::Plain,
        out,
        &[
            Piece::Mark("  before block "),
            Piece::Count(u64::from(end.to.block)),
            Piece::Mark(": its text is "),
            Piece::Length(end.total),
            Piece::Mark(" points high, and there are "),
            Piece::Length(end.goal),
            Piece::Mark("\n"),
        ],
    )
}

// That there is no end, for a reader.
fn print_nothing(out: &mut Vec<u8>) -> Result<(), AllocError> {
    print(
        Form::Plain,
        out,
        &[Piece::Mark(
            "Behind it stands no line that a column could hold, but something is left: floats, or material that no page drops.\n",
        )],
    )
}

// The ends next to the room, for a reader.
fn print_plain(ends: &[Reach], tolerance: u16, out: &mut Vec<u8>) -> Result<(), AllocError> {
    let within = first_kept(ends).or(last_within(ends));
    let over = first_over(ends);
    if within.is_none() && over.is_none() {
        return print_nothing(out);
    }
    print(
        Form::Plain,
        out,
        &[Piece::Mark("The next column cannot end\n")],
    )?;
    if let Some(end) = within {
        print_within(&end, tolerance, out)?;
    }
    if let Some(end) = over {
        print_over(&end, out)?;
    }
    Ok(())
}

// An end, as an object.
fn print_end(is_first: bool, end: &Reach, out: &mut Vec<u8>) -> Result<(), AllocError> {
    print(
        Form::Json,
        out,
        &[
            Piece::Mark(if is_first {
                "{\"block\":"
            } else {
                ",{\"block\":"
            }),
            Piece::Count(u64::from(end.to.block)),
            Piece::Mark(",\"rule\":"),
            Piece::Count(u64::from(end.rule.unwrap_or(0))),
            Piece::Mark(",\"goal\":\""),
            Piece::Length(end.goal),
            Piece::Mark("\",\"total\":\""),
            Piece::Length(end.total),
            Piece::Mark("\",\"badness\":"),
            Piece::Count(u64::from(end.badness)),
            Piece::Mark(if end.is_over {
                ",\"over\":true}"
            } else {
                ",\"over\":false}"
            }),
        ],
    )
}

// All ends in reach, as objects.
fn print_json(ends: &[Reach], out: &mut Vec<u8>) -> Result<(), AllocError> {
    print(Form::Json, out, &[Piece::Mark(",\"ends\":[")])?;
    let mut is_first = true;
    for end in ends {
        print_end(is_first, end, out)?;
        is_first = false;
    }
    print(Form::Json, out, &[Piece::Mark("]")])
}

/// Why the next column behind the furthest place can end nowhere: the last break that is within the room and the first
/// that is not, with what is wrong there; as an object each end in reach.
pub fn print_ends(
    alloc: Global,
    form: Form,
    search: &Search,
    out: &mut Vec<u8>,
) -> Result<(), AllocError> {
    let Some(label) = search.labels().get(search.furthest()) else {
        return Ok(());
    };
    let from = label.state.place();
    let ends = reaches_of(
        alloc,
        search.galley(),
        search.style(),
        from,
        &room_of(search),
    )?;
    match form {
        Form::Plain => print_plain(&ends, search.style().tolerance, out),
        Form::Json => print_json(&ends, out),
    }
}
