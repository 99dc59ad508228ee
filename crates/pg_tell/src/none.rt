//! What is told where no pagination is legal.
ghost use Rattle.std.specs.Prelude.{◌≡◌, ◌++◌, IfOk, OnOk};
ghost use Rattle.pg_pieces.specs.declared.letters.Form.TheVariants.{Plain, Json};
ghost use Rattle.pg_tell.specs.Lines.{Begins, alone_key as alone_key_of, alone_text, alone_why as alone_why_of};
ghost use Rattle.pg_tell.specs.Lines.{illegal_text, limit_text, none_front, note_class, note_limit, note_size};
ghost use Rattle.pg_tell.specs.Lines.{note_text, some_note, standing_text, why_text};

use crate::changes::print_help;
use crate::findings::Findings;
use crate::letters::words_from;
use crate::reasons::print_reasons;
use pg_alone::{Alone, HighNote};
use pg_furthest::{Search, Standing};
use pg_pieces::{Form, Piece, print};
use std::alloc::{AllocError, Global};

// That no pagination is legal.
fn print_illegal(form: Form, out: &mut Vec<u8>) -> Result<(), AllocError>
    ensures { OnOk result (out.new.items ≡ out.old.items ++ illegal_text form) }
{
    match form {
        Form::Plain => out.extend_from_slice(b"pg_tell: no legal pagination\n"),
        Form::Json => out.extend_from_slice(
            b"{\"version\":1,\"status\":1,\"said\":\"no legal pagination\"",
        ),
    }
}

// Why no column can hold a float, for a reader.
fn alone_why(alone: &Alone) -> &'static str
    ensures { result.now ≡ alone_why_of alone.now }
{
    if alone.is_high {
        " points is higher than any column: nothing is legal while it stands there.\n"
    } else {
        " points has no place: no area takes its class, and nothing is legal while it stands there.\n"
    }
}

// The same as a key of the object.
fn alone_key(alone: &Alone) -> &'static str
    ensures { result.now ≡ alone_key_of alone.now }
{
    if alone.is_high {
        "\",\"cause\":\"high\"}"
    } else {
        "\",\"cause\":\"no place\"}"
    }
}

// A float that no column can hold, for a reader.
fn print_plain_alone(alone: &Alone, out: &mut Vec<u8>) -> Result<(), AllocError>
    ensures { OnOk result (out.new.items ≡ out.old.items ++ alone_text Plain (Some alone.now)) }
{
    print(
        Form::Plain,
        out,
        &[
            Piece::Mark("A float of "),
            Piece::Length(i64::from(alone.size)),
            Piece::Mark(alone_why(alone)),
        ],
    )
}

// The same as a key of the object.
fn print_json_alone(alone: &Alone, out: &mut Vec<u8>) -> Result<(), AllocError>
    ensures { OnOk result (out.new.items ≡ out.old.items ++ alone_text Json (Some alone.now)) }
{
    print(
        Form::Json,
        out,
        &[
            Piece::Mark(",\"alone\":{\"size\":\""),
            Piece::Length(i64::from(alone.size)),
            Piece::Mark(alone_key(alone)),
        ],
    )
}

// A float that no column can hold, if there is one.
fn print_alone(form: Form, alone: &Option<Alone>, out: &mut Vec<u8>) -> Result<(), AllocError>
    ensures { OnOk result (out.new.items ≡ out.old.items ++ alone_text form alone.now) }
{
    match alone {
        None => Ok(()),
        Some(alone) => match form {
            Form::Plain => print_plain_alone(alone, out),
            Form::Json => print_json_alone(alone, out),
        },
    }
}

// The class of a note above its limit.
fn print_note_class(form: Form, note: &HighNote, out: &mut Vec<u8>) -> Result<(), AllocError>
    ensures { OnOk result (out.new.items ≡ out.old.items ++ note_class form note.now) }
{
    match form {
        Form::Plain => print(
            form,
            out,
            &[
                Piece::Mark("A note of class "),
                Piece::Count(u64::from(note.class)),
            ],
        ),
        Form::Json => print(
            form,
            out,
            &[
                Piece::Mark(",\"note\":{\"class\":"),
                Piece::Count(u64::from(note.class)),
            ],
        ),
    }
}

// Its size.
fn print_note_size(form: Form, note: &HighNote, out: &mut Vec<u8>) -> Result<(), AllocError>
    ensures { OnOk result (out.new.items ≡ out.old.items ++ note_size form note.now) }
{
    match form {
        Form::Plain => print(
            form,
            out,
            &[
                Piece::Mark(" is "),
                Piece::Length(i64::from(note.size)),
                Piece::Mark(" points high"),
            ],
        ),
        Form::Json => print(
            form,
            out,
            &[
                Piece::Mark(",\"size\":\""),
                Piece::Length(i64::from(note.size)),
                Piece::Mark("\""),
            ],
        ),
    }
}

// The limit of its class, between words.
fn print_limit(
    form: Form,
    front: &'static str,
    note: &HighNote,
    end: &'static str,
    out: &mut Vec<u8>,
) -> Result<(), AllocError>
    ensures { OnOk result (out.new.items ≡ out.old.items ++ limit_text front.now note.now end.now) }
{
    print(
        form,
        out,
        &[
            Piece::Mark(front),
            Piece::Length(i64::from(note.limit)),
            Piece::Mark(end),
        ],
    )
}

// What its class may take.
fn print_note_limit(form: Form, note: &HighNote, out: &mut Vec<u8>) -> Result<(), AllocError>
    ensures { OnOk result (out.new.items ≡ out.old.items ++ note_limit form note.now) }
{
    match form {
        Form::Plain => print_limit(
            form,
            ", and its class may take ",
            note,
            " in a column: nothing is legal while it stands there.\n",
            out,
        ),
        Form::Json => print_limit(form, ",\"limit\":\"", note, "\"}", out),
    }
}

// A note above its limit.
fn print_some_note(form: Form, note: &HighNote, out: &mut Vec<u8>) -> Result<(), AllocError>
    ensures { OnOk result (out.new.items ≡ out.old.items ++ some_note form note.now) }
{
    print_note_class(form, note, out)?;
    print_note_size(form, note, out)?;
    print_note_limit(form, note, out)
}

// A note above its limit, if there is one.
#[tactic(auto, unfolding(crate::specs::Lines::note_text))]
fn print_note(form: Form, note: &Option<HighNote>, out: &mut Vec<u8>) -> Result<(), AllocError>
    ensures { OnOk result (out.new.items ≡ out.old.items ++ note_text form note.now) }
{
    match note {
        None => Ok(()),
        Some(note) => print_some_note(form, note, out),
    }
}

// Where beginnings come to an end, for a reader.
fn print_plain_standing(standing: &Standing, out: &mut Vec<u8>) -> Result<(), AllocError>
    ensures { OnOk result (out.new.items ≡ out.old.items ++ standing_text Plain standing.now) }
{
    print(
        Form::Plain,
        out,
        &[
            Piece::Mark("Pages come as far as block "),
            Piece::Count(u64::from(standing.at.block)),
            Piece::Mark(", where column "),
            Piece::Count(u64::from(standing.column)),
            Piece::Mark(" of page "),
            Piece::Count(standing.page),
        ],
    )
}

// The same as a key of the object.
fn print_json_standing(standing: &Standing, out: &mut Vec<u8>) -> Result<(), AllocError>
    ensures { OnOk result (out.new.items ≡ out.old.items ++ standing_text Json standing.now) }
{
    print(
        Form::Json,
        out,
        &[
            Piece::Mark(",\"furthest\":{\"block\":"),
            Piece::Count(u64::from(standing.at.block)),
            Piece::Mark(",\"variant\":"),
            Piece::Count(u64::from(standing.at.variant)),
            Piece::Mark(",\"index\":"),
            Piece::Count(u64::from(standing.at.index)),
            Piece::Mark(",\"column\":"),
            Piece::Count(u64::from(standing.column)),
            Piece::Mark(",\"page\":"),
            Piece::Count(standing.page),
        ],
    )
}

// Where beginnings come to an end.
fn print_standing(form: Form, standing: &Standing, out: &mut Vec<u8>) -> Result<(), AllocError>
    ensures { OnOk result (out.new.items ≡ out.old.items ++ standing_text form standing.now) }
{
    match form {
        Form::Plain => print_plain_standing(standing, out),
        Form::Json => print_json_standing(standing, out),
    }
}

// That nothing is legal, and what forbids all.
#[tactic(auto, unfolding(crate::specs::Lines::why_text))]
fn print_why(form: Form, found: &Findings, out: &mut Vec<u8>) -> Result<(), AllocError>
    ensures { OnOk result (out.new.items ≡ out.old.items ++ why_text form found.now) }
{
    print_illegal(form, out)?;
    print_alone(form, &found.alone, out)?;
    print_note(form, &found.note, out)
}

// What is told first where no pagination is legal.
#[tactic(auto, unfolding(crate::specs::Lines::none_front))]
fn print_none(form: Form, found: &Findings, out: &mut Vec<u8>) -> Result<(), AllocError>
    ensures { OnOk result (out.new.items ≡ out.old.items ++ none_front form found.now) }
{
    print_why(form, found, out)?;
    print_help(form, &found.helping, out)?;
    print_standing(form, &found.standing, out)
}

// The words at the furthest place.
fn print_words(form: Form, words: &[u8], out: &mut Vec<u8>) -> Result<(), AllocError> {
    match form {
        Form::Plain => {
            print(form, out, &[Piece::Mark(" would begin.\n")])?;
            if words.is_empty() {
                Ok(())
            } else {
                print(
                    form,
                    out,
                    &[Piece::Mark("    "), Piece::Text(words), Piece::Mark("..\n")],
                )
            }
        }
        Form::Json => print(
            form,
            out,
            &[
                Piece::Mark(",\"text\":\""),
                Piece::Text(words),
                Piece::Mark("\"}"),
            ],
        ),
    }
}

/// What is told where no pagination is legal: a float and a note that forbid all, if there are some; changes that help;
/// where beginnings come to an end; and why they come no further.
pub fn none_text(
    alloc: Global,
    form: Form,
    search: &Search,
    found: &Findings,
) -> Result<Vec<u8>, AllocError>
    ensures { IfOk result (λ out. Begins (none_front form found.now) out.items) }
{
    let words = words_from(alloc, search.galley(), found.standing.at)?;
    let mut rest = Vec::new(alloc);
    print_words(form, &words, &mut rest)?;
    print_reasons(alloc, form, search, found, &mut rest)?;
    let mut out = Vec::new(alloc);
    print_none(form, found, &mut out)?;
    out.extend_from_slice(&rest)?;
    Ok(out)
}
