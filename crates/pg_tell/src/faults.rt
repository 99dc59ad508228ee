//! All faults that `pg` tells, as tables.
use pg_fault_words::{
    EDIT_ROWS, KEYS, LIST_ROWS, OTHERS, PARAGRAPHS, Remark, Row, SCRIPT_ROWS, STYLE_ROWS,
};
use pg_pieces::{Form, Piece, print};
use std::alloc::{AllocError, Global};

// The head of a table of faults.
fn print_head(
    title: &'static str,
    head: &'static str,
    out: &mut Vec<u8>,
) -> Result<(), AllocError> {
    print(
        Form::Plain,
        out,
        &[
            Piece::Mark(title),
            Piece::Mark("\n\n"),
            Piece::Mark(head),
            Piece::Mark("\n|---|---|---|\n"),
        ],
    )
}

// A row of three cells, of which the first is a number.
fn print_row(row: &Row, out: &mut Vec<u8>) -> Result<(), AllocError> {
    print(
        Form::Plain,
        out,
        &[
            Piece::Mark("| "),
            Piece::Count(u64::from(row.number)),
            Piece::Mark(" | "),
            Piece::Mark(row.cause),
            Piece::Mark(" | "),
            Piece::Mark(row.act),
            Piece::Mark(" |\n"),
        ],
    )
}

// A table of kinds.
fn print_kinds(title: &'static str, rows: &[Row], out: &mut Vec<u8>) -> Result<(), AllocError> {
    print_head(title, "| K | Fault | What to do |", out)?;
    for row in rows {
        print_row(row, out)?;
    }
    print(Form::Plain, out, &[Piece::Mark("\n")])
}

// A table of lines.
fn print_remarks(
    title: &'static str,
    remarks: &[Remark],
    out: &mut Vec<u8>,
) -> Result<(), AllocError> {
    print_head(title, "| Line | It comes | What to do |", out)?;
    for remark in remarks {
        print(
            Form::Plain,
            out,
            &[
                Piece::Mark("| "),
                Piece::Mark(remark.line),
                Piece::Mark(" | "),
                Piece::Mark(remark.cause),
                Piece::Mark(" | "),
                Piece::Mark(remark.act),
                Piece::Mark(" |\n"),
            ],
        )?;
    }
    print(Form::Plain, out, &[Piece::Mark("\n")])
}

// The keys of a style.
fn print_keys(out: &mut Vec<u8>) -> Result<(), AllocError> {
    print_head("Keys of a style", "| Table | Key | Value |", out)?;
    for key in &KEYS {
        print(
            Form::Plain,
            out,
            &[
                Piece::Mark("| "),
                Piece::Mark(key.table),
                Piece::Mark(" | `"),
                Piece::Mark(key.key),
                Piece::Mark("` | "),
                Piece::Mark(key.value),
                Piece::Mark(" |\n"),
            ],
        )?;
    }
    Ok(())
}

/// All faults that `pg` tells, table by table, and what each key of a style takes.
pub fn faults_text(alloc: Global) -> Result<Vec<u8>, AllocError> {
    let mut out = Vec::new(alloc);
    print_kinds("`pg: NAME: line L: list fault K`", &LIST_ROWS, &mut out)?;
    print_kinds("`pg: NAME: style fault K at KEY`", &STYLE_ROWS, &mut out)?;
    print_kinds("`pg: NAME: line L: script fault K`", &SCRIPT_ROWS, &mut out)?;
    print_kinds("`pg: step N: edit fault K`", &EDIT_ROWS, &mut out)?;
    print_remarks("Of `pg lines`", &PARAGRAPHS, &mut out)?;
    print_remarks("Other lines", &OTHERS, &mut out)?;
    print_keys(&mut out)?;
    Ok(out)
}
