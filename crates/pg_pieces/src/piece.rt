//! Pieces.
ghost use Rattle.std.specs.Prelude.{◌≡◌, ◌++◌, OnOk};
ghost use Rattle.pg_pieces.specs.Pieces.{piece_text, pieces_text};

use crate::letters::{Form, print_text, print_words};
use pg_scaled::print_scaled;
use pg_words::{print_decimal, print_whole};
use std::alloc::AllocError;

/// A piece of what is told.
#[derive(Clone, Copy)]
pub enum Piece<'a> {
    /// Text of the program itself, as it is. No text of a file lives as long, so none can stand here.
    Mark(&'static str),
    /// Words of the program, within a string where JSON is told, and without their backquotes.
    Words(&'static str),
    /// What stands in a file, or is its name.
    Text(&'a [u8]),
    Count(u64),
    /// Scaled points.
    Length(i64),
    Number(i128),
}

fn print_piece(form: Form, piece: &Piece<'_>, out: &mut Vec<u8>) -> Result<(), AllocError>
    ensures { OnOk result (out.new.items ≡ out.old.items ++ piece_text form piece.now) }
{
    match piece {
        Piece::Mark(text) => out.extend_from_slice(text.as_bytes()),
        Piece::Words(text) => print_words(form.words(), text.as_bytes(), out),
        Piece::Text(text) => print_text(form.letters(text), text, out),
        Piece::Count(number) => print_decimal(u128::from(*number), out),
        Piece::Length(length) => print_scaled(i128::from(*length), out),
        Piece::Number(number) => print_whole(*number, out),
    }
}

/// Appends pieces.
pub fn print(form: Form, out: &mut Vec<u8>, pieces: &[Piece<'_>]) -> Result<(), AllocError>
    ensures { OnOk result (out.new.items ≡ out.old.items ++ pieces_text form pieces.now) }
{
    let mut rest = pieces;
    'pieces: while let [piece, after @ ..] = rest {
        print_piece(form, piece, out)?;
        rest = after;
    }
    Ok(())
}
