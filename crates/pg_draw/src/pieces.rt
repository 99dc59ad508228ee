//! Pieces of a page.
ghost use Rattle.std.specs.Prelude.{◌≡◌, ◌++◌, OnOk};
ghost use Rattle.std.specs.List.{flat_map};
ghost use Rattle.pg_draw.specs.Escaped.{escaped, piece_text, pieces_text, points_text, tenths_in, tenths_text};

use pg_scaled::print_scaled;
use pg_words::{print_decimal, print_whole};
use std::alloc::AllocError;

/// A piece of a page.
#[derive(Clone, Copy)]
pub enum Piece<'a> {
    /// Text of the program itself, as it is. No text of a file lives as long, so none can stand here.
    Markup(&'static str),
    /// What stands in a file, or is its name.
    Text(&'a [u8]),
    Count(usize),
    /// Scaled points, exactly.
    Length(i64),
    /// Scaled points, to the nearest tenth of a point.
    Points(i64),
    Number(i128),
}

// One byte of a text.
fn print_byte(byte: u8, out: &mut Vec<u8>) -> Result<(), AllocError>
    ensures { OnOk result (out.new.items ≡ out.old.items ++ escaped byte) }
{
    match byte {
        b'&' => out.extend_from_slice(b"&amp;")?,
        b'<' => out.extend_from_slice(b"&lt;")?,
        b'>' => out.extend_from_slice(b"&gt;")?,
        b'"' => out.extend_from_slice(b"&quot;")?,
        0..=31 | 127 => out.extend_from_slice(b"?")?,
        _ => out.push(byte)?,
    }
    Ok(())
}

// A text, without its markup.
fn print_text(text: &[u8], out: &mut Vec<u8>) -> Result<(), AllocError>
    ensures { OnOk result (out.new.items ≡ out.old.items ++ flat_map escaped text.now) }
{
    let mut rest = text;
    'bytes: while let [byte, after @ ..] = rest {
        print_byte(*byte, out)?;
        rest = after;
    }
    Ok(())
}

// The tenths of a point that are nearest to a length.
fn tenths_of(length: i64) -> u128
    ensures { result ≡ tenths_in length }
{
    (u128::from(length.unsigned_abs()) * 10 + 32768) / 65536
}

// So many tenths of a point.
fn print_tenths(tenths: u128, out: &mut Vec<u8>) -> Result<(), AllocError>
    ensures { OnOk result (out.new.items ≡ out.old.items ++ tenths_text tenths) }
{
    print_decimal(tenths / 10, out)?;
    out.extend_from_slice(b".")?;
    print_decimal(tenths % 10, out)
}

// Scaled points, to the nearest tenth of a point.
fn print_points(length: i64, out: &mut Vec<u8>) -> Result<(), AllocError>
    ensures { OnOk result (out.new.items ≡ out.old.items ++ points_text length) }
{
    if length < 0 {
        out.extend_from_slice(b"-")?;
    }
    print_tenths(tenths_of(length), out)
}

fn print_piece(piece: &Piece<'_>, out: &mut Vec<u8>) -> Result<(), AllocError>
    ensures { OnOk result (out.new.items ≡ out.old.items ++ piece_text piece.now) }
{
    match piece {
        Piece::Markup(text) => {
            out.extend_from_slice(text.as_bytes())?;
            Ok(())
        }
        Piece::Text(text) => print_text(text, out),
        Piece::Count(number) => print_decimal(*number as u128, out),
        Piece::Length(length) => print_scaled(i128::from(*length), out),
        Piece::Points(length) => print_points(*length, out),
        Piece::Number(number) => print_whole(*number, out),
    }
}

/// Appends pieces. What stands in a file has no markup left.
pub fn print(out: &mut Vec<u8>, pieces: &[Piece<'_>]) -> Result<(), AllocError>
    ensures { OnOk result (out.new.items ≡ out.old.items ++ pieces_text pieces.now) }
{
    let mut rest = pieces;
    'pieces: while let [piece, after @ ..] = rest {
        print_piece(piece, out)?;
        rest = after;
    }
    Ok(())
}
