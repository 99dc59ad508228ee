//! A line in pieces.
ghost use Rattle.std.specs.Prelude.{OnOk, OnErr, ◌≤◌};
ghost use Rattle.std.specs.Io.KnownBytes.{Appends};
ghost use Rattle.pg_outside.specs.Outside.{Rose, AppendsFront};
ghost use Rattle.pg_command.specs.Lines.{Says, line_text, piece_text};

use itoa::Buffer;
use pg_outside::{Sink, WriteFailed};

/// A piece of a line.
#[derive(Clone, Copy)]
pub enum Piece<'a> {
    Text(&'a str),
    Bytes(&'a [u8]),
    Number(u32),
    Long(u64),
    /// With a minus in front of a negative one.
    Whole(&'a i128),
}

// Writes a piece, without memory.
fn write_piece<E: Sink>(say: &mut E, piece: &Piece<'_>) -> Result<(), WriteFailed>
    ensures all { OnOk result (Appends (E.written say.old) (E.written say.new) (piece_text piece.now)) }
    ensures front { OnErr result (AppendsFront (E.written say.old) (E.written say.new) (piece_text piece.now)) }
    ensures cause { OnErr result (Rose (E.faults say.old) (E.faults say.new)) }
    ensures later { E.faults say.old ≤ E.faults say.new }
{
    match piece {
        Piece::Text(text) => say.write(text.as_bytes()),
        Piece::Bytes(bytes) => say.write(bytes),
        Piece::Number(number) => {
            let mut buffer = Buffer::new();
            say.write(buffer.format(*number).as_bytes())
        }
        Piece::Long(number) => {
            let mut buffer = Buffer::new();
            say.write(buffer.format(*number).as_bytes())
        }
        Piece::Whole(number) => {
            let mut buffer = Buffer::new();
            say.write(buffer.format(**number).as_bytes())
        }
    }
}

// Writes pieces in turn, until one fails.
fn write_pieces<E: Sink>(say: &mut E, pieces: &[Piece<'_>]) -> Result<(), WriteFailed>
    ensures all { OnOk result (Appends (E.written say.old) (E.written say.new) (line_text pieces.now)) }
    ensures front { OnErr result (AppendsFront (E.written say.old) (E.written say.new) (line_text pieces.now)) }
    ensures cause { OnErr result (Rose (E.faults say.old) (E.faults say.new)) }
    ensures later { E.faults say.old ≤ E.faults say.new }
{
    for piece in pieces {
        write_piece(say, piece)?;
    }
    Ok(())
}

/// Writes a line in its pieces. A fault ends the writing.
pub fn say_pieces<E: Sink>(say: &mut E, pieces: &[Piece<'_>])
    ensures line { Says (E.written say.old) (E.written say.new) (E.faults say.old) (E.faults say.new)
        (line_text pieces.now) }
    ensures later { E.faults say.old ≤ E.faults say.new }
{
    let _ = write_pieces(say, pieces);
}
