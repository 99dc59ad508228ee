//! Pieces of what is told.
ghost use Rattle.std.specs.Prelude.{◌≡◌, ◌++◌, OnOk};
ghost use Rattle.pg_pieces.specs.Pieces.{pieces_text};

use pg_pieces::{Form, Piece};
use std::alloc::AllocError;

/// Appends pieces.
pub fn print(form: Form, out: &mut Vec<u8>, pieces: &[Piece<'_>]) -> Result<(), AllocError>
    ensures { OnOk result (out.new.items ≡ out.old.items ++ pieces_text form pieces.now) }
{
    pg_pieces::print(form, out, pieces)
}
