//! What the lines of a page text are made of. These calls say less than those that they make, so proofs above are short.
ghost use Rattle.std.specs.Prelude.{◌≡◌, ◌++◌, ◌∷◌, [], OnOk};
ghost use Rattle.pg_glue.specs.Widths.{IsPrintable};
ghost use Rattle.pg_scaled.specs.Scaled.{Grows, scaled_text};

use pg_scaled::print_scaled;
use std::alloc::AllocError;

// Bytes as they are.
pub fn print_bytes(bytes: &[u8], out: &mut Vec<u8>) -> Result<(), AllocError>
    ensures ok { OnOk result (out.new.items ≡ out.old.items ++ bytes.now) }
    ensures grows { Grows out.old.items out.new.items }
{
    out.extend_from_slice(bytes)
}

// The end of a line.
pub fn end_line(out: &mut Vec<u8>) -> Result<(), AllocError>
    ensures ok { OnOk result (out.new.items ≡ out.old.items ++ 10 ∷ []) }
    ensures grows { Grows out.old.items out.new.items }
{
    out.push(b'\n')?;
    Ok(())
}

// A width in points.
pub fn print_width(width: i128, out: &mut Vec<u8>) -> Result<(), AllocError>
    requires { IsPrintable width }
    ensures ok { OnOk result (out.new.items ≡ out.old.items ++ scaled_text width) }
    ensures grows { Grows out.old.items out.new.items }
{
    print_scaled(width, out)
}
