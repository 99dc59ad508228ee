//! The shown texts of items.
ghost use Rattle.std.specs.Prelude.{◌≡◌, ◌++◌, OnOk, take};
ghost use Rattle.std.specs.List.{prefix_len};
ghost use Rattle.pg_scaled.specs.Scaled.{Grows};
ghost use Rattle.pg_pages.specs.Bodies.{body_text, set_rest, set_text};
ghost use Rattle.pg_scan.specs.Lines.{is_no_feed, dotted};
ghost use Rattle.pg_glue.specs.Widths.{IsPrintable};

use crate::parts::{end_line, print_bytes, print_width};
use pg_scan::{first_line_len, print_dotted};
use std::alloc::AllocError;

// A body as it stands in a page text, a point in front of each of its lines.
pub fn print_body(body: &[u8], out: &mut Vec<u8>) -> Result<(), AllocError>
    ensures ok { OnOk result (out.new.items ≡ out.old.items ++ body_text body.now) }
    ensures grows { Grows out.old.items out.new.items }
{
    print_bytes(b".", out)?;
    print_dotted(body, out)?;
    end_line(out)
}

// What stands behind the first line of a body, most often nothing.
fn print_further(further: &[u8], out: &mut Vec<u8>) -> Result<(), AllocError>
    ensures ok { OnOk result (out.new.items ≡ out.old.items ++ dotted further.now) }
    ensures grows { Grows out.old.items out.new.items }
{
    if further.is_empty() {
        return Ok(());
    }
    print_dotted(further, out)
}

// A set width, and what stands behind the first line.
fn print_set_rest(width: i128, further: &[u8], out: &mut Vec<u8>) -> Result<(), AllocError>
    requires { IsPrintable width }
    ensures ok { OnOk result (out.new.items ≡ out.old.items ++ set_rest width further.now) }
    ensures grows { Grows out.old.items out.new.items }
{
    print_bytes(b", set ", out)?;
    print_width(width, out)?;
    print_further(further, out)?;
    end_line(out)
}

// The first line of a body, which has no line feed.
#[tactic(auto, using(crate::proofs::FirstLine::first_as_it_is))]
fn print_first(body: &[u8], first: &[u8], out: &mut Vec<u8>) -> Result<(), AllocError>
    requires { first.now ≡ take (prefix_len is_no_feed body.now) body.now }
    ensures ok { OnOk result (out.new.items ≡ out.old.items ++ dotted first.now) }
    ensures grows { Grows out.old.items out.new.items }
{
    // the condition alone speaks of the body
    let _ = body;
    print_bytes(first, out)
}

// The body of a glue, its set width at the end of its first line.
pub fn print_set(body: &[u8], width: i128, out: &mut Vec<u8>) -> Result<(), AllocError>
    requires { IsPrintable width }
    ensures ok { OnOk result (out.new.items ≡ out.old.items ++ set_text body.now width) }
    ensures grows { Grows out.old.items out.new.items }
{
    let (first, further) = body.split_at(first_line_len(body));
    print_bytes(b".", out)?;
    print_first(body, first, out)?;
    print_set_rest(width, further, out)
}
