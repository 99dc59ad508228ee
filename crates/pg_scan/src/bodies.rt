//! The shown text of an item, its body, printed.
ghost use Rattle.std.specs.Prelude.{◌≡◌, ◌==◌, ◌++◌, ◌<◌, IfOk, OnOk, false, length};
ghost use Rattle.std.specs.List.{list_any, prefix_len};
ghost use Rattle.pg_scaled.specs.Scaled.{Grows};
ghost use Rattle.pg_scan.specs.Lines.{dotted, is_no_feed};

use crate::lines::first_line_len;
use std::alloc::AllocError;

// Whether a body has several lines.
fn has_feed(body: &[u8]) -> bool
    ensures { result ≡ list_any (λ byte. byte == 10) body.now }
{
    body.contains(&b'\n')
}

// A body of one line, as most are, in one piece.
#[tactic(auto, using(crate::proofs::OneLine::line_as_it_is))]
fn print_line(body: &[u8], out: &mut Vec<u8>) -> Result<(), AllocError>
    requires { list_any (λ byte. byte == 10) body.now ≡ false }
    ensures ok { OnOk result (out.new.items ≡ out.old.items ++ dotted body.now) }
    ensures grows { Grows out.old.items out.new.items }
{
    out.extend_from_slice(body)?;
    Ok(())
}

// The first line of a body with its feed, and a point behind it. Answers what follows.
fn print_first<'a>(body: &'a [u8], len: usize, out: &mut Vec<u8>) -> Result<&'a [u8], AllocError>
    requires len { len ≡ prefix_len is_no_feed body.now }
    requires more { len < length body.now }
    ensures text { IfOk result (λ after. out.new.items ++ dotted after.now ≡ out.old.items ++ dotted body.now) }
    ensures grows { Grows out.old.items out.new.items }
    ensures shorter { IfOk result (λ after. length after.now < length body.now) }
{
    let (line, after) = body.split_at(len + 1);
    out.extend_from_slice(line)?;
    out.push(b'.')?;
    Ok(after)
}

// A body of any lines, line for line.
fn print_lines(body: &[u8], out: &mut Vec<u8>) -> Result<(), AllocError>
    ensures ok { OnOk result (out.new.items ≡ out.old.items ++ dotted body.now) }
    ensures grows { Grows out.old.items out.new.items }
{
    let mut rest = body;
    let mut len = first_line_len(rest);
    'lines: while len < rest.len() {
        rest = print_first(rest, len, out)?;
        len = first_line_len(rest);
    }
    print_line(rest, out)
}

/// Prints a body with a point behind each line feed, so that each of its lines but the first begins with one.
///
/// Errors: out of memory; then what was there stands in front of what is there.
pub fn print_dotted(body: &[u8], out: &mut Vec<u8>) -> Result<(), AllocError>
    ensures ok { OnOk result (out.new.items ≡ out.old.items ++ dotted body.now) }
    ensures grows { Grows out.old.items out.new.items }
{
    if has_feed(body) {
        print_lines(body, out)
    } else {
        print_line(body, out)
    }
}
