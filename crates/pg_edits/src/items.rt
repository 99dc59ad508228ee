//! The item lines in front of a text.
ghost use Rattle.std.specs.Prelude.{◌≡◌, ◌<◌, ◌≤◌, ◌+◌, ◌++◌, ◌^◌, false, length, take_while};
ghost use Rattle.pg_scan.specs.Lines.{raw_lines, has_point as begins_with_point};

use pg_scan::split_part;

/// A point stands in front.
pub fn has_point(text: &[u8]) -> bool
    ensures { result ≡ begins_with_point text.now }
{
    match text {
        [b'.', ..] => true,
        _ => false,
    }
}

/// The item lines in front of a text, how many there are, and what follows them.
pub fn split_items(text: &[u8]) -> (&[u8], u32, &[u8])
    requires { length text.now < 2 ^ 32 }
    ensures lines { raw_lines text.now ≡ raw_lines result.0.now ++ raw_lines result.2.now }
    ensures items { take_while begins_with_point (raw_lines text.now) ≡ raw_lines result.0.now }
    ensures count { result.1 ≡ length (raw_lines result.0.now) }
    ensures rest { begins_with_point result.2.now ≡ false }
    ensures few { result.1 ≤ length result.0.now }
    ensures size { length result.0.now + length result.2.now ≡ length text.now }
{
    let mut rest = text;
    let mut count = 0u32;
    'items: while has_point(rest) {
        let (_, behind) = split_part(b'\n', rest);
        rest = behind.unwrap_or(&[]);
        count += 1;
    }
    (&text[..text.len() - rest.len()], count, rest)
}
