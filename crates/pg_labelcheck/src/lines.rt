//! Where two texts differ.
ghost use Rattle.std.specs.Prelude.{◌≡◌};
ghost use Rattle.pg_scan.specs.Parts.{parts_of};
ghost use Rattle.law_check.specs.Faults.{first_difference};

use pg_scan::split_part;

// The number of the first line in which two texts differ, from 1; None where they differ in none. Each line of a text
// is read once.
pub(crate) fn first_other_line(text: &[u8], other: &[u8]) -> Option<u64>
    ensures { result ≡ first_difference 1 (parts_of 10 text.now) (parts_of 10 other.now) }
{
    let mut number = 1u64;
    let mut rest = Some(text);
    let mut other_rest = Some(other);
    while let Some(left) = rest {
        let Some(other_left) = other_rest else {
            return Some(number);
        };
        let (line, behind) = split_part(b'\n', left);
        let (other_line, other_behind) = split_part(b'\n', other_left);
        if line != other_line {
            return Some(number);
        }
        rest = behind;
        other_rest = other_behind;
        number += 1;
    }
    if other_rest.is_some() {
        Some(number)
    } else {
        None
    }
}
