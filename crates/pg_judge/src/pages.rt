//! Whether the pages of a pagination have all their columns.
ghost use Rattle.std.specs.Prelude.{◌≡◌, ◌<◌, ◌^◌, ◌&&◌, ◌==◌, nat_le, if◌then◌else◌, length, reverse, take};
ghost use Rattle.std.specs.Option.{option_or};
ghost use Rattle.pg_plan.specs.Order.{columns_of};
ghost use Rattle.pg_rules.specs.Legal.{misfilled as misfilled_of, underfilled, unless};

use pg_plan::Page;

// The number of a column, where a test fails.
fn unless_kept(is_kept: bool, number: u32) -> Option<u32>
    ensures { result ≡ unless is_kept number }
{
    if is_kept { None } else { Some(number) }
}

// The last page has a column, and not too many.
fn has_some(len: usize, full: usize) -> bool
    ensures { result ≡ (nat_le 1 len && nat_le len full) }
{
    1 <= len && len <= full
}

// A page before the last has all its columns.
fn has_all(len: usize, full: usize) -> bool
    ensures { result ≡ (nat_le 1 len && (len == full)) }
{
    1 <= len && len == full
}

/// The first column of the first page that lacks columns or has too many. The last page may lack some, but not all.
pub fn misfilled(full: u8, pages: &[Page]) -> Option<u32>
    requires { length (columns_of (reverse pages.now)) < 2 ^ 31 }
    ensures { result ≡ misfilled_of full (reverse pages.now) }
{
    let full = full as usize;
    let mut under = None;
    let mut found = None;
    let mut count = 0u32;
    for page in pages {
        let len = page.columns.as_slice().len();
        found = under.or(unless_kept(has_some(len, full), count + 1));
        under = under.or(unless_kept(has_all(len, full), count + 1));
        count += len as u32;
    }
    found
}
