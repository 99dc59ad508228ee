//! Whole numbers of a line.
ghost use Rattle.std.specs.Prelude.{◌≡◌, ◌≤◌, ◌<◌, ◌^◌, length, take, drop, min, neg_ℤ, pos, ◌<ℤ◌, ◌≤ℤ◌, IfOk};
ghost use Rattle.std.specs.Str.Parse.{digits_value};
ghost use Rattle.pg_scaled.specs.Digits.{digit_count, AllAsciiDigits};
ghost use Rattle.pg_scaled.specs.Scaled.{signed as signed_of};
ghost use Rattle.pg_showbox.specs.Parts.{ranged as ranged_of, digits_at, whole_at, class_at, Answers};

use crate::kinds::ListKind;
use pg_scaled::split_digits;
use pg_scan::{capped_value, skip};

// A size with its sign.
fn signed(minus: bool, size: u64) -> i64
    requires { size ≤ 2 ^ 32 }
    ensures { result ≡ signed_of minus size }
{
    if minus { -(size as i64) } else { size as i64 }
}

// A value that has to be from low to high.
fn ranged<'a>(low: i64, high: i64, value: i64, rest: &'a [u8]) -> Result<(i64, &'a [u8]), ListKind>
    ensures value { Answers (λ x. (x.0, x.1.now)) result (ranged_of low high value rest.now) }
    ensures range { IfOk result (λ x. (low ≤ℤ x.0) × (x.0 ≤ℤ high)) }
{
    if low <= value && value <= high {
        Ok((value, rest))
    } else {
        Err(ListKind::OutOfRange)
    }
}

// The digits behind the minus, if there was one.
#[tactic(auto, unfolding(crate::specs::Parts::digits_at))]
fn digits(low: i64, high: i64, minus: bool, bytes: &[u8]) -> Result<(i64, &[u8]), ListKind>
    requires low { neg_ℤ (pos (2 ^ 32)) <ℤ low }
    requires high { high <ℤ pos (2 ^ 32) }
    ensures value { Answers (λ x. (x.0, x.1.now)) result (digits_at low high minus bytes.now) }
    ensures range { IfOk result (λ x. (low ≤ℤ x.0) × (x.0 ≤ℤ high)) }
{
    let (digits, rest) = split_digits(bytes);
    if digits.is_empty() {
        return Err(ListKind::BadNumber);
    }
    ranged(low, high, signed(minus, capped_value(digits)), rest)
}

/// A whole number from low to high with an optional minus, and what stands behind it. `BadNumber`
/// comes where no digit stands there, `OutOfRange` where the number is not in range.
#[tactic(auto, unfolding(crate::specs::Parts::whole_at))]
pub fn read_whole(low: i64, high: i64, bytes: &[u8]) -> Result<(i64, &[u8]), ListKind>
    requires low { neg_ℤ (pos (2 ^ 32)) <ℤ low }
    requires high { high <ℤ pos (2 ^ 32) }
    ensures value { Answers (λ x. (x.0, x.1.now)) result (whole_at low high bytes.now) }
    ensures range { IfOk result (λ x. (low ≤ℤ x.0) × (x.0 ≤ℤ high)) }
{
    match skip(b"-", bytes) {
        Some(rest) => digits(low, high, true, rest),
        None => digits(low, high, false, bytes),
    }
}

/// A class of inserts, of which at most three digits count, and what stands behind it. `BadNumber`
/// comes where no digit stands there, `OutOfRange` where it is above 254.
#[tactic(auto, unfolding(crate::specs::Parts::class_at))]
pub fn read_class(bytes: &[u8]) -> Result<(u8, &[u8]), ListKind>
    ensures value { Answers (λ x. (x.0, x.1.now)) result (class_at bytes.now) }
    ensures range { IfOk result (λ x. x.0 ≤ 254) }
{
    let (digits, _) = split_digits(bytes);
    if digits.is_empty() {
        return Err(ListKind::BadNumber);
    }
    let count = digits.len().min(3);
    let class = capped_value(&digits[..count]);
    if class > 254 {
        return Err(ListKind::OutOfRange);
    }
    Ok((class as u8, &bytes[count..]))
}
