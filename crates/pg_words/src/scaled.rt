//! Scaled numbers of a word.
ghost use Rattle.std.specs.Prelude.{◌≡◌, ◌≤◌, ◌<◌, ◌^◌, nat_abs, IfOk, IfSome};
ghost use Rattle.std.specs.Option.{option_map};
ghost use Rattle.std.specs.Str.{bytes_eq};
ghost use Rattle.pg_scaled.specs.Digits.{AllAsciiDigits, size_of};
ghost use Rattle.pg_scaled.specs.Scaled.{after_point, scaled_text, signed as signed_of};
ghost use Rattle.pg_words.specs.Read.{if_small, size_behind as size_behind_word, size_word as size_of_word, value_word, scaled_word, option_word};

use crate::numbers::{behind_minus, capped_size, digits};
use pg_scaled::{fraction, print_scaled, split_digits};
use std::alloc::{AllocError, Global};

/// 2^44 points are more than 2^60 units.
const MOST_POINTS: u128 = 17592186044416;

const MOST_UNITS: u64 = 1152921504606846976;

// The size with so many points and this fraction, where it is at most 2^60 units.
fn small_size(whole: &[u8], fraction_digits: &[u8]) -> Option<u64>
    requires whole { AllAsciiDigits whole.now }
    requires fraction { AllAsciiDigits fraction_digits.now }
    ensures value { result ≡ if_small (size_of whole.now fraction_digits.now) }
    ensures bound { IfSome result (λ size. size ≤ 2 ^ 60) }
{
    let points = capped_size(whole);
    if points > MOST_POINTS {
        return None;
    }
    let size = 65536 * points as u64 + u64::from(fraction(fraction_digits));
    if size > MOST_UNITS { None } else { Some(size) }
}

/// What stands behind a point.
pub fn behind_point(text: &[u8]) -> Option<&[u8]>
    ensures { option_map (λ behind. behind.now) result ≡ after_point text.now }
{
    match text {
        [b'.', behind @ ..] => Some(behind),
        _ => None,
    }
}

#[tactic(auto, unfolding(crate::specs::Read::size_behind))]
fn size_behind(whole: &[u8], fraction: &[u8]) -> Option<u64>
    requires { AllAsciiDigits whole.now }
    ensures value { result ≡ size_behind_word whole.now fraction.now }
    ensures bound { IfSome result (λ size. size ≤ 2 ^ 60) }
{
    small_size(whole, digits(fraction)?)
}

// The size of a word without a minus.
#[tactic(auto, unfolding(crate::specs::Read::size_word))]
fn size(word: &[u8]) -> Option<u64>
    ensures value { result ≡ size_of_word word.now }
    ensures bound { IfSome result (λ size. size ≤ 2 ^ 60) }
{
    let (whole, rest) = split_digits(word);
    size_behind(whole, behind_point(rest)?)
}

fn signed(minus: bool, size: u64) -> i64
    requires { size ≤ 2 ^ 60 }
    ensures value { result ≡ signed_of minus size }
    ensures size { nat_abs result ≤ 2 ^ 60 }
{
    if minus { -(size as i64) } else { size as i64 }
}

// The value of a word, in whatever spelling.
#[tactic(auto, unfolding(crate::specs::Read::value_word))]
fn value(word: &[u8]) -> Option<i64>
    ensures value { result ≡ value_word word.now }
    ensures size { IfSome result (λ value. nat_abs value ≤ 2 ^ 60) }
{
    match behind_minus(word) {
        Some(behind) => Some(signed(true, size(behind)?)),
        None => Some(signed(false, size(word)?)),
    }
}

// Whether a value is printed so.
fn is_printed(alloc: Global, value: i64, word: &[u8]) -> Result<bool, AllocError>
    requires { nat_abs value ≤ 2 ^ 60 }
    ensures { IfOk result (λ printed. printed ≡ bytes_eq (scaled_text value) word.now) }
{
    let mut text = Vec::new(alloc);
    print_scaled(i128::from(value), &mut text)?;
    Ok(text.as_slice() == word)
}

/// A scaled number of a size of at most 2^60 units, in the spelling in which it is printed.
#[tactic(auto, unfolding(crate::specs::Read::scaled_word))]
pub fn read_length(alloc: Global, word: &[u8]) -> Result<Option<i64>, AllocError>
    ensures { IfOk result (λ value. value ≡ scaled_word word.now) }
{
    let Some(value) = value(word) else {
        return Ok(None);
    };
    if is_printed(alloc, value, word)? {
        Ok(Some(value))
    } else {
        Ok(None)
    }
}

/// A scaled number, as `read_length` reads it, or `-` for none.
pub fn read_length_or_none(alloc: Global, word: &[u8]) -> Result<Option<Option<i64>>, AllocError>
    ensures { IfOk result (λ value. value ≡ option_word scaled_word word.now) }
{
    if word == b"-".as_slice() {
        return Ok(Some(None));
    }
    match read_length(alloc, word)? {
        Some(value) => Ok(Some(Some(value))),
        None => Ok(None),
    }
}
