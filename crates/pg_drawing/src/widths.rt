//! Widths as a page text prints them.
ghost use Rattle.std.specs.Prelude.{◌≡◌, ◌≤◌, ◌<◌, ◌^◌, min, nat_abs, IfSome};
ghost use Rattle.std.specs.Str.Parse.{digits_value};
ghost use Rattle.pg_scaled.specs.Digits.{AllAsciiDigits, size_of};
ghost use Rattle.pg_scaled.specs.Scaled.{signed as signed_of};
ghost use Rattle.pg_drawing.specs.Widths.{if_length, if_printed, length_word, nearest, printed_behind, printed_size, width_word};

use pg_scaled::{fraction, split_digits};
use pg_words::{behind_minus, behind_point, digits};

// 2^104 points are 2^120 units.
const MOST_POINTS: u128 = 20282409603651670423947251286016;

const MOST_UNITS: u128 = 1329227995784915872903807060280344576;

// The most units of a total: 2^60.
const MOST_LENGTH: i128 = 1152921504606846976;

// The value of the digits, or 2^104 where it is larger.
fn capped_points(digits: &[u8]) -> u128
    requires { AllAsciiDigits digits.now }
    ensures { result ≡ min (digits_value 10 digits.now) (2 ^ 104) }
{
    let mut points = 0u128;
    for d in digits {
        points = (10 * points + u128::from(*d - b'0')).min(MOST_POINTS);
    }
    points
}

// The size with so many points and this fraction, where it can be printed.
fn size_of_parts(whole: &[u8], digits: &[u8]) -> Option<u128>
    requires whole { AllAsciiDigits whole.now }
    requires fraction { AllAsciiDigits digits.now }
    ensures value { result ≡ if_printed (size_of whole.now digits.now) }
    ensures bound { IfSome result (λ size. size < 2 ^ 120) }
{
    let points = capped_points(whole);
    if points == MOST_POINTS {
        return None;
    }
    let size = 65536 * points + u128::from(fraction(digits));
    if size < MOST_UNITS { Some(size) } else { None }
}

#[tactic(auto, unfolding(crate::specs::Widths::printed_behind))]
fn size_behind(whole: &[u8], fraction: &[u8]) -> Option<u128>
    requires { AllAsciiDigits whole.now }
    ensures value { result ≡ printed_behind whole.now fraction.now }
    ensures bound { IfSome result (λ size. size < 2 ^ 120) }
{
    size_of_parts(whole, digits(fraction)?)
}

// The size of a width without a minus.
#[tactic(auto, unfolding(crate::specs::Widths::printed_size))]
fn size(text: &[u8]) -> Option<u128>
    ensures value { result ≡ printed_size text.now }
    ensures bound { IfSome result (λ size. size < 2 ^ 120) }
{
    let (whole, rest) = split_digits(text);
    size_behind(whole, behind_point(rest)?)
}

fn signed(minus: bool, size: u128) -> i128
    requires { size < 2 ^ 120 }
    ensures value { result ≡ signed_of minus size }
    ensures size { nat_abs result < 2 ^ 120 }
{
    if minus { -(size as i128) } else { size as i128 }
}

/// A width of a size below 2^120 units.
#[tactic(auto, unfolding(crate::specs::Widths::width_word))]
pub fn width(text: &[u8]) -> Option<i128>
    ensures value { result ≡ width_word text.now }
    ensures size { IfSome result (λ width. nat_abs width < 2 ^ 120) }
{
    match behind_minus(text) {
        Some(behind) => Some(signed(true, size(behind)?)),
        None => Some(signed(false, size(text)?)),
    }
}

// This width, where it is at most 2^60 units.
fn small(width: &i128) -> Option<i64>
    ensures { result ≡ if_length width.now }
{
    if -MOST_LENGTH <= *width && *width <= MOST_LENGTH {
        Some(*width as i64)
    } else {
        None
    }
}

/// A width of a size of at most 2^60 units.
#[tactic(auto, unfolding(crate::specs::Widths::length_word))]
pub fn length(text: &[u8]) -> Option<i64>
    ensures { result ≡ length_word text.now }
{
    small(&width(text)?)
}

/// This width, or the nearest of a size of at most 2^60 units.
pub fn within(width: &i128) -> i64
    ensures value { result ≡ nearest width.now }
    ensures size { nat_abs result ≤ 2 ^ 60 }
{
    if *width > MOST_LENGTH {
        MOST_LENGTH as i64
    } else if *width < -MOST_LENGTH {
        -MOST_LENGTH as i64
    } else {
        *width as i64
    }
}
