//! Whole numbers of a word.
ghost use Rattle.std.specs.Prelude.{◌≡◌, ◌≤◌, ◌<◌, ◌^◌, ◌-◌, min, IfSome};
ghost use Rattle.std.specs.Option.{option_map};
ghost use Rattle.std.specs.Str.Parse.{digits_value};
ghost use Rattle.pg_scaled.specs.Digits.{AllAsciiDigits};
ghost use Rattle.pg_words.specs.Read.{has_no_zero_in_front, if_digits, numeral as numeral_of, number_below as below, negative_word, positive_word, whole_word, behind_minus as minus_of};

use pg_scaled::split_digits;
use pg_scan::capped_value;

// One byte, or more that begin with no 0.
fn begins_well(word: &[u8]) -> bool
    ensures { result ≡ has_no_zero_in_front word.now }
{
    match word {
        [] => false,
        [_] => true,
        [first, ..] => *first != b'0',
    }
}

/// The text, where it is digits alone.
pub fn digits(text: &[u8]) -> Option<&[u8]>
    ensures value { option_map (λ digits. digits.now) result ≡ if_digits text.now }
    ensures each { IfSome result (λ digits. AllAsciiDigits digits.now) }
{
    let (digits, _) = split_digits(text);
    if digits.len() == text.len() {
        Some(digits)
    } else {
        None
    }
}

/// The word, where it is digits without a 0 in front of others.
#[tactic(auto, unfolding(crate::specs::Read::numeral))]
pub fn numeral(word: &[u8]) -> Option<&[u8]>
    ensures value { option_map (λ digits. digits.now) result ≡ numeral_of word.now }
    ensures each { IfSome result (λ digits. AllAsciiDigits digits.now) }
{
    if begins_well(word) {
        digits(word)
    } else {
        None
    }
}

/// A number below a bound.
#[tactic(auto, unfolding(crate::specs::Read::number_below))]
pub fn number_below(bound: u64, word: &[u8]) -> Option<u64>
    requires { bound ≤ 2 ^ 32 }
    ensures value { result ≡ below bound word.now }
    ensures bound { IfSome result (λ number. number < bound) }
{
    let value = capped_value(numeral(word)?);
    if value < bound { Some(value) } else { None }
}

/// The value of the digits, or 2^128 - 1 where it is larger.
pub fn capped_size(digits: &[u8]) -> u128
    requires { AllAsciiDigits digits.now }
    ensures { result ≡ min (digits_value 10 digits.now) (2 ^ 128 - 1) }
{
    let mut value = 0u128;
    for d in digits {
        value = value
            .saturating_mul(10)
            .saturating_add(u128::from(*d - b'0'));
    }
    value
}

/// What stands behind a minus.
pub fn behind_minus(word: &[u8]) -> Option<&[u8]>
    ensures { option_map (λ behind. behind.now) result ≡ minus_of word.now }
{
    match word {
        [b'-', behind @ ..] => Some(behind),
        _ => None,
    }
}

// The number whose minus was read.
#[tactic(auto, unfolding(crate::specs::Read::negative_word))]
fn negative(word: &[u8]) -> Option<i128>
    ensures { result ≡ negative_word word.now }
{
    let size = capped_size(numeral(word)?);
    if size == 0 {
        return None;
    }
    0i128.checked_sub_unsigned(size)
}

#[tactic(auto, unfolding(crate::specs::Read::positive_word))]
fn positive(word: &[u8]) -> Option<i128>
    ensures { result ≡ positive_word word.now }
{
    0i128.checked_add_unsigned(capped_size(numeral(word)?))
}

/// A whole number within 128 bits.
#[tactic(auto, unfolding(crate::specs::Read::whole_word))]
pub fn whole(word: &[u8]) -> Option<i128>
    ensures { result ≡ whole_word word.now }
{
    match behind_minus(word) {
        Some(digits) => negative(digits),
        None => positive(word),
    }
}
