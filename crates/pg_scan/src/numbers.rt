//! Whole numbers of a text.
ghost use Rattle.std.specs.Prelude.{◌≡◌, ◌≤◌, ◌<◌, ◌+◌, ◌^◌, ◌-◌, length, min};
ghost use Rattle.std.specs.Str.Parse.{digits_value};
ghost use Rattle.pg_scaled.specs.Digits.{digit_count, AllAsciiDigits};
ghost use Rattle.pg_scan.specs.Parts.{word_number, is_word_length};

use pg_scaled::split_digits;

/// The value of the digits, or 2^32 where it is larger.
pub fn capped_value(digits: &[u8]) -> u64
    requires { AllAsciiDigits digits.now }
    ensures { result ≡ min (digits_value 10 digits.now) (2 ^ 32) }
{
    let mut value = 0u64;
    for d in digits {
        value = (10 * value + (*d - b'0') as u64).min(4294967296);
    }
    value
}

// The length of a word that is a number.
fn has_word_length(digits: &[u8]) -> bool
    ensures { result ≡ is_word_length (length digits.now) }
{
    1 <= digits.len() && digits.len() <= 10
}

/// The number of a word that is 1 to 10 digits and nothing else, where it is from low to high.
#[tactic(auto, unfolding(crate::specs::Parts::word_number))]
pub fn whole_word(low: u32, high: u32, word: &[u8]) -> Option<u32>
    ensures { result ≡ word_number low high word.now }
{
    let (digits, rest) = split_digits(word);
    if !rest.is_empty() || !has_word_length(digits) {
        return None;
    }
    let value = capped_value(digits);
    if low as u64 <= value && value <= high as u64 {
        Some(value as u32)
    } else {
        None
    }
}
