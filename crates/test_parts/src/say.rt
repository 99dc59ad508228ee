//! Numbers and lengths in words.
use itoa::Buffer;
use pg_command::Ending;
use pg_scaled::print_scaled;
use std::alloc::AllocError;

/// Adds a number.
pub fn say_number(number: u64, out: &mut Vec<u8>) -> Result<(), AllocError> {
    out.extend_from_slice(Buffer::new().format(number).as_bytes())
}

/// Adds a length in points.
pub fn say_points(units: i32, out: &mut Vec<u8>) -> Result<(), AllocError> {
    print_scaled(i128::from(units), out)
}

/// Adds a word, and a number behind it.
pub fn say_word(word: &[u8], number: u64, out: &mut Vec<u8>) -> Result<(), AllocError> {
    out.extend_from_slice(word)?;
    say_number(number, out)
}

/// A text, or that memory ran out for it.
pub fn unless_memory<'a>(said: Result<Vec<u8>, AllocError>) -> Result<Vec<u8>, Ending<'a>> {
    match said {
        Ok(said) => Ok(said),
        Err(_) => Err(Ending::Memory),
    }
}
