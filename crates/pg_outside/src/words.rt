//! The words that a program is given.
ghost use Rattle.std.specs.Prelude.{◌≡◌, drop};
ghost use Rattle.pg_outside.specs.Words.{is_name};

use std::{env, io};

// The words behind the first, in their order.
fn behind_first(words: Vec<String>) -> Vec<String>
    ensures { result.items ≡ drop 1 words.items }
{
    let mut words = words;
    if !words.is_empty() {
        let _ = words.remove(0);
    }
    words
}

/// The words after the program's name, or why the system does not give them.
pub fn words_of(rt: &HostRuntime) -> Result<Vec<String>, io::Error> {
    let words = env::args(rt)?.collect(rt.alloc())?;
    Ok(behind_first(words))
}

/// Whether a word can name a file: it is not empty and does not begin with a minus.
pub fn is_file_name(word: &str) -> bool
    ensures { result ≡ is_name word.now }
{
    match word.as_bytes() {
        [] | [b'-', ..] => false,
        _ => true,
    }
}
