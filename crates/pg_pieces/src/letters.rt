//! Letters, plain or within a string.
ghost use Rattle.std.specs.Prelude.{◌≡◌, ◌<◌, ◌++◌, ◌==◌, OnOk, [], if◌then◌else◌};
ghost use Rattle.std.specs.List.{flat_map};
ghost use Rattle.std.specs.Str.{is_utf8};
ghost use Rattle.pg_pieces.specs.Pieces.{hex_digit, latin_byte, letter_text, letters_of, plain_byte};
ghost use Rattle.pg_pieces.specs.Pieces.{string_byte, word_letters, word_text};

use std::alloc::AllocError;

/// How it is told: as lines for a reader, or as one object of JSON.
#[derive(Clone, Copy)]
pub enum Form {
    Plain,
    Json,
}

/// How letters are written: for a reader; within a string of JSON; and there where they are no UTF-8.
#[derive(Clone, Copy)]
pub enum Letters {
    Shown,
    Quoted,
    Numbered,
}

impl Form {
    /// How the words of the program are written.
    pub fn words(self) -> Letters
        ensures { result ≡ word_letters self }
    {
        match self {
            Form::Plain => Letters::Shown,
            Form::Json => Letters::Quoted,
        }
    }

    /// How this text is written.
    pub fn letters(self, text: &[u8]) -> Letters
        ensures { result ≡ letters_of self text.now }
    {
        match self {
            Form::Plain => Letters::Shown,
            Form::Json => {
                if is_text(text) {
                    Letters::Quoted
                } else {
                    Letters::Numbered
                }
            }
        }
    }
}

// Whether a text is UTF-8.
#[tactic(auto, using(pg_lemmas::proofs::Utf8::no_utf8, pg_lemmas::proofs::Utf8::some_utf8))]
fn is_text(text: &[u8]) -> bool
    ensures { result ≡ is_utf8 text.now }
{
    match std::str::from_utf8(text) {
        Ok(_) => true,
        Err(_) => false,
    }
}

// A byte for a reader.
fn print_plain(byte: u8, out: &mut Vec<u8>) -> Result<(), AllocError>
    ensures { OnOk result (out.new.items ≡ out.old.items ++ plain_byte byte) }
{
    match byte {
        b'\t' => out.push(b' ')?,
        0..=31 | 127 => out.push(b'?')?,
        _ => out.push(byte)?,
    }
    Ok(())
}

// A byte within a string.
fn print_quoted(byte: u8, out: &mut Vec<u8>) -> Result<(), AllocError>
    ensures { OnOk result (out.new.items ≡ out.old.items ++ string_byte byte) }
{
    match byte {
        b'"' => out.extend_from_slice(b"\\\""),
        b'\\' => out.extend_from_slice(b"\\\\"),
        _ => print_plain(byte, out),
    }
}

// A digit of base 16.
fn digit(number: u8) -> u8
    requires { number < 16 }
    ensures { result ≡ hex_digit number }
{
    if number < 10 {
        48 + number
    } else {
        87 + number
    }
}

// A byte within a string, by its number where it is above 127.
fn print_numbered(byte: u8, out: &mut Vec<u8>) -> Result<(), AllocError>
    ensures { OnOk result (out.new.items ≡ out.old.items ++ latin_byte byte) }
{
    if byte > 127 {
        out.extend_from_slice(&[b'\\', b'u', b'0', b'0', digit(byte / 16), digit(byte % 16)])
    } else {
        print_quoted(byte, out)
    }
}

// A byte.
fn print_letter(letters: Letters, byte: u8, out: &mut Vec<u8>) -> Result<(), AllocError>
    ensures { OnOk result (out.new.items ≡ out.old.items ++ letter_text letters byte) }
{
    match letters {
        Letters::Shown => print_plain(byte, out),
        Letters::Quoted => print_quoted(byte, out),
        Letters::Numbered => print_numbered(byte, out),
    }
}

/// A text.
pub fn print_text(letters: Letters, text: &[u8], out: &mut Vec<u8>) -> Result<(), AllocError>
    ensures { OnOk result (out.new.items ≡ out.old.items ++ flat_map (letter_text letters) text.now) }
{
    let mut rest = text;
    'bytes: while let [byte, after @ ..] = rest {
        print_letter(letters, *byte, out)?;
        rest = after;
    }
    Ok(())
}

// A byte of words.
fn print_word_letter(letters: Letters, byte: u8, out: &mut Vec<u8>) -> Result<(), AllocError>
    ensures { OnOk result (out.new.items ≡ out.old.items ++ word_text letters byte) }
{
    if byte == b'`' {
        Ok(())
    } else {
        print_letter(letters, byte, out)
    }
}

/// Words, without their backquotes.
pub fn print_words(letters: Letters, text: &[u8], out: &mut Vec<u8>) -> Result<(), AllocError>
    ensures { OnOk result (out.new.items ≡ out.old.items ++ flat_map (word_text letters) text.now) }
{
    let mut rest = text;
    'bytes: while let [byte, after @ ..] = rest {
        print_word_letter(letters, *byte, out)?;
        rest = after;
    }
    Ok(())
}
