//! Texts in a few letters.
use std::alloc::{AllocError, Global};

// Puts the line of a letter at the end of a text.
fn push_line(text: &mut Vec<u8>, letter: u8) -> Result<(), AllocError> {
    match letter {
        b'R' => text.extend_from_slice(b"\\vbox(0.0+0.0)x345.0\n"),
        b'B' => text.extend_from_slice(b".\\hbox(7.0+2.0)x345.0\n"),
        b'G' => text.extend_from_slice(b".\\glue 3.0\n"),
        b'C' => text.extend_from_slice(b".\\special{pg:choice}\n"),
        b'V' => text.extend_from_slice(b".\\special{pg:variant 0 0}\n"),
        b'E' => text.extend_from_slice(b".\\special{pg:end}\n"),
        b'I' => text.extend_from_slice(
            b".\\insert200, natural size 9.0; split(0.0,0.0); float cost 0\n",
        ),
        b'~' => text.extend_from_slice(b"\n"),
        b'^' => text.extend_from_slice(b"\r"),
        _ => {
            text.push(letter)?;
            Ok(())
        }
    }
}

/// A text, with the line that each of these letters stands for: R a root, B a box, G glue, C, V and E the markers of a
/// choice, of a variant and of the choice's end, I an insert. `~` stands for a line feed and `^` for a carriage return.
/// All else stands for itself.
pub fn lines_of(alloc: Global, short: &str) -> Result<Vec<u8>, AllocError> {
    let mut text = Vec::new(alloc);
    for letter in short.as_bytes() {
        push_line(&mut text, *letter)?;
    }
    Ok(text)
}
