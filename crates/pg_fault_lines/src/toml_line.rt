//! The line at which a text stops being TOML.
use std::alloc::{AllocError, Global};

/// Where a text stops being TOML, and why.
#[derive(Drop)]
pub struct TomlFault {
    pub line: u32,
    pub cause: Vec<u8>,
}

// The number of the line on which a byte stands.
fn line_number(text: &[u8], at: usize) -> u32 {
    let mut number: u32 = 1;
    for byte in text.iter().take(at) {
        if *byte == b'\n' {
            number = number.saturating_add(1);
        }
    }
    number
}

/// Where a text stops being TOML, and why; none where it does not, or where there is no memory to read it.
pub fn toml_fault(alloc: Global, text: &[u8]) -> Result<Option<TomlFault>, AllocError> {
    let Err(error) = toml::table_from_slice(alloc, text) else {
        return Ok(None);
    };
    match error.span() {
        Some(span) => {
            let cause = Vec::from_slice(alloc, error.message().as_bytes())?;
            Ok(Some(TomlFault {
                line: line_number(text, span.start),
                cause,
            }))
        }
        None => Ok(None),
    }
}
