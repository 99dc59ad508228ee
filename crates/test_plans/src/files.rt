//! The files that words name, and what is written of them.
use crate::judging::verdicts;
use crate::printing::texts;
use pg_command::Ending;
use pg_list::Galley;
use pg_outside::{Shelf, Sink};
use pg_style::Style;
use std::alloc::{AllocError, Global};
use test_files::{Stop, fetch_file, floats_of, open_galley, open_style, plans_of};

// What is written of the paginations that the bytes of a file tell.
fn said_of<'a>(
    alloc: Global,
    is_print: bool,
    galley: &Galley,
    style: &Style,
    name: &'a str,
    bytes: &[u8],
) -> Result<Vec<u8>, Stop<'a>> {
    let floats = floats_of(alloc, galley, style)?;
    let plans = plans_of(alloc, name, bytes)?;
    let said: Result<Vec<u8>, AllocError> = if is_print {
        texts(alloc, galley, style, &floats, plans.as_slice())
    } else {
        verdicts(alloc, galley, style, &floats, plans.as_slice())
    };
    match said {
        Ok(said) => Ok(said),
        Err(_) => Err(Stop::Ends(Ending::Memory)),
    }
}

// The three files that are read together.
#[derive(Clone, Copy)]
struct Names<'a> {
    style: &'a str,
    galley: &'a str,
    plans: &'a str,
}

// Writes what is said of the paginations of a file, of a galley with a style.
fn say_files<'a, H: Shelf, O: Sink>(
    alloc: Global,
    wrap: Option<u32>,
    is_print: bool,
    names: Names<'a>,
    shelf: &mut H,
    out: &mut O,
) -> Result<(), Stop<'a>> {
    let style = open_style(alloc, names.style, shelf)?;
    let galley = open_galley(alloc, names.galley, wrap, shelf)?;
    let bytes = fetch_file(alloc, names.plans, shelf)?;
    let said = said_of(alloc, is_print, &galley, &style, names.plans, &bytes)?;
    match out.write(&said) {
        Ok(()) => Ok(()),
        Err(_) => Err(Stop::Ends(Ending::WriteFault)),
    }
}

// The width at which lines are joined, and the words behind it.
fn split_wrap(words: &[String]) -> Option<(Option<u32>, &[String])> {
    match words {
        [option, value, rest @ ..] if option.as_str() == "--wrap" => {
            let wrap = value.as_str().parse::<u32>().ok()?;
            Some((Some(wrap), rest))
        }
        _ => Some((None, words)),
    }
}

// Whether a word asks for page texts and not for verdicts. None where it asks for neither.
fn is_print_word(word: &str) -> Option<bool> {
    match word {
        "judge" => Some(false),
        "print" => Some(true),
        _ => None,
    }
}

/// Writes what is said of the paginations that words name.
pub fn say_all<'a, H: Shelf, O: Sink>(
    alloc: Global,
    words: &'a [String],
    shelf: &mut H,
    out: &mut O,
) -> Result<(), Stop<'a>> {
    let Some((wrap, files)) = split_wrap(words) else {
        return Err(Stop::Ends(Ending::Usage));
    };
    if files.is_empty() || files.len() % 4 != 0 {
        return Err(Stop::Ends(Ending::Usage));
    }
    let mut rest = files;
    while let [kind, style, galley, plans, after @ ..] = rest {
        let Some(is_print) = is_print_word(kind.as_str()) else {
            return Err(Stop::Ends(Ending::Usage));
        };
        let names = Names {
            style: style.as_str(),
            galley: galley.as_str(),
            plans: plans.as_str(),
        };
        say_files(alloc, wrap, is_print, names, shelf, out)?;
        rest = after;
    }
    Ok(())
}
