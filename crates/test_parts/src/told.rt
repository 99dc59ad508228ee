//! What is said of a style, or of the fault of a text.
use crate::say::{say_number, say_points, say_word};
use pg_style::{Area, Class, First, Gap, Kind, Style};
use pg_stylefile::{StyleFault, StyleKind, read_style};
use std::alloc::{AllocError, Global};

// The number of a fault and its key. Want of memory is none of a text.
fn say_fault(fault: &StyleFault, out: &mut Vec<u8>) -> Result<(), AllocError> {
    if let StyleKind::Memory = fault.kind {
        return Err(AllocError);
    }
    say_number(u64::from(fault.kind.number()), out)?;
    out.extend_from_slice(b" at ")?;
    out.extend_from_slice(fault.key.as_slice())
}

fn first_word(first: First) -> &'static [u8] {
    match first {
        First::Left => b" first left",
        First::Right => b" first right",
        First::Single => b" first single",
    }
}

fn area_word(area: Area) -> &'static [u8] {
    match area {
        Area::Top => b" float top",
        Area::Bottom => b" float bottom",
        Area::Both => b" float both",
        Area::Wide => b" float wide",
    }
}

// A gap, with what it gives, if it gives anything.
fn say_gap(gap: &Gap, out: &mut Vec<u8>) -> Result<(), AllocError> {
    say_points(gap.size, out)?;
    if gap.stretch != 0 {
        out.extend_from_slice(b" plus ")?;
        say_points(gap.stretch, out)?;
    }
    if gap.shrink != 0 {
        out.extend_from_slice(b" minus ")?;
        say_points(gap.shrink, out)?;
    }
    Ok(())
}

// A note's skip and limit.
fn say_note(skip: &Gap, limit: i32, out: &mut Vec<u8>) -> Result<(), AllocError> {
    out.extend_from_slice(b" note ")?;
    say_gap(skip, out)?;
    out.push(b' ')?;
    say_points(limit, out)
}

// A float's area, and the entries of its distance table.
fn say_float(area: Area, entries: &[u32], out: &mut Vec<u8>) -> Result<(), AllocError> {
    out.extend_from_slice(area_word(area))?;
    for entry in entries {
        say_word(b" ", u64::from(*entry), out)?;
    }
    Ok(())
}

fn say_slot(slot: Option<usize>, out: &mut Vec<u8>) -> Result<(), AllocError> {
    match slot {
        Some(slot) => say_word(b" slot ", slot as u64, out)?,
        None => out.extend_from_slice(b" without a slot")?,
    }
    out.push(b'\n')?;
    Ok(())
}

// The line of a class.
fn say_class(style: &Style, class: &Class, out: &mut Vec<u8>) -> Result<(), AllocError> {
    say_word(b"class ", u64::from(class.number), out)?;
    match &class.kind {
        Kind::Note { skip, limit } => say_note(skip, *limit, out)?,
        Kind::Float { area, distance } => say_float(*area, distance.as_slice(), out)?,
    }
    say_slot(style.float_slot(class.number), out)
}

// The line of a style.
fn say_head(style: &Style, out: &mut Vec<u8>) -> Result<(), AllocError> {
    say_word(b"version ", u64::from(style.version), out)?;
    say_word(b" columns ", u64::from(style.columns), out)?;
    out.extend_from_slice(first_word(style.first))?;
    out.extend_from_slice(b" height ")?;
    say_points(style.height, out)?;
    say_word(b" runs ", style.runs.as_slice().len() as u64, out)?;
    say_word(b" fitness ", u64::from(style.fitness), out)?;
    if let Some(foot) = style.ragged {
        out.extend_from_slice(b" ragged ")?;
        say_points(foot, out)?;
    }
    out.push(b'\n')?;
    Ok(())
}

// The line of a style, and one for each class.
fn say_values(style: &Style, out: &mut Vec<u8>) -> Result<(), AllocError> {
    say_head(style, out)?;
    for class in style.classes.as_slice() {
        say_class(style, class, out)?;
    }
    Ok(())
}

/// Adds what is said of the text of a file of this name.
pub fn say_style(
    alloc: Global,
    name: &str,
    text: &[u8],
    out: &mut Vec<u8>,
) -> Result<(), AllocError> {
    out.extend_from_slice(name.as_bytes())?;
    out.extend_from_slice(b": ")?;
    match read_style(alloc, text) {
        Ok(style) => say_values(&style, out)?,
        Err(fault) => {
            say_fault(&fault, out)?;
            out.push(b'\n')?;
        }
    }
    Ok(())
}

/// Adds the number of a text's fault and its key, or that it is a style.
pub fn say_verdict(alloc: Global, text: &[u8], out: &mut Vec<u8>) -> Result<(), AllocError> {
    match read_style(alloc, text) {
        Ok(_) => out.extend_from_slice(b"a style"),
        Err(fault) => say_fault(&fault, out),
    }
}
