//! The files.
use crate::lists::list_from;
use crate::places::{Columns, columns_of};
use anyhow::anyhow;
use pg_list::Galley;
use pg_showbox::read_galley;
use pg_style::Style;
use pg_stylefile::read_style;
use std::fs;

// The most bytes of a galley's text.
const ROOM: usize = 67108864;

// The style of a file.
fn style_in(rt: &HostRuntime, name: &str) -> anyhow::Result<Style> {
    let text = fs::read(rt, name)?;
    match read_style(rt.alloc(), &text) {
        Ok(style) => Ok(style),
        Err(_) => Err(anyhow!("STYLE is no style")),
    }
}

// The galley of a file.
fn galley_in(rt: &HostRuntime, name: &str) -> anyhow::Result<Galley> {
    let text = fs::read(rt, name)?;
    if text.len() > ROOM {
        return Err(anyhow!("GALLEY is too long"));
    }
    match read_galley(rt.alloc(), &text, None) {
        Ok(galley) => Ok(galley),
        Err(_) => Err(anyhow!("GALLEY is no galley")),
    }
}

/// Lists the columns from each place of a file.
pub fn list_files(rt: &HostRuntime, style: &str, galley: &str, places: &str) -> anyhow::Result<()> {
    println!(rt; "{galley} under {style}")?;
    let style = style_in(rt, style)?;
    let galley = galley_in(rt, galley)?;
    let text = fs::read_to_string(rt, places)?;
    for line in text.lines() {
        let columns: Columns = columns_of(rt.alloc(), line)?;
        list_from(rt, &galley, &style, &columns)?;
    }
    Ok(())
}
