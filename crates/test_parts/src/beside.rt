//! The pages of TeX, and those of first fit beside them.
//!
//! A page of TeX is a line with the block at which it starts, and a line for each break behind its first box that TeX
//! looked at. Behind the pages a line has the blocks at which TeX ended them, the next those at which `first_fit` ends
//! its pages, and the third whether these are the same.
//!
//! The documents are a story set by plain TeX (TeX Live 2022) in six measures, one after another, with a page's end
//! forced behind each; and LaTeX's two sample documents, in the longer of which one page has a footnote. Their listings
//! stand in data/ without what stands within the lines. Of the samples the last page is left out, which LaTeX added to
//! those of the galley, and so are the breaks in front of a page's first box, at the glue that TeX puts above it, and
//! those at what LaTeX put behind the galley to end its last page. LaTeX gives the space above the footnote some stretch
//! and shrink, which a style has not: behind the footnote shrink and badness are `-` here, and the badness that TeX told
//! is a fact of proofs/Badness.
use crate::builder::build;
use crate::say::{say_word, unless_memory};
use pg_command::Ending;
use pg_greedy::{GreedyFault, first_fit};
use pg_list::Galley;
use pg_outside::Shelf;
use pg_plan::{Page, Pagination};
use pg_style::Style;
use std::alloc::{AllocError, Global};
use test_files::{open_galley, open_style};

// Adds a line of the blocks at which pages end.
fn say_ends(name: &[u8], ends: &[u32], out: &mut Vec<u8>) -> Result<(), AllocError> {
    out.extend_from_slice(name)?;
    for end in ends {
        say_word(b" ", u64::from(*end), out)?;
    }
    out.push(b'\n')?;
    Ok(())
}

// Adds the blocks at which the columns of a page end.
fn push_ends(page: &Page, ends: &mut Vec<u32>) -> Result<(), AllocError> {
    for column in page.columns.as_slice() {
        ends.push(column.to.block)?;
    }
    Ok(())
}

// The blocks at which pages end that have one column each.
fn ends_of(alloc: Global, plan: &Pagination) -> Result<Vec<u32>, AllocError> {
    let mut ends = Vec::new(alloc);
    for page in plan.pages.as_slice() {
        push_ends(page, &mut ends)?;
    }
    Ok(ends)
}

// Adds where the pages of TeX end, where those of first fit do, and whether that is the same.
fn say_both(built: &[u32], fitted: &[u32], out: &mut Vec<u8>) -> Result<(), AllocError> {
    say_ends(b"TeX", built, out)?;
    say_ends(b"first fit", fitted, out)?;
    if built == fitted {
        out.extend_from_slice(b"the same\n")
    } else {
        out.extend_from_slice(b"not the same\n")
    }
}

// What is said of the pages of a galley.
fn said_of(alloc: Global, galley: &Galley, style: &Style) -> Result<Vec<u8>, AllocError> {
    let mut built = Vec::new(alloc);
    let mut out = Vec::new(alloc);
    build(alloc, galley, style, &mut built, &mut out)?;
    match first_fit(alloc, galley, style) {
        Ok(plan) => {
            let fitted = ends_of(alloc, &plan)?;
            say_both(&built, &fitted, &mut out)?;
        }
        Err(GreedyFault::Memory) => return Err(AllocError),
        Err(_) => out.extend_from_slice(b"no first fit\n")?,
    }
    Ok(out)
}

/// What is said of the pages of a galley with a style, in these files.
pub fn say_pages<'a, H: Shelf>(
    alloc: Global,
    galley: &'a str,
    style: &'a str,
    shelf: &mut H,
) -> Result<Vec<u8>, Ending<'a>> {
    let style = open_style(alloc, style, shelf)?;
    let galley = open_galley(alloc, galley, None, shelf)?;
    unless_memory(said_of(alloc, &galley, &style))
}
