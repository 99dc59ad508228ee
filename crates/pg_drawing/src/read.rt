//! A page text, read into a drawing.
ghost use Rattle.std.specs.Prelude.{◌≡◌, ◌++◌, ◌∷◌, ◌<◌, ◌≤◌, ◌+◌, ◌^◌, ◌+ℤ◌, [], map, nat_abs, pos, IfOk, OnOk};
ghost use Rattle.pg_list.specs.Whole.{whole_sum_by};
ghost use Rattle.pg_scan.specs.Parts.{first_part, parts_of};
ghost use Rattle.pg_drawing.specs.Drawn.{area_of, areas_of, column_of, columns_of, drawing_of, drawn, item_extent, items_of, mark_at, marks_from, page_of, pages_of};
ghost use Rattle.pg_drawing.specs.Laws.{IsFaithfulDrawing};
ghost use Rattle.pg_drawing.specs.Pieces.{texts, told};

use crate::heads::{area_name, page_head, read_ends, read_head, read_numbers};
use crate::letters::read_letters;
use crate::model::{Drawing, DrawnArea, DrawnColumn, DrawnPage, Mark};
use crate::pieces::{Kind, front, next_piece};
use crate::series::Series;
use crate::shapes::{extent, lower, shape};
use pg_scan::split_part;
use std::alloc::{AllocError, Global};

// Items that are placed one below the other: their marks, and where the next one begins.
#[derive(Drop)]
struct Placing {
    marks: Series<Mark>,
    top: i128,
}

impl Placing {
    // One item more.
    fn add(&mut self, alloc: Global, head: &[u8], rest: &[&[u8]]) -> Result<(), AllocError>
        requires { nat_abs self.old.top ≤ 2 ^ 126 }
        ensures marks { OnOk result (self.new.marks
            ≡ self.old.marks ++ mark_at self.old.top (told head.now rest.now) ∷ []) }
        ensures top { OnOk result (self.new.top ≡ self.old.top +ℤ item_extent (told head.now rest.now)) }
        ensures size { OnOk result (nat_abs self.new.top ≤ nat_abs self.old.top + 2 ^ 60) }
    {
        let shape = shape(head);
        let words = read_letters(alloc, head, rest)?;
        self.marks.push(Mark {
            top: self.top,
            shape,
            words,
        })?;
        self.top = lower(&self.top, &extent(shape));
        Ok(())
    }
}

// The items among lines, placed from 0 on.
fn place<'a>(alloc: Global, lines: &'a [&'a [u8]]) -> Result<Placing, AllocError>
    ensures marks { IfOk result (λ placing. placing.marks ≡ marks_from (pos 0) (items_of (texts lines.now))) }
    ensures top { IfOk result (λ placing. placing.top ≡ whole_sum_by item_extent (items_of (texts lines.now))) }
{
    let mut placing = Placing {
        marks: Series::new(alloc),
        top: 0,
    };
    let mut next = next_piece(Kind::Item, lines);
    'items: while let Some((head, rest, behind)) = next {
        placing.add(alloc, head, rest)?;
        next = next_piece(Kind::Item, behind);
    }
    Ok(placing)
}

// An area.
fn read_area<'a>(alloc: Global, head: &[u8], rest: &'a [&'a [u8]]) -> Result<DrawnArea, AllocError>
    ensures { IfOk result (λ area. area ≡ area_of (told head.now rest.now)) }
{
    let placing = place(alloc, rest)?;
    Ok(DrawnArea {
        name: area_name(head),
        marks: placing.marks,
        height: placing.top,
    })
}

// The areas among lines.
fn read_areas<'a>(alloc: Global, lines: &'a [&'a [u8]]) -> Result<Series<DrawnArea>, AllocError>
    ensures { IfOk result (λ areas. areas ≡ areas_of (texts lines.now)) }
{
    let mut areas = Series::new(alloc);
    let mut next = next_piece(Kind::Area, lines);
    'areas: while let Some((head, rest, behind)) = next {
        let area = read_area(alloc, head, rest)?;
        areas.push(area)?;
        next = next_piece(Kind::Area, behind);
    }
    Ok(areas)
}

// The first of lines, or an empty one.
fn first_line<'a>(lines: &'a [&'a [u8]]) -> &'a [u8]
    ensures { result.now ≡ first_part (texts lines.now) }
{
    match lines {
        [line, ..] => *line,
        [] => &[],
    }
}

// A column.
fn read_column<'a>(
    alloc: Global,
    head: &[u8],
    rest: &'a [&'a [u8]],
) -> Result<DrawnColumn, AllocError>
    ensures { IfOk result (λ column. column ≡ column_of (told head.now rest.now)) }
{
    let numbers = read_numbers(alloc, first_line(rest))?;
    let areas = read_areas(alloc, rest)?;
    Ok(DrawnColumn {
        ends: read_ends(head),
        numbers,
        areas,
    })
}

// The columns among lines.
fn read_columns<'a>(alloc: Global, lines: &'a [&'a [u8]]) -> Result<Series<DrawnColumn>, AllocError>
    ensures { IfOk result (λ columns. columns ≡ columns_of (texts lines.now)) }
{
    let mut columns = Series::new(alloc);
    let mut next = next_piece(Kind::Column, lines);
    'columns: while let Some((head, rest, behind)) = next {
        let column = read_column(alloc, head, rest)?;
        columns.push(column)?;
        next = next_piece(Kind::Column, behind);
    }
    Ok(columns)
}

// A page.
fn read_page<'a>(alloc: Global, head: &[u8], rest: &'a [&'a [u8]]) -> Result<DrawnPage, AllocError>
    ensures { IfOk result (λ page. page ≡ page_of (told head.now rest.now)) }
{
    let wide = read_areas(alloc, front(Kind::Column, rest))?;
    let columns = read_columns(alloc, rest)?;
    Ok(DrawnPage {
        head: page_head(head),
        wide,
        columns,
    })
}

// The pages among lines.
fn read_pages<'a>(alloc: Global, lines: &'a [&'a [u8]]) -> Result<Series<DrawnPage>, AllocError>
    ensures { IfOk result (λ pages. pages ≡ pages_of (texts lines.now)) }
{
    let mut pages = Series::new(alloc);
    let mut next = next_piece(Kind::Page, lines);
    'pages: while let Some((head, rest, behind)) = next {
        let page = read_page(alloc, head, rest)?;
        pages.push(page)?;
        next = next_piece(Kind::Page, behind);
    }
    Ok(pages)
}

// The drawing of lines.
fn read_lines<'a>(alloc: Global, lines: &'a [&'a [u8]]) -> Result<Drawing, AllocError>
    ensures { IfOk result (λ drawing. drawing ≡ drawn (texts lines.now)) }
{
    let head = read_head(alloc, first_line(lines))?;
    let pages = read_pages(alloc, lines)?;
    Ok(Drawing { head, pages })
}

// The texts between line feeds.
fn split_lines<'a>(alloc: Global, text: &'a [u8]) -> Result<Vec<&'a [u8]>, AllocError>
    ensures { IfOk result (λ lines. texts lines.items ≡ parts_of 10 text.now) }
{
    let mut lines = Vec::new(alloc);
    let mut rest = Some(text);
    'lines: while let Some(left) = rest {
        let (line, behind) = split_part(b'\n', left);
        lines.push(line)?;
        rest = behind;
    }
    Ok(lines)
}

/// The drawing of a page text: of each page its columns, and of each area a mark for each item line, in order, from its
/// top on without gaps. It is the drawing of any bytes; what is no line of a page text has no part in it. The only
/// refusal is for want of memory.
pub fn read_drawing(alloc: Global, text: &[u8]) -> Result<Drawing, AllocError>
    ensures drawing { IfOk result (λ drawing. drawing ≡ drawing_of text.now) }
    ensures faithful { IfOk result IsFaithfulDrawing }
{
    let lines = split_lines(alloc, text)?;
    read_lines(alloc, lines.as_slice())
}
