//! What is drawn of one output text.
ghost use Rattle.std.specs.Prelude.{◌≡◌};
ghost use Rattle.pg_draw_page.specs.Names.{base_of};

use crate::letters::Lines;
use pg_drawing::{Drawing, DrawnPage};
use pg_labels::Output;
use pg_plan::Side;
use pg_style::Style;

/// What is drawn of one output text: the letter in front of the numbers of its pages where they are named, the name of
/// its file without folders, its drawing, what its text says, how many floats wait behind each page, a style where one is
/// given, the size and the distance of its lines, and how far apart its areas are drawn, in scaled points.
#[derive(Clone, Copy)]
pub struct View<'a> {
    pub letter: &'static str,
    pub name: &'a [u8],
    pub drawing: &'a Drawing,
    pub output: &'a Output,
    pub waiting: &'a [Option<usize>],
    pub style: Option<&'a Style>,
    pub lines: Lines,
    pub apart: i128,
}

/// The name of a file, without the folders that it is in.
pub fn base_name(name: &[u8]) -> &[u8]
    ensures { result.now ≡ base_of name.now }
{
    let mut base = name;
    let mut rest = name;
    'bytes: while let [first, after @ ..] = rest {
        if *first == b'/' {
            base = after;
        }
        rest = after;
    }
    base
}

/// Whether a page is of this side.
pub fn is_side(page: &DrawnPage, left: bool) -> bool {
    match page.head {
        Some(head) => match head.side {
            Side::L => left,
            Side::R => !left,
            Side::S => false,
        },
        None => false,
    }
}
