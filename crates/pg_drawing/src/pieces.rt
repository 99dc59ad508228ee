//! Lines, cut at those of one kind.
ghost use Rattle.std.specs.Prelude.{◌≡◌, ◌≤◌, ◌<◌, ◌∷◌, [], length, IfSome};
ghost use Rattle.std.specs.Option.{option_map_or};
ghost use Rattle.pg_drawing.specs.Pieces.{begins as begins_so, cut, inside_count, texts, told, until};

use pg_scan::skip;

/// The kinds of lines at which a text is cut.
#[derive(Clone, Copy)]
pub enum Kind {
    /// The line of a page.
    Page,
    /// The line of a column.
    Column,
    /// The name of an area.
    Area,
    /// The first line of an item.
    Item,
}

/// A line of some kind, the lines behind it up to the next of its kind, and those from that one on.
pub type Piece<'a> = (&'a [u8], &'a [&'a [u8]], &'a [&'a [u8]]);

// Whether a line is of this kind.
fn begins(kind: Kind, line: &[u8]) -> bool
    ensures { result ≡ begins_so kind line.now }
{
    match kind {
        Kind::Page => skip(b"page ", line).is_some(),
        Kind::Column => skip(b"column ", line).is_some(),
        Kind::Area => skip(b"area ", line).is_some(),
        Kind::Item => skip(b".", line).is_some() && skip(b"..", line).is_none(),
    }
}

// How many lines stand before the first of this kind.
fn count_inside(kind: Kind, lines: &[&[u8]]) -> usize
    ensures count { result ≡ inside_count (begins_so kind) (texts lines.now) }
    ensures bound { result ≤ length lines.now }
{
    let mut count = 0;
    let mut rest = lines;
    'lines: while let [line, after @ ..] = rest {
        if begins(kind, *line) {
            return count;
        }
        count += 1;
        rest = after;
    }
    count
}

/// The lines before the first of this kind.
pub fn front<'a>(kind: Kind, lines: &'a [&'a [u8]]) -> &'a [&'a [u8]]
    ensures { texts result.now ≡ until (begins_so kind) (texts lines.now) }
{
    &lines[..count_inside(kind, lines)]
}

// The piece with this line in front.
fn piece_at<'a>(kind: Kind, head: &'a [u8], after: &'a [&'a [u8]]) -> Piece<'a>
    ensures head { result.0.now ≡ head.now }
    ensures rest { texts result.1.now ≡ until (begins_so kind) (texts after.now) }
    ensures behind { cut (begins_so kind) (texts result.2.now) ≡ cut (begins_so kind) (texts after.now) }
    ensures shorter { length result.2.now ≤ length after.now }
{
    let (rest, behind) = after.split_at(count_inside(kind, after));
    (head, rest, behind)
}

/// The piece at the first line of this kind.
pub fn next_piece<'a>(kind: Kind, lines: &'a [&'a [u8]]) -> Option<Piece<'a>>
    ensures piece { option_map_or (λ piece. told piece.0.now piece.1.now
        ∷ cut (begins_so kind) (texts piece.2.now)) result [] ≡ cut (begins_so kind) (texts lines.now) }
    ensures shorter { IfSome result (λ piece. length piece.2.now < length lines.now) }
{
    let mut ahead = lines;
    'lines: while let [head, after @ ..] = ahead {
        if begins(kind, *head) {
            return Some(piece_at(kind, *head, after));
        }
        ahead = after;
    }
    None
}
