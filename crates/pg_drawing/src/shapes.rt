//! What the first line of an item says.
ghost use Rattle.std.specs.Prelude.{◌≡◌, ◌≤◌, ◌+◌, ◌^◌, ◌+ℤ◌, nat_abs};
ghost use Rattle.std.specs.List.{prefix_len};
ghost use Rattle.pg_scan.specs.Parts.{first_part, parts_of, word_number};
ghost use Rattle.pg_drawing.specs.Shapes.{as_shape as as_shape_of, bare as bare_of, bare_at, behind_name, box_at, extent as extent_of, insert_at, insert_of as insert_from, later_at, named_glue_at, natural_at, or_bad_width, or_other, past_natural, rule_at, second_part, set_at, set_glue_at, shape_of, sized_at};
ghost use Rattle.pg_showbox.specs.Nodes.{glue_at, is_not_close, leaders_at, past_name};
ghost use Rattle.pg_showbox.specs.Parts.{Answers};

use crate::model::Shape;
use crate::widths::{length, width, within};
use pg_list::Order;
use pg_scan::{named, skip, skip_if, split_part, whole_word};
use pg_showbox::{
    ListKind, Node, expect, glue_node, kern_node, leaders_node, penalty_node, read_size,
};

// A box, behind its name.
#[tactic(auto, unfolding(crate::specs::Shapes::box_at))]
fn box_shape(bytes: &[u8]) -> Result<Shape, ListKind>
    ensures { result ≡ box_at bytes.now }
{
    let (height, plus) = read_size(expect(b"(", bytes)?)?;
    let (depth, close) = read_size(expect(b"+", plus)?)?;
    let (width, _) = read_size(expect(b")x", close)?)?;
    Ok(Shape::Box {
        height,
        depth,
        width,
    })
}

// A rule, behind its name.
#[tactic(auto, unfolding(crate::specs::Shapes::rule_at))]
fn rule_shape(bytes: &[u8]) -> Result<Shape, ListKind>
    ensures { result ≡ rule_at bytes.now }
{
    let (height, plus) = read_size(expect(b"(", bytes)?)?;
    let (depth, _) = read_size(expect(b"+", plus)?)?;
    Ok(Shape::Rule { height, depth })
}

// What stands behind the text in front of the size of an insert.
#[tactic(auto, unfolding(crate::specs::Shapes::past_natural))]
fn skip_natural(rest: &[u8]) -> Result<&[u8], ListKind>
    ensures { Answers (λ b. b.now) result (past_natural rest.now) }
{
    expect(b" natural size ", rest)
}

// The size of an insert.
#[tactic(auto, unfolding(crate::specs::Shapes::natural_at))]
fn natural(rest: &[u8]) -> Result<i32, ListKind>
    ensures { result ≡ natural_at rest.now }
{
    let (size, _) = read_size(skip_natural(rest)?)?;
    Ok(size)
}

// An insert of this size, where the text is its class.
fn insert_of(size: i32, bytes: &[u8]) -> Result<Shape, ListKind>
    ensures { result ≡ insert_from size (word_number 0 254 bytes.now) }
{
    match whole_word(0, 254, bytes) {
        Some(class) => Ok(Shape::Insert { class, size }),
        None => Err(ListKind::BadNumber),
    }
}

// An insert, behind its name.
fn insert_shape(bytes: &[u8]) -> Result<Shape, ListKind>
    ensures { result ≡ insert_at bytes.now }
{
    let (class, rest) = two_parts(bytes);
    let size = natural(rest)?;
    insert_of(size, class)
}

// A width that is said.
fn or_bad(width: Option<i128>) -> Result<i128, ListKind>
    ensures { result ≡ or_bad_width width }
{
    match width {
        Some(width) => Ok(width),
        None => Err(ListKind::BadNumber),
    }
}

// The width that glue is set to.
#[tactic(auto, unfolding(crate::specs::Shapes::set_at))]
fn set_width(own: i32, rest: &[u8]) -> Result<i128, ListKind>
    ensures { result ≡ set_at own rest.now }
{
    match skip(b" set ", rest) {
        Some(word) => or_bad(width(word)),
        None => Ok(i128::from(own)),
    }
}

// Glue, kerns and penalties as a galley has them, where this stands behind the numbers of glue.
fn as_shape(rest: &[u8], node: Node) -> Result<Shape, ListKind>
    ensures { result ≡ as_shape_of rest.now node }
{
    match node {
        Node::Glue {
            width,
            stretch,
            order,
            shrink,
        } => {
            let set = set_width(width, rest)?;
            Ok(Shape::Glue {
                own: i64::from(width),
                stretch,
                order,
                shrink,
                set,
            })
        }
        Node::Kern { width } => Ok(Shape::Kern { width }),
        Node::Penalty { value } => Ok(Shape::Penalty { value }),
        _ => Err(ListKind::UnknownNode),
    }
}

// Leaders, behind their name.
fn leaders_shape(bytes: &[u8]) -> Result<Shape, ListKind>
    ensures { result ≡ set_glue_at leaders_at bytes.now }
{
    let (numbers, rest) = two_parts(bytes);
    as_shape(rest, leaders_node(numbers)?)
}

// The length of the name in brackets.
fn name_len(bytes: &[u8]) -> usize
    ensures { result ≡ prefix_len is_not_close bytes.now }
{
    bytes.iter().take_while(|b| **b != b')').count()
}

// What stands behind a name, its bracket first.
#[tactic(auto, unfolding(pg_showbox::specs::Nodes::past_name))]
fn skip_name(bytes: &[u8]) -> &[u8]
    ensures { result.now ≡ past_name bytes.now }
{
    let (_, rest) = bytes.split_at(name_len(bytes));
    rest
}

// What stands behind a name in brackets, if there is one.
#[tactic(auto, unfolding(crate::specs::Shapes::behind_name))]
fn behind_brackets(bytes: &[u8]) -> &[u8]
    ensures { result.now ≡ behind_name bytes.now }
{
    match skip(b"(", bytes) {
        Some(name) => skip_if(b")", skip_name(name)),
        None => bytes,
    }
}

// Glue as a galley has it, with the width that it is set to.
fn set_glue(bytes: &[u8]) -> Result<Shape, ListKind>
    ensures { result ≡ set_glue_at glue_at bytes.now }
{
    let (numbers, rest) = two_parts(bytes);
    as_shape(rest, glue_node(numbers)?)
}

// Glue of this width and nothing else.
fn bare(own: Option<i64>) -> Result<Shape, ListKind>
    ensures { result ≡ bare_of own }
{
    match own {
        Some(own) => Ok(Shape::Glue {
            own,
            stretch: 0,
            order: Order::Finite,
            shrink: 0,
            set: i128::from(own),
        }),
        None => Err(ListKind::BadNumber),
    }
}

// Glue of one number alone.
#[tactic(auto, unfolding(crate::specs::Shapes::bare_at))]
fn bare_glue(bytes: &[u8]) -> Result<Shape, ListKind>
    ensures { result ≡ bare_at bytes.now }
{
    match skip(b" ", bytes) {
        Some(word) => bare(length(word)),
        None => Err(ListKind::UnknownNode),
    }
}

// Glue, behind its name.
#[tactic(auto, unfolding(crate::specs::Shapes::named_glue_at))]
fn named_glue(bytes: &[u8]) -> Result<Shape, ListKind>
    ensures { result ≡ named_glue_at bytes.now }
{
    match set_glue(bytes) {
        Ok(shape) => Ok(shape),
        Err(_) => bare_glue(bytes),
    }
}

// The later half of the names.
#[tactic(auto, unfolding(crate::specs::Shapes::later_at))]
fn later_shape(bytes: &[u8]) -> Result<Shape, ListKind>
    ensures { result ≡ later_at bytes.now }
{
    if let Some(text) = named(b"\\cleaders", bytes) {
        return leaders_shape(text);
    }
    if let Some(text) = named(b"\\xleaders", bytes) {
        return leaders_shape(text);
    }
    if let Some(text) = named(b"\\kern", bytes) {
        return as_shape(&[], kern_node(text)?);
    }
    if let Some(text) = named(b"\\penalty", bytes) {
        return as_shape(&[], penalty_node(text)?);
    }
    match named(b"\\insert", bytes) {
        Some(text) => insert_shape(text),
        None => Err(ListKind::UnknownNode),
    }
}

// What stands behind the point of an item line.
#[tactic(auto, unfolding(crate::specs::Shapes::sized_at))]
fn sized(bytes: &[u8]) -> Result<Shape, ListKind>
    ensures { result ≡ sized_at bytes.now }
{
    if let Some(text) = named(b"\\hbox", bytes) {
        return box_shape(text);
    }
    if let Some(text) = named(b"\\vbox", bytes) {
        return box_shape(text);
    }
    if let Some(text) = named(b"\\rule", bytes) {
        return rule_shape(text);
    }
    if let Some(text) = named(b"\\glue", bytes) {
        return named_glue(behind_brackets(text));
    }
    if let Some(text) = named(b"\\leaders", bytes) {
        return leaders_shape(text);
    }
    later_shape(bytes)
}

// The part in front of the first comma, and the part behind it.
fn two_parts(text: &[u8]) -> (&[u8], &[u8])
    ensures first { result.0.now ≡ first_part (parts_of 44 text.now) }
    ensures second { result.1.now ≡ second_part (parts_of 44 text.now) }
{
    let (first, behind) = split_part(b',', text);
    match behind {
        Some(rest) => (first, split_part(b',', rest).0),
        None => (first, &[]),
    }
}

fn behind_a_point(bytes: &[u8]) -> Shape
    ensures { result ≡ or_other (sized_at bytes.now) }
{
    match sized(bytes) {
        Ok(shape) => shape,
        Err(_) => Shape::Other,
    }
}

/// What the first line of an item says. Of a line that says no item it is `Other`.
#[tactic(auto, unfolding(crate::specs::Shapes::shape_of))]
pub fn shape(line: &[u8]) -> Shape
    ensures { result ≡ shape_of line.now }
{
    match skip(b".", line) {
        Some(bytes) => behind_a_point(bytes),
        None => Shape::Other,
    }
}

/// How much of a column an item takes: all of a box and of an insert, and glue as it is set, up to 2^60 units, which are
/// 2^44 points.
pub fn extent(shape: Shape) -> i64
    ensures value { result ≡ extent_of shape }
    ensures size { nat_abs result ≤ 2 ^ 60 }
{
    match shape {
        Shape::Box { height, depth, .. } => i64::from(height) + i64::from(depth),
        Shape::Rule { height, depth } => i64::from(height) + i64::from(depth),
        Shape::Glue { set, .. } => within(&set),
        Shape::Kern { width } => i64::from(width),
        Shape::Insert { size, .. } => i64::from(size),
        Shape::Penalty { .. } => 0,
        Shape::Other => 0,
    }
}

/// A height, so much further down.
pub fn lower(top: &i128, extent: &i64) -> i128
    requires high { nat_abs top.now ≤ 2 ^ 126 }
    requires small { nat_abs extent.now ≤ 2 ^ 63 }
    ensures value { result ≡ top.now +ℤ extent.now }
    ensures size { nat_abs result ≤ nat_abs top.now + nat_abs extent.now }
{
    *top + i128::from(*extent)
}
