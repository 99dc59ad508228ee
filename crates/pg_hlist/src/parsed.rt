//! What a line says.
ghost use Rattle.std.specs.Prelude.{◌≡◌, IfOk};
ghost use Rattle.pg_showbox.specs.ParsedLine.{ends_cut};
ghost use Rattle.pg_hlist.specs.ParsedLine.{inside_line, line_parsed, outside_line, pointed_at, root_at, IsParsedInRange};

use crate::item::ParaLine;
use crate::node::node_of;
use pg_scan::skip;
use pg_showbox::{ListKind, expect, skip_size};

// The line ends in the sign that a list was cut.
fn is_cut(line: &[u8]) -> bool
    ensures { result ≡ ends_cut line.now }
{
    line.ends_with(b" []")
}

// A root, behind its first bracket.
#[tactic(auto, unfolding(crate::specs::ParsedLine::root_at))]
fn root(line: &[u8], sizes: &[u8]) -> Result<ParaLine, ListKind>
    ensures value { result ≡ root_at line.now sizes.now }
    ensures range { IfOk result (λ parsed. IsParsedInRange parsed) }
{
    let plus = skip_size(sizes)?;
    let close = skip_size(expect(b"+", plus)?)?;
    skip_size(expect(b")x", close)?)?;
    if is_cut(line) {
        return Err(ListKind::Truncated);
    }
    Ok(ParaLine::Root)
}

// What a line outside of paragraphs says.
#[tactic(auto, unfolding(crate::specs::ParsedLine::outside_line))]
fn parse_outside(line: &[u8]) -> Result<ParaLine, ListKind>
    ensures value { result ≡ outside_line line.now }
    ensures range { IfOk result (λ parsed. IsParsedInRange parsed) }
{
    match skip(b"\\hbox(", line) {
        Some(sizes) => root(line, sizes),
        None => Ok(ParaLine::Nothing),
    }
}

// What a line says behind its first point.
#[tactic(auto, unfolding(crate::specs::ParsedLine::pointed_at))]
fn pointed(bytes: &[u8]) -> Result<ParaLine, ListKind>
    ensures value { result ≡ pointed_at bytes.now }
    ensures range { IfOk result (λ parsed. IsParsedInRange parsed) }
{
    if skip(b".", bytes).is_some() {
        return Ok(ParaLine::Deeper);
    }
    let node = node_of(bytes)?;
    Ok(ParaLine::Item { node })
}

// What a line of a paragraph says.
#[tactic(auto, unfolding(crate::specs::ParsedLine::inside_line))]
fn parse_inside(line: &[u8]) -> Result<ParaLine, ListKind>
    ensures value { result ≡ inside_line line.now }
    ensures range { IfOk result (λ parsed. IsParsedInRange parsed) }
{
    if line.is_empty() {
        return Ok(ParaLine::Blank);
    }
    match skip(b".", line) {
        Some(bytes) => pointed(bytes),
        None => Err(ListKind::BadLine),
    }
}

/// What a line of a file of paragraphs says, inside a paragraph or outside.
#[tactic(auto, unfolding(crate::specs::ParsedLine::line_parsed))]
pub fn parse_line(inside: bool, line: &[u8]) -> Result<ParaLine, ListKind>
    ensures value { result ≡ line_parsed inside line.now }
    ensures range { IfOk result (λ parsed. IsParsedInRange parsed) }
{
    if inside {
        parse_inside(line)
    } else {
        parse_outside(line)
    }
}
