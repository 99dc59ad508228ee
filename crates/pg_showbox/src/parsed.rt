//! What a line says.
ghost use Rattle.std.specs.Prelude.{◌≡◌, IfOk};
ghost use Rattle.pg_showbox.specs.ParsedLine.{ends_cut, root_at, marker_at, variant_at, pointed_at, block_line, listing_line, galley_line, IsParsedInRange};

use crate::kinds::ListKind;
use crate::node::{Node, node_of};
use crate::numbers::read_whole;
use crate::parts::{expect, read_size, skip_size};
use pg_scan::skip;

/// What a line says: nothing outside of listings, the end of a listing, a root of this width, the
/// first line of an item, a barrier, a deeper line, or a marker of a choice.
#[derive(Clone, Copy, PartialEq, Eq)]
pub enum ParsedLine {
    Nothing,
    Blank,
    Root { width: i32 },
    Item { node: Node },
    Barrier,
    Deeper,
    ChoiceMark,
    VariantMark { looseness: i32, demerits: u32 },
    EndMark,
}

// The line ends in the sign that a list was cut.
fn is_cut(line: &[u8]) -> bool
    ensures { result ≡ ends_cut line.now }
{
    line.ends_with(b" []")
}

// A root, behind its first bracket.
#[tactic(auto, unfolding(crate::specs::ParsedLine::root_at))]
fn root(line: &[u8], sizes: &[u8]) -> Result<ParsedLine, ListKind>
    ensures value { result ≡ root_at line.now sizes.now }
    ensures range { IfOk result (λ parsed. IsParsedInRange parsed) }
{
    let plus = skip_size(sizes)?;
    let close = skip_size(expect(b"+", plus)?)?;
    let (width, _) = read_size(expect(b")x", close)?)?;
    if is_cut(line) {
        return Err(ListKind::Truncated);
    }
    Ok(ParsedLine::Root { width })
}

// The numbers of a variant marker, behind its name.
#[tactic(auto, unfolding(crate::specs::ParsedLine::variant_at))]
fn variant(bytes: &[u8]) -> Result<ParsedLine, ListKind>
    ensures value { result ≡ variant_at bytes.now }
    ensures range { IfOk result (λ parsed. IsParsedInRange parsed) }
{
    let (looseness, rest) = read_whole(-100, 100, bytes)?;
    let Some(rest) = skip(b" ", rest) else {
        return Err(ListKind::ChoiceShape);
    };
    let (demerits, rest) = read_whole(0, 100000000, rest)?;
    if rest != b"}".as_slice() {
        return Err(ListKind::ChoiceShape);
    }
    Ok(ParsedLine::VariantMark {
        looseness: looseness as i32,
        demerits: demerits as u32,
    })
}

// A marker, behind its front.
#[tactic(auto, unfolding(crate::specs::ParsedLine::marker_at))]
fn marker(bytes: &[u8]) -> Result<ParsedLine, ListKind>
    ensures value { result ≡ marker_at bytes.now }
    ensures range { IfOk result (λ parsed. IsParsedInRange parsed) }
{
    if bytes == b"choice}".as_slice() {
        return Ok(ParsedLine::ChoiceMark);
    }
    if bytes == b"end}".as_slice() {
        return Ok(ParsedLine::EndMark);
    }
    if bytes == b"flush}".as_slice() {
        return Ok(ParsedLine::Barrier);
    }
    match skip(b"variant ", bytes) {
        Some(rest) => variant(rest),
        None => Err(ListKind::ChoiceShape),
    }
}

// What a line says behind its first point.
#[tactic(auto, unfolding(crate::specs::ParsedLine::pointed_at))]
fn pointed(bytes: &[u8]) -> Result<ParsedLine, ListKind>
    ensures value { result ≡ pointed_at bytes.now }
    ensures range { IfOk result (λ parsed. IsParsedInRange parsed) }
{
    if skip(b".", bytes).is_some() {
        return Ok(ParsedLine::Deeper);
    }
    if let Some(rest) = skip(b"\\special{pg:", bytes) {
        return marker(rest);
    }
    let node = node_of(bytes)?;
    Ok(ParsedLine::Item { node })
}

/// What a line says where only items and markers may stand.
#[tactic(auto, unfolding(crate::specs::ParsedLine::block_line))]
pub fn parse_block_line(line: &[u8]) -> Result<ParsedLine, ListKind>
    ensures value { result ≡ block_line line.now }
    ensures range { IfOk result (λ parsed. IsParsedInRange parsed) }
{
    match skip(b".", line) {
        Some(bytes) => pointed(bytes),
        None => Err(ListKind::BadLine),
    }
}

// What a line says that is no root.
#[tactic(auto, unfolding(crate::specs::ParsedLine::listing_line))]
fn parse_listing_line(in_listing: bool, line: &[u8]) -> Result<ParsedLine, ListKind>
    ensures value { result ≡ listing_line in_listing line.now }
    ensures range { IfOk result (λ parsed. IsParsedInRange parsed) }
{
    if !in_listing {
        return Ok(ParsedLine::Nothing);
    }
    if line.is_empty() {
        return Ok(ParsedLine::Blank);
    }
    parse_block_line(line)
}

/// What a line of a galley file says, in a listing or outside.
#[tactic(auto, unfolding(crate::specs::ParsedLine::galley_line))]
pub fn parse_galley_line(in_listing: bool, line: &[u8]) -> Result<ParsedLine, ListKind>
    ensures value { result ≡ galley_line in_listing line.now }
    ensures range { IfOk result (λ parsed. IsParsedInRange parsed) }
{
    match skip(b"\\vbox(", line) {
        Some(sizes) => root(line, sizes),
        None => parse_listing_line(in_listing, line),
    }
}
