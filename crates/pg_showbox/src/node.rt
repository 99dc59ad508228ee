//! What an item line says.
ghost use Rattle.std.specs.Prelude.{◌≡◌, IfOk, pos, ◌≤ℤ◌};
ghost use Rattle.pg_list.specs.Ranges.{IsItemInRange};
ghost use Rattle.pg_scaled.specs.Ranges.{IsScaled};
ghost use Rattle.pg_showbox.specs.Nodes.{IsNodeInRange, node_item};
ghost use Rattle.std.specs.List.{prefix_len};
ghost use Rattle.pg_showbox.specs.Nodes.{box_at, rule_at, amount_at, stretch_at, shrink_at, ends_glue, glue_text_at, past_name, glue_at, leaders_at, kern_at, penalty_at, insert_at, past_natural, natural_at, carry_or_unknown, node_at, later_node_at, is_not_close};
ghost use Rattle.pg_showbox.specs.Parts.{Answers};

use crate::kinds::ListKind;
use crate::numbers::{read_class, read_whole};
use crate::parts::{expect, read_fixed_size, read_order, read_size, skip_width};
use pg_list::{Bytes, Item, Order};
use pg_scan::{letter_first, named, skip, skip_if};

/// What the first line of an item says: its kind and its numbers, in scaled points.
#[derive(Clone, Copy, PartialEq, Eq)]
pub enum Node {
    Box {
        height: i32,
        depth: i32,
    },
    Rule {
        height: i32,
        depth: i32,
    },
    Glue {
        width: i32,
        stretch: i32,
        order: Order,
        shrink: i32,
    },
    Kern {
        width: i32,
    },
    Penalty {
        value: i32,
    },
    Insert {
        class: u8,
        size: i32,
    },
    Carry,
}

/// The item with these numbers and this body.
pub fn item_from(node: Node, body: Bytes) -> Item
    requires { IsNodeInRange node }
    ensures item { result ≡ node_item node body }
    ensures range { IsItemInRange result }
{
    match node {
        Node::Box { height, depth } => Item::BoxItem {
            height,
            depth,
            body,
        },
        Node::Rule { height, depth } => Item::Rule {
            height,
            depth,
            body,
        },
        Node::Glue {
            width,
            stretch,
            order,
            shrink,
        } => Item::Glue {
            width,
            stretch,
            order,
            shrink,
            body,
        },
        Node::Kern { width } => Item::Kern { width, body },
        Node::Penalty { value } => Item::Penalty { value, body },
        Node::Insert { class, size } => Item::Insert { class, size, body },
        Node::Carry => Item::Carry { body },
    }
}

// A box, behind its name.
#[tactic(auto, unfolding(crate::specs::Nodes::box_at))]
fn box_node(bytes: &[u8]) -> Result<Node, ListKind>
    ensures value { result ≡ box_at bytes.now }
    ensures range { IfOk result (λ node. IsNodeInRange node) }
{
    let (height, plus) = read_size(expect(b"(", bytes)?)?;
    let (depth, close) = read_size(expect(b"+", plus)?)?;
    read_size(expect(b")x", close)?)?;
    Ok(Node::Box { height, depth })
}

// A rule, behind its name.
#[tactic(auto, unfolding(crate::specs::Nodes::rule_at))]
fn rule_node(bytes: &[u8]) -> Result<Node, ListKind>
    ensures value { result ≡ rule_at bytes.now }
    ensures range { IfOk result (λ node. IsNodeInRange node) }
{
    let (height, plus) = read_fixed_size(expect(b"(", bytes)?)?;
    let (depth, close) = read_fixed_size(expect(b"+", plus)?)?;
    skip_width(expect(b")x", close)?)?;
    Ok(Node::Rule { height, depth })
}

// A number and its order of infinity.
#[tactic(auto, unfolding(crate::specs::Nodes::amount_at))]
fn amount(bytes: &[u8]) -> Result<((i32, Order), &[u8]), ListKind>
    ensures value { Answers (λ x. (x.0, x.1.now)) result (amount_at bytes.now) }
    ensures range { IfOk result (λ x. IsScaled x.0.0) }
{
    let (value, rest) = read_size(bytes)?;
    let (order, rest) = read_order(rest);
    Ok(((value, order), rest))
}

// The stretch of a glue, if it has one.
#[tactic(auto, unfolding(crate::specs::Nodes::stretch_at))]
fn stretch(bytes: &[u8]) -> Result<((i32, Order), &[u8]), ListKind>
    ensures value { Answers (λ x. (x.0, x.1.now)) result (stretch_at bytes.now) }
    ensures range { IfOk result (λ x. IsScaled x.0.0) }
{
    match skip(b" plus ", bytes) {
        Some(rest) => amount(rest),
        None => Ok(((0, Order::Finite), bytes)),
    }
}

// The shrink of a glue, if it has one.
#[tactic(auto, unfolding(crate::specs::Nodes::shrink_at))]
fn shrink(bytes: &[u8]) -> Result<(i32, &[u8]), ListKind>
    ensures value { Answers (λ x. (x.0, x.1.now)) result (shrink_at bytes.now) }
    ensures range { IfOk result (λ x. IsScaled x.0) }
{
    match skip(b" minus ", bytes) {
        Some(rest) => match amount(rest)? {
            ((value, Order::Finite), rest) => Ok((value, rest)),
            _ => Err(ListKind::InfiniteShrink),
        },
        None => Ok((0, bytes)),
    }
}

// Nothing follows a glue text, but for the sign that a leader was cut.
fn is_end(is_leader: bool, bytes: &[u8]) -> bool
    ensures { result ≡ ends_glue is_leader bytes.now }
{
    bytes.is_empty() || is_leader && bytes == b" []".as_slice()
}

// A width with stretch and shrink, and the end of the line.
#[tactic(auto, unfolding(crate::specs::Nodes::glue_text_at))]
fn glue_text(is_leader: bool, bytes: &[u8]) -> Result<Node, ListKind>
    ensures value { result ≡ glue_text_at is_leader bytes.now }
    ensures range { IfOk result (λ node. IsNodeInRange node) }
{
    let (width, rest) = read_size(bytes)?;
    let ((stretch, order), rest) = stretch(rest)?;
    let (shrink, rest) = shrink(rest)?;
    if !is_end(is_leader, rest) {
        return Err(ListKind::BadLine);
    }
    Ok(Node::Glue {
        width,
        stretch,
        order,
        shrink,
    })
}

// What stands behind a name, its bracket first.
#[tactic(auto, unfolding(crate::specs::Nodes::past_name))]
fn skip_name(bytes: &[u8]) -> &[u8]
    ensures { result.now ≡ past_name bytes.now }
{
    let (_, rest) = bytes.split_at(name_len(bytes));
    rest
}

// The length of the name in brackets.
fn name_len(bytes: &[u8]) -> usize
    ensures { result ≡ prefix_len is_not_close bytes.now }
{
    bytes.iter().take_while(|b| **b != b')').count()
}

/// What a glue says behind its name, or its leftmost fault.
#[tactic(auto, unfolding(crate::specs::Nodes::glue_at))]
pub fn glue_node(bytes: &[u8]) -> Result<Node, ListKind>
    ensures value { result ≡ glue_at bytes.now }
    ensures range { IfOk result (λ node. IsNodeInRange node) }
{
    match skip(b"(", bytes) {
        Some(rest) => glue_text(false, expect(b") ", skip_name(rest))?),
        None => glue_text(false, expect(b" ", bytes)?),
    }
}

/// What leaders say behind their name, or their leftmost fault.
#[tactic(auto, unfolding(crate::specs::Nodes::leaders_at))]
pub fn leaders_node(bytes: &[u8]) -> Result<Node, ListKind>
    ensures value { result ≡ leaders_at bytes.now }
    ensures range { IfOk result (λ node. IsNodeInRange node) }
{
    glue_text(true, expect(b" ", bytes)?)
}

/// What a kern says behind its name, or its leftmost fault.
#[tactic(auto, unfolding(crate::specs::Nodes::kern_at))]
pub fn kern_node(bytes: &[u8]) -> Result<Node, ListKind>
    ensures value { result ≡ kern_at bytes.now }
    ensures range { IfOk result (λ node. IsNodeInRange node) }
{
    let (width, _) = read_size(skip_if(b" ", bytes))?;
    Ok(Node::Kern { width })
}

/// What a penalty says behind its name, or its leftmost fault.
#[tactic(auto, unfolding(crate::specs::Nodes::penalty_at))]
pub fn penalty_node(bytes: &[u8]) -> Result<Node, ListKind>
    ensures value { result ≡ penalty_at bytes.now }
    ensures range { IfOk result (λ node. IsNodeInRange node) }
{
    let (value, _) = read_whole(-2147483648, 2147483647, expect(b" ", bytes)?)?;
    Ok(Node::Penalty {
        value: value as i32,
    })
}

// What stands behind the text before the size of an insert.
#[tactic(auto, unfolding(crate::specs::Nodes::past_natural))]
fn skip_natural(bytes: &[u8]) -> Result<&[u8], ListKind>
    ensures { Answers (λ b. b.now) result (past_natural bytes.now) }
{
    expect(b", natural size ", bytes)
}

// The size of an insert.
#[tactic(auto, unfolding(crate::specs::Nodes::natural_at))]
fn natural(bytes: &[u8]) -> Result<i32, ListKind>
    ensures value { result ≡ natural_at bytes.now }
    ensures range { IfOk result (λ size. IsScaled size × (pos 0 ≤ℤ size)) }
{
    let (size, _) = read_size(bytes)?;
    if size < 0 {
        return Err(ListKind::NegativeSize);
    }
    Ok(size)
}

// An insert, behind its name.
#[tactic(auto, unfolding(crate::specs::Nodes::insert_at))]
fn insert_node(bytes: &[u8]) -> Result<Node, ListKind>
    ensures value { result ≡ insert_at bytes.now }
    ensures range { IfOk result (λ node. IsNodeInRange node) }
{
    let (class, rest) = read_class(bytes)?;
    let size = natural(skip_natural(rest)?)?;
    Ok(Node::Insert { class, size })
}

// A node that no other name fits: it is carried where it has a name at all.
#[tactic(auto, unfolding(crate::specs::Nodes::carry_or_unknown))]
fn carry(bytes: &[u8]) -> Result<Node, ListKind>
    ensures value { result ≡ carry_or_unknown bytes.now }
    ensures range { IfOk result (λ node. IsNodeInRange node) }
{
    if bytes == b"etc.".as_slice() {
        return Err(ListKind::Truncated);
    }
    if skip(b"\\unsetbox(", bytes).is_some() {
        return Err(ListKind::UnknownNode);
    }
    match skip(b"\\", bytes) {
        Some(rest) => {
            if letter_first(rest) {
                Ok(Node::Carry)
            } else {
                Err(ListKind::UnknownNode)
            }
        }
        None => Err(ListKind::UnknownNode),
    }
}

// The later half of the names.
#[tactic(auto, unfolding(crate::specs::Nodes::later_node_at))]
fn later_node(bytes: &[u8]) -> Result<Node, ListKind>
    ensures value { result ≡ later_node_at bytes.now }
    ensures range { IfOk result (λ node. IsNodeInRange node) }
{
    if let Some(rest) = named(b"\\cleaders", bytes) {
        return leaders_node(rest);
    }
    if let Some(rest) = named(b"\\xleaders", bytes) {
        return leaders_node(rest);
    }
    if let Some(rest) = named(b"\\kern", bytes) {
        return kern_node(rest);
    }
    if let Some(rest) = named(b"\\penalty", bytes) {
        return penalty_node(rest);
    }
    if let Some(rest) = named(b"\\insert", bytes) {
        return insert_node(rest);
    }
    carry(bytes)
}

/// What the first line of an item says behind its point, or its leftmost fault.
#[tactic(auto, unfolding(crate::specs::Nodes::node_at))]
pub fn node_of(bytes: &[u8]) -> Result<Node, ListKind>
    ensures value { result ≡ node_at bytes.now }
    ensures range { IfOk result (λ node. IsNodeInRange node) }
{
    if let Some(rest) = named(b"\\hbox", bytes) {
        return box_node(rest);
    }
    if let Some(rest) = named(b"\\vbox", bytes) {
        return box_node(rest);
    }
    if let Some(rest) = named(b"\\rule", bytes) {
        return rule_node(rest);
    }
    if let Some(rest) = named(b"\\glue", bytes) {
        return glue_node(rest);
    }
    if let Some(rest) = named(b"\\leaders", bytes) {
        return leaders_node(rest);
    }
    later_node(bytes)
}
