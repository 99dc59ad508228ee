//! What an item line says.
ghost use Rattle.std.specs.Prelude.{◌≡◌, IfOk};
ghost use Rattle.pg_hlist.specs.Items.{IsInRange, IsNodeInRange, node_item};
ghost use Rattle.pg_hlist.specs.Nodes.{as_node, box_at, later_node_at, node_at, shared_at, unknown};
ghost use Rattle.pg_showbox.specs.Nodes.{IsNodeInRange as IsShownInRange};

use crate::item::{HItem, HNode};
use pg_list::Bytes;
use pg_scan::named;
use pg_showbox::{
    ListKind, Node, expect, glue_node, kern_node, leaders_node, penalty_node, read_size,
};

/// The item with these numbers and this body.
pub fn item_from(node: HNode, body: Bytes) -> HItem
    requires { IsNodeInRange node }
    ensures item { result ≡ node_item node body }
    ensures range { IsInRange result }
{
    match node {
        HNode::Box {
            width,
            height,
            depth,
        } => HItem::BoxItem {
            width,
            height,
            depth,
            body,
        },
        HNode::Glue {
            width,
            stretch,
            order,
            shrink,
        } => HItem::Glue {
            width,
            stretch,
            order,
            shrink,
            body,
        },
        HNode::Kern { width } => HItem::Kern { width, body },
        HNode::Penalty { value } => HItem::Penalty { value, body },
    }
}

// A box, behind its name.
#[tactic(auto, unfolding(crate::specs::Nodes::box_at))]
fn box_node(bytes: &[u8]) -> Result<HNode, ListKind>
    ensures value { result ≡ box_at bytes.now }
    ensures range { IfOk result (λ node. IsNodeInRange node) }
{
    let (height, plus) = read_size(expect(b"(", bytes)?)?;
    let (depth, close) = read_size(expect(b"+", plus)?)?;
    let (width, _) = read_size(expect(b")x", close)?)?;
    Ok(HNode::Box {
        width,
        height,
        depth,
    })
}

// Glue, kerns and penalties as a galley has them.
fn shared(node: Node) -> Result<HNode, ListKind>
    requires { IsShownInRange node }
    ensures value { result ≡ as_node node }
    ensures range { IfOk result (λ node. IsNodeInRange node) }
{
    match node {
        Node::Glue {
            width,
            stretch,
            order,
            shrink,
        } => Ok(HNode::Glue {
            width,
            stretch,
            order,
            shrink,
        }),
        Node::Kern { width } => Ok(HNode::Kern { width }),
        Node::Penalty { value } => Ok(HNode::Penalty { value }),
        _ => Err(ListKind::UnknownNode),
    }
}

// Any other node.
fn strange_node(bytes: &[u8]) -> Result<HNode, ListKind>
    ensures value { result ≡ unknown bytes.now }
    ensures range { IfOk result (λ node. IsNodeInRange node) }
{
    if bytes == b"etc.".as_slice() {
        return Err(ListKind::Truncated);
    }
    Err(ListKind::UnknownNode)
}

// The later half of the names.
#[tactic(auto, unfolding(crate::specs::Nodes::later_node_at))]
fn later_node(bytes: &[u8]) -> Result<HNode, ListKind>
    ensures value { result ≡ later_node_at bytes.now }
    ensures range { IfOk result (λ node. IsNodeInRange node) }
{
    if let Some(rest) = named(b"\\cleaders", bytes) {
        return shared(leaders_node(rest)?);
    }
    if let Some(rest) = named(b"\\xleaders", bytes) {
        return shared(leaders_node(rest)?);
    }
    if let Some(rest) = named(b"\\kern", bytes) {
        return shared(kern_node(rest)?);
    }
    if let Some(rest) = named(b"\\penalty", bytes) {
        return shared(penalty_node(rest)?);
    }
    strange_node(bytes)
}

/// What the first line of an item says behind its point, or its leftmost fault.
#[tactic(auto, unfolding(crate::specs::Nodes::node_at))]
pub fn node_of(bytes: &[u8]) -> Result<HNode, ListKind>
    ensures value { result ≡ node_at bytes.now }
    ensures range { IfOk result (λ node. IsNodeInRange node) }
{
    if let Some(rest) = named(b"\\hbox", bytes) {
        return box_node(rest);
    }
    if let Some(rest) = named(b"\\vbox", bytes) {
        return box_node(rest);
    }
    if let Some(rest) = named(b"\\glue", bytes) {
        return shared(glue_node(rest)?);
    }
    if let Some(rest) = named(b"\\leaders", bytes) {
        return shared(leaders_node(rest)?);
    }
    later_node(bytes)
}
