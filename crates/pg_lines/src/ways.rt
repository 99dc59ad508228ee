//! The least way of a number of lines.
ghost use Rattle.std.specs.Prelude.{◌≡◌, ◌≤◌, ◌<◌, ℕ, length, slice_get, Some, IfOk, IfSome, IfNone};
ghost use Rattle.pg_hlist.specs.Items.{IsPara};
ghost use Rattle.law_lines.specs.LineSpace.{IsLow, is_same_state, line_meaning, line_state};
ghost use Rattle.law_lines.specs.declared.state.LineState.{LineState as AState};
ghost use Rattle.pg_table.specs.Label.{IsTable};
ghost use Rattle.pg_table.specs.declared.table.Entry.{Entry as AnEntry};
ghost use Rattle.pg_lines.specs.Found.{IsFound, IsLabelAt, NoLabelAt};
ghost use Rattle.pg_lines.specs.Moves.{low_by};

use crate::line::LineSpace;
use crate::runs::moves_back;
use law_lines::LineState;
use pg_table::{Entry, Table};
use std::alloc::{AllocError, Global};

/// A way to break a paragraph: the places where its lines end, from the last line back, and its demerits.
#[derive(Drop)]
pub struct Way {
    pub ends: Vec<u32>,
    pub demerits: i128,
}

// Whether a label is at a place behind so many lines.
fn is_at(label: &Entry<LineState, u32>, place: u32, lines: u32) -> bool
    ensures { result ≡ is_same_state label.now.state (line_state place lines) }
{
    label.state.index == place && label.state.lines == lines
}

// The label at a place behind so many lines.
fn label_at(labels: &[Entry<LineState, u32>], place: u32, lines: u32) -> Option<usize>
    ensures some { IfSome result (IsLabelAt labels.now place lines) }
    ensures none { IfNone result (NoLabelAt labels.now place lines) }
{
    let mut index = 0usize;
    'labels: while index < labels.len() {
        if is_at(&labels[index], place, lines) {
            return Some(index);
        }
        index += 1;
    }
    None
}

// The cost of a label.
fn cost_at(labels: &[Entry<LineState, u32>], index: usize) -> i128
    requires { index < length labels.now }
    ensures { (e : AnEntry AState ℕ) → slice_get labels.now index ≡ Some e → result ≡ e.cost }
{
    labels[index].cost
}

/// The way of least demerits of a number of lines, the first among equals, that a filled table tells; None where no
/// legal way has so many. Of two ways the first is that with the smaller places, from the last line back.
pub fn least_way(
    alloc: Global,
    space: &LineSpace<'_>,
    table: &Table<LineState, u32, LineState>,
    lines: u32,
) -> Result<Option<Way>, AllocError>
    requires para { IsPara space.now.items.now }
    requires low { IsLow space.now.rule.now space.now.items.now
        (low_by (length space.now.items.now) space.now.low.now) }
    requires table { IsTable (line_meaning space.now.rule.now space.now.items.now
        (low_by (length space.now.items.now) space.now.low.now) space.now.most) table.now }
    requires some { 0 < lines }
    requires most { lines ≤ space.now.most }
    ensures { IfOk result (IsFound space.now.rule.now space.now.items.now lines) }
{
    let labels = table.labels();
    match label_at(labels, space.items.len() as u32, lines) {
        None => Ok(None),
        Some(index) => {
            let ends = moves_back(alloc, labels, index)?;
            let demerits = cost_at(labels, index);
            Ok(Some(Way { ends, demerits }))
        }
    }
}
