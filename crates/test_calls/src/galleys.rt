//! Galleys of lines.
ghost use Rattle.pg_list.specs.Shapes.{IsBlock};

use pg_list::{Block, Blocks, Bytes, Item, Order};
use std::alloc::{AllocError, Global};

pub const POINT: i32 = 65536;

// A line of 7 points over a depth of 2.
fn line(alloc: Global) -> Block
    ensures { IsBlock result }
{
    Block::One(Item::BoxItem {
        height: 7 * POINT,
        depth: 2 * POINT,
        body: Bytes::new(Vec::new(alloc)),
    })
}

// 3 points between two lines.
fn gap(alloc: Global) -> Block
    ensures { IsBlock result }
{
    Block::One(Item::Glue {
        width: 3 * POINT,
        stretch: 0,
        order: Order::Finite,
        shrink: 0,
        body: Bytes::new(Vec::new(alloc)),
    })
}

/// One line, and more with gaps between.
pub fn lines(alloc: Global, more: u32) -> Result<Blocks, AllocError> {
    let mut blocks = Blocks::new(alloc);
    blocks.push(line(alloc))?;
    for _ in 0..more {
        blocks.push(gap(alloc))?;
        blocks.push(line(alloc))?;
    }
    Ok(blocks)
}
