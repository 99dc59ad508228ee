//! What is printed of the columns from a place.
ghost use Rattle.std.specs.List.{AllByRecursion};
ghost use Rattle.pg_walk.specs.Rooms.{IsAsked};

use crate::places::{Columns, is_place};
use anyhow::anyhow;
use pg_column::TextRoom;
use pg_list::Galley;
use pg_scaled::print_scaled;
use pg_style::Style;
use pg_walk::{End, ends_many, reach_of};
use std::alloc::Global;

// A scaled number in points.
fn points(alloc: Global, value: i64) -> anyhow::Result<String> {
    let mut text = Vec::new(alloc);
    print_scaled(i128::from(value), &mut text)?;
    match String::from_utf8(text) {
        Ok(text) => Ok(text),
        Err(_) => Err(anyhow!("a number is no text")),
    }
}

// Picks with commas between, or `-`.
fn picks_text(alloc: Global, picks: &[u32]) -> anyhow::Result<String> {
    let mut text = String::new(alloc);
    for pick in picks {
        if !text.is_empty() {
            text.push_str(",")?;
        }
        text.push_str(format!(in alloc; "{pick}")?.as_str())?;
    }
    if text.is_empty() {
        text.push_str("-")?;
    }
    Ok(text)
}

// The line of an end.
fn list_end(rt: &HostRuntime, end: &End) -> anyhow::Result<()> {
    let alloc = rt.alloc();
    let to = end.to;
    let cost = end.cost;
    let picks = picks_text(alloc, end.picks.as_slice())?;
    let goal = points(alloc, cost.goal)?;
    let total = points(alloc, cost.total)?;
    println!(rt;
        "to {} {} {} picks {} price {} fitness {}",
        to.block, to.variant, to.index, picks, end.pick_demerits, cost.fitness
    )?;
    println!(rt;
        "set goal {} total {} badness {} penalty {} demerits {}",
        goal, total, cost.badness, cost.penalty, cost.demerits
    )?;
    Ok(())
}

// The line of a room.
fn print_room(rt: &HostRuntime, room: &TextRoom) -> anyhow::Result<()> {
    let alloc = rt.alloc();
    let size = points(alloc, room.size)?;
    if room.give.stretch == 0 && room.give.shrink == 0 {
        println!(rt; "room {}", size)?;
        return Ok(());
    }
    let stretch = points(alloc, room.give.stretch)?;
    let shrink = points(alloc, room.give.shrink)?;
    println!(rt; "room {}+{}-{}", size, stretch, shrink)?;
    Ok(())
}

// The ends in a room.
fn list_room(rt: &HostRuntime, room: &TextRoom, ends: &[End]) -> anyhow::Result<()> {
    print_room(rt, room)?;
    for end in ends {
        list_end(rt, end)?;
    }
    Ok(())
}

/// Lists the reach of a place, and the ends of columns from it in each room.
pub fn list_from(
    rt: &HostRuntime,
    galley: &Galley,
    style: &Style,
    columns: &Columns,
) -> anyhow::Result<()>
    requires { AllByRecursion IsAsked columns.now.rooms.items }
{
    let from = columns.from;
    if !is_place(galley, from) {
        return Err(anyhow!("no such place"));
    }
    let reach = reach_of(rt.alloc(), galley, style, from)?;
    println!(rt;
        "from {} {} {} reach {}",
        from.block, from.variant, from.index, reach
    )?;
    let rooms = columns.rooms.as_slice();
    let lists = ends_many(rt.alloc(), galley, style, from, rooms)?;
    for (room, ends) in rooms.iter().zip(lists.as_slice()) {
        list_room(rt, room, ends.as_slice())?;
    }
    Ok(())
}
