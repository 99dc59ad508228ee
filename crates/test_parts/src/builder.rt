//! TeX's page builder, put together from the parts (TeX: The Program, §1000 to §1007).
ghost use Rattle.std.specs.Prelude.{◌≡◌, ◌+◌, ◌<◌, ◌^◌, nat_abs, IfSome};
ghost use Rattle.pg_list.specs.Ranges.{IsItemInRange};
ghost use Rattle.pg_list.specs.Shapes.{IsBlock};

use crate::say::say_word;
use itoa::Buffer;
use pg_breaks::break_cost;
use pg_list::{Block, Galley, Item, Place};
use pg_notes::NoteSums;
use pg_scaled::{plus, print_scaled};
use pg_style::Style;
use pg_sums::Sums;
use std::alloc::{AllocError, Global};

// What a break costs that makes the page over full, and one that leaves it badly filled.
const AWFUL: i64 = 1073741823;

const DEPLORABLE: i64 = 100000;

// The most blocks of a galley.
const ROOM: usize = 1024;

// A break at which a page may end, and what it costs.
#[derive(Clone, Copy, Drop)]
struct Best {
    block: u32,
    cost: i64,
}

impl Best {
    // Of breaks that cost the same the last is the best.
    fn meet(&mut self, block: u32, cost: i64) {
        if cost <= self.cost {
            self.block = block;
            self.cost = cost;
        }
    }
}

// What stands on a page at a break: the total, the room without the notes, the shrink, how badly the page is filled,
// None where it is over full, and whether there are notes of which the style does not tell what their skips give.
#[derive(Clone, Copy, Drop)]
struct Filling {
    total: i64,
    goal: i64,
    shrink: i64,
    badness: Option<u16>,
    has_notes: bool,
}

// TeX knows no end of a galley, so that no place is spent.
fn filling_of(sums: &Sums, notes: &NoteSums, style: &Style) -> Filling {
    let taken = notes.height(style);
    let goal = i64::from(style.height) - taken;
    let give = notes.give(style);
    let stretch = plus(sums.stretch(), give.stretch);
    let shrink = plus(sums.shrink(), give.shrink);
    let badness = if sums.total() >= goal && sums.total().saturating_sub(goal) > shrink {
        None
    } else {
        Some(sums.page_badness(goal, false, stretch, shrink))
    };
    Filling {
        total: sums.total(),
        goal,
        shrink,
        badness,
        has_notes: taken > 0 && style.version < 3,
    }
}

fn cost_of(badness: Option<u16>, penalty: i32) -> i64 {
    match badness {
        None => AWFUL,
        Some(_) if penalty <= -10000 => i64::from(penalty),
        Some(10000) => DEPLORABLE,
        Some(badness) => i64::from(badness) + i64::from(penalty),
    }
}

// Adds a length in points and a blank.
fn say_length(units: i64, out: &mut Vec<u8>) -> Result<(), AllocError> {
    print_scaled(i128::from(units), out)?;
    out.push(b' ')?;
    Ok(())
}

// Adds the shrink of a page, and `-` for one with notes of whose skips it is not told.
fn say_shrink(filling: &Filling, out: &mut Vec<u8>) -> Result<(), AllocError> {
    if filling.has_notes {
        out.extend_from_slice(b"- ")
    } else {
        say_length(filling.shrink, out)
    }
}

fn say_badness(filling: &Filling, out: &mut Vec<u8>) -> Result<(), AllocError> {
    match filling.badness {
        None => out.extend_from_slice(b"*"),
        Some(_) if filling.has_notes => out.extend_from_slice(b"-"),
        Some(badness) => say_word(b"", u64::from(badness), out),
    }
}

// Adds the line on a break.
fn say_break(filling: &Filling, penalty: i32, out: &mut Vec<u8>) -> Result<(), AllocError> {
    say_length(filling.total, out)?;
    say_length(filling.goal, out)?;
    say_shrink(filling, out)?;
    say_badness(filling, out)?;
    out.push(b' ')?;
    out.extend_from_slice(Buffer::new().format(penalty).as_bytes())?;
    out.push(b'\n')?;
    Ok(())
}

// The place in front of a block.
fn front_of(block: u32) -> Place {
    Place {
        block,
        variant: 0,
        index: 0,
    }
}

// The item of a block. None where it is a choice.
fn item_of(block: &Block) -> Option<&Item>
    requires { IsBlock block.now }
    ensures { IfSome result (λ item. IsItemInRange item.now) }
{
    match block {
        Block::One(item) => Some(item),
        Block::Choice(_) => None,
    }
}

// What stands on a page so far, and the best break on it.
#[derive(Clone, Copy, Drop)]
struct Begun {
    sums: Sums,
    notes: NoteSums,
    best: Best,
}

impl Begun {
    fn at(style: &Style, block: u32) -> Begun
        ensures sums { result.sums.count ≡ 0 }
        ensures notes { result.notes.count ≡ 0 }
    {
        Begun {
            sums: Sums::start(style.topskip, style.maxdepth),
            notes: NoteSums::start(),
            best: Best {
                block: block,
                cost: AWFUL,
            },
        }
    }

    fn take(&mut self, style: &Style, item: &Item)
        requires sums { self.old.sums.count < 2 ^ 20 }
        requires notes { self.old.notes.count < 2 ^ 20 }
        requires item { IsItemInRange item.now }
        ensures sums { self.new.sums.count ≡ self.old.sums.count + 1 }
        ensures notes { self.new.notes.count ≡ self.old.notes.count + 1 }
    {
        self.sums.add(item);
        self.notes.add(style, item);
    }

    // Adds what is said of a break in front of a block. Whether the page ends there at the latest.
    fn meet(
        &mut self,
        style: &Style,
        block: u32,
        penalty: i32,
        out: &mut Vec<u8>,
    ) -> Result<bool, AllocError>
        ensures sums { self.new.sums ≡ self.old.sums }
        ensures notes { self.new.notes ≡ self.old.notes }
    {
        let filling = filling_of(&self.sums, &self.notes, style);
        let cost = cost_of(filling.badness, penalty);
        say_break(&filling, penalty, out)?;
        self.best.meet(block, cost);
        Ok(cost == AWFUL || penalty <= -10000)
    }

    // The same, where there is a break behind the page's first box.
    fn look(
        &mut self,
        galley: &Galley,
        style: &Style,
        block: u32,
        out: &mut Vec<u8>,
    ) -> Result<bool, AllocError>
        ensures sums { self.new.sums ≡ self.old.sums }
        ensures notes { self.new.notes ≡ self.old.notes }
    {
        if !self.sums.has_box() {
            return Ok(false);
        }
        match break_cost(galley, front_of(block)) {
            Some(penalty) => self.meet(style, block, penalty, out),
            None => Ok(false),
        }
    }
}

// The block at which the page ends that starts at another, with what is said of the breaks behind its first box. The
// page on which the galley ends is ended behind it. None where no box is left.
fn build_page(
    galley: &Galley,
    style: &Style,
    start: u32,
    out: &mut Vec<u8>,
) -> Result<Option<u32>, AllocError> {
    let blocks = galley.blocks().as_slice();
    if start as usize > blocks.len() || blocks.len() > ROOM {
        return Ok(None);
    }
    let mut begun = Begun::at(style, start);
    let mut block = start;
    let mut rest = &blocks[start as usize..];
    'each: while let [first, after @ ..] = rest {
        if begun.look(galley, style, block, out)? {
            return Ok(Some(begun.best.block));
        }
        let Some(item) = item_of(first) else {
            return Ok(None);
        };
        begun.take(style, item);
        rest = after;
        block += 1;
    }
    Ok(if begun.sums.has_box() {
        Some(block)
    } else {
        None
    })
}

/// Adds what is said of all pages, and where they end: of each the block at which it starts and, for each break behind
/// its first box, the total, the goal, the shrink, the badness and the penalty. `*` is the badness of a page that is
/// over full; of a page with notes, before version 3 of the style, neither shrink nor badness is said.
pub fn build(
    alloc: Global,
    galley: &Galley,
    style: &Style,
    ends: &mut Vec<u32>,
    out: &mut Vec<u8>,
) -> Result<(), AllocError> {
    let mut start = 0;
    for _ in 0..ROOM {
        let mut page = Vec::new(alloc);
        let Some(end) = build_page(galley, style, start, &mut page)? else {
            return Ok(());
        };
        say_word(b"page ", u64::from(start), out)?;
        out.push(b'\n')?;
        out.extend_from_slice(&page)?;
        ends.push(end)?;
        start = end;
    }
    Ok(())
}
