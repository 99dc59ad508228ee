//! The numbers of a column of text.
ghost use Rattle.std.specs.Prelude.{◌≡◌, ◌≤◌, ◌^◌, ℕ, Some, length, true};
ghost use Rattle.std.specs.List.{AllByRecursion};
ghost use Rattle.pg_list.specs.Flat.{end_of, flat_items_at, is_same_place};
ghost use Rattle.pg_list.specs.Ranges.{IsItemInRange};
ghost use Rattle.pg_list.specs.Shapes.{IsBlock};
ghost use Rattle.pg_rules.specs.Follow.{KeepsColumnRules};
ghost use Rattle.pg_rules.specs.Legal.{document};
ghost use Rattle.pg_rules.specs.Room.{is_text, size_of};
ghost use Rattle.pg_column.specs.Between.{behind, items_to};
ghost use Rattle.pg_column.specs.Numbers.{AreNumbers, IsRoom, text_room};
ghost use Rattle.pg_pages.specs.Seated.{seated};
ghost use Rattle.pg_sums.specs.AreSums.{AreSums};
ghost use Rattle.pg_notes.specs.AreNotes.{AreNotes};

use crate::seats::Seat;
use pg_breaks::{break_cost, is_spent};
use pg_column::{TextCost, TextRoom, blocks_of, text_cost};
use pg_list::{Galley, Item};
use pg_notes::NoteSums;
use pg_plan::Column;
use pg_style::Style;
use pg_sums::Sums;

// What items add up to: their sums and their notes.
#[derive(Clone, Copy)]
struct Whole {
    sums: Sums,
    notes: NoteSums,
}

// Adds up items.
fn add_up(style: &Style, items: &[&Item]) -> Whole
    requires few { length items.now ≤ 2 ^ 20 }
    requires ranges { AllByRecursion IsItemInRange (behind items.now) }
    ensures sums { AreSums style.now.topskip style.now.maxdepth (behind items.now) result.sums }
    ensures notes { AreNotes style.now (behind items.now) result.notes }
{
    style.stays_in_range();
    let mut sums = Sums::start(style.topskip, style.maxdepth);
    let mut notes = NoteSums::start();
    let mut rest = items;
    'items: while let [item, after @ ..] = rest {
        sums.add(item);
        notes.add(style, item);
        rest = after;
    }
    Whole { sums, notes }
}

/// The numbers of a column of text that keeps the rules, from the items of its text.
pub fn numbers_of(
    galley: &Galley,
    style: &Style,
    seat: &Seat,
    column: &Column,
    room: &TextRoom,
    items: &[&Item],
) -> TextCost
    requires shape { AllByRecursion IsBlock galley.now.blocks }
    requires rules { KeepsColumnRules (seated (document galley.now style.now) seat.now column.now) }
    requires text { is_text (seated (document galley.now style.now) seat.now column.now) ≡ true }
    requires room { room.now ≡ text_room (seated (document galley.now style.now) seat.now column.now) }
    requires size { IsRoom room.now }
    requires items { behind items.now ≡ items_to (is_same_place column.now.to (end_of galley.now.blocks)) column.now.to
        (flat_items_at galley.now.blocks column.now.from column.now.picks) }
    ensures { (n : ℕ) → size_of (seated (document galley.now style.now) seat.now column.now) ≡ Some n →
        AreNumbers (seated (document galley.now style.now) seat.now column.now) n result }
{
    // the clauses alone speak of the seat
    let _ = seat;
    style.stays_in_range();
    let _blocks = blocks_of(galley);
    let whole = add_up(style, items);
    let is_spent = is_spent(galley, column.to);
    match break_cost(galley, column.to) {
        Some(penalty) => text_cost(style, room, &whole.sums, &whole.notes, is_spent, penalty),
        None => unreachable!(),
    }
}
