//! The floats that a column adds: whether they are called, how long they waited, and what that costs.
ghost use Rattle.std.specs.Prelude.{◌≡◌, ◌≤◌, ◌<◌, ◌+◌, ◌-◌, ◌*◌, ◌^◌, length, nat_lt, reverse, slice_get, IfSome};
ghost use Rattle.std.specs.List.{list_all, range_with_len};
ghost use Rattle.pg_list.specs.declared.galley.Place.{Place as APlace};
ghost use Rattle.pg_rules.specs.Floats.{distance_table, entry as entry_of};
ghost use Rattle.pg_rules.specs.History.{is_called as is_called_of};
ghost use Rattle.pg_judge.specs.Bases.{IsBasis, doc_of};
ghost use Rattle.pg_judge.specs.Waits.{is_slot_called as is_slot_called_of, price_of, prices_below, slot_price, waits_in};

use crate::basis::Basis;
use pg_floats::{entry, table_of};
use pg_list::Place;

// Whether a float is called before a place.
fn is_called(basis: &Basis, at: Place, slot: usize, number: u32) -> bool
    requires { IsBasis basis.now }
    ensures { result ≡ is_called_of (doc_of basis.now) at (slot, number) }
{
    number < basis.list.called(basis.galley, at, slot)
}

// Whether the floats of a slot that counts deal out are called before a place.
fn is_slot_called(basis: &Basis, to: Place, placed: &[u16], after: &[u16], slot: usize) -> bool
    requires { IsBasis basis.now }
    ensures { result ≡ is_slot_called_of (doc_of basis.now) to placed.now after.now slot }
{
    let end = entry(after, slot);
    end <= entry(placed, slot) || u32::from(end) <= basis.list.called(basis.galley, to, slot)
}

/// Whether all floats between two counts are called before a place.
pub fn are_called(basis: &Basis, slots: usize, to: Place, placed: &[u16], after: &[u16]) -> bool
    requires { IsBasis basis.now }
    ensures { result ≡ list_all (is_slot_called_of (doc_of basis.now) to placed.now after.now)
        (range_with_len 0 slots) }
{
    for slot in 0..slots {
        if !is_slot_called(basis, to, placed, after, slot) {
            return false;
        }
    }
    true
}

/// How many of the last pages ended behind the callout of a float, up to a limit.
pub fn pages_waited(basis: &Basis, turns: &[Place], slot: usize, number: u32, limit: usize) -> usize
    requires { IsBasis basis.now }
    ensures { result ≡ waits_in (λ (turn : APlace). is_called_of (doc_of basis.now) turn (slot, number))
        limit (reverse turns.now) }
{
    let mut rest = turns;
    let mut left = limit;
    'turns: while let [before @ .., turn] = rest {
        if left == 0 {
            return limit - left;
        }
        if !is_called(basis, *turn, slot, number) {
            return limit - left;
        }
        left -= 1;
        rest = before;
    }
    limit - left
}

fn entry_at(table: &[u32], at: usize) -> Option<u32>
    ensures { result ≡ slice_get table.now at }
{
    table.get(at).copied()
}

// What a float pays by the pages that it waited. None where its table does not go so far.
fn float_price(basis: &Basis, turns: &[Place], slot: usize, number: u32) -> Option<u32>
    requires { IsBasis basis.now }
    ensures { result ≡ price_of (doc_of basis.now) (reverse turns.now) (slot, number) }
{
    let table = table_of(basis.style, slot);
    let limit = table.len();
    entry_at(table, pages_waited(basis, turns, slot, number, limit))
}

// What the floats of a slot between two counts pay. None where one waited longer than its table goes.
fn price_in_slot(
    basis: &Basis,
    turns: &[Place],
    placed: &[u16],
    after: &[u16],
    slot: usize,
) -> Option<u64>
    requires { IsBasis basis.now }
    ensures price { result ≡ slot_price (doc_of basis.now) (reverse turns.now) placed.now after.now slot }
    ensures few { IfSome result (λ price. price < 2 ^ 48) }
{
    let first = entry(placed, slot);
    let count = entry(after, slot).saturating_sub(first);
    let mut sum = 0;
    for number in 0..count {
        let price = float_price(basis, turns, slot, u32::from(first) + u32::from(number))?;
        sum += u64::from(price);
    }
    Some(sum)
}

/// What the floats between two counts pay by the pages that they waited. None where one waited longer than its table
/// goes.
pub fn float_demerits(
    basis: &Basis,
    slots: usize,
    turns: &[Place],
    placed: &[u16],
    after: &[u16],
) -> Option<u64>
    requires list { IsBasis basis.now }
    requires few { slots ≤ 8 }
    ensures price { result ≡ prices_below
        (slot_price (doc_of basis.now) (reverse turns.now) placed.now after.now) slots }
    ensures few { IfSome result (λ price. price < 2 ^ 52) }
{
    let mut sum = 0;
    for slot in 0..slots {
        let price = price_in_slot(basis, turns, placed, after, slot)?;
        sum += price;
    }
    Some(sum)
}
