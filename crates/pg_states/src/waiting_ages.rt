//! Ages of floats, in the order in which these are placed.
ghost use Rattle.std.specs.Prelude.{◌≡◌, ◌≤◌, ◌+◌, ◌*◌, ◌^◌, ◌++◌, true, nat_lt, take, drop, length, replicate, slice_index, pos, IfOk};
ghost use Rattle.pg_states.specs.Lines.{are_young, later, paid_by};

use pg_plan::Ages;
use std::alloc::AllocError;

/// The first ages.
pub fn front(ages: &[u8], count: usize) -> &[u8]
    ensures { result.now ≡ take count ages.now }
{
    match ages.get(..count) {
        Some(front) => front,
        None => ages,
    }
}

/// The ages behind the first ones.
pub fn behind(ages: &[u8], count: usize) -> &[u8]
    ensures { result.now ≡ drop count ages.now }
{
    match ages.get(count..) {
        Some(rest) => rest,
        None => &[],
    }
}

// Whether an age is below a limit so many pages later.
fn is_young(limit: usize, pages: u8, age: u8) -> bool
    ensures { result ≡ nat_lt (age + pages) limit }
{
    age as usize + (pages as usize) < limit
}

/// Adds ages that have so many pages more behind others. Answers whether each is then below a limit.
pub fn push_ages(limit: usize, pages: u8, ages: &[u8], left: &mut Ages) -> Result<bool, AllocError>
    requires { limit ≤ 9 }
    ensures young { IfOk result (λ young. young ≡ are_young limit pages ages.now) }
    ensures left { IfOk result (λ young. young ≡ true → left.new ≡ left.old ++ later pages ages.now) }
{
    let mut rest = ages;
    'ages: while let [age, after @ ..] = rest {
        if !is_young(limit, pages, *age) {
            return Ok(false);
        }
        left.push(*age + pages)?;
        rest = after;
    }
    Ok(true)
}

/// Does the same with so many ages of 0.
pub fn push_zeros(
    limit: usize,
    pages: u8,
    count: usize,
    left: &mut Ages,
) -> Result<bool, AllocError>
    ensures young { IfOk result (λ young. young ≡ are_young limit pages (replicate count 0)) }
    ensures left { IfOk result (λ young. young ≡ true → left.new ≡ left.old ++ later pages (replicate count 0)) }
{
    let mut zeros = count;
    'zeros: while zeros > 0 {
        if !is_young(limit, pages, 0) {
            return Ok(false);
        }
        left.push(pages)?;
        zeros -= 1;
    }
    Ok(true)
}

/// The entry of a table, and 0 where it has none.
pub fn price_at(table: &[u32], age: u8) -> u32
    ensures { result ≡ slice_index table.now age }
{
    match table.get(age as usize) {
        Some(price) => *price,
        None => 0,
    }
}

/// What floats of these ages pay together.
pub fn price_of(table: &[u32], ages: &[u8]) -> u128
    ensures value { pos result ≡ paid_by table.now ages.now }
    ensures small { result ≤ 2 ^ 32 * length ages.now }
{
    let mut price = 0u128;
    let mut rest = ages;
    'ages: while let [age, after @ ..] = rest {
        price += u128::from(price_at(table, *age));
        rest = after;
    }
    price
}
