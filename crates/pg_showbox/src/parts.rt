//! Parts of a line of the notation.
ghost use Rattle.std.specs.Prelude.{◌≡◌, IfOk};
ghost use Rattle.pg_scaled.specs.Ranges.{IsScaled};
ghost use Rattle.pg_showbox.specs.Parts.{due as due_said, size_at, past_size, fixed_size, past_width, order_at, Answers};

use crate::kinds::ListKind;
use pg_list::Order;
use pg_scaled::{Front, read_scaled};
use pg_scan::skip;

/// What stands behind a fixed text that is due: `BadLine` comes exactly where it is not there.
#[tactic(auto, unfolding(crate::specs::Parts::due))]
pub fn expect<'a>(text: &[u8], bytes: &'a [u8]) -> Result<&'a [u8], ListKind>
    ensures { Answers (λ b. b.now) result (due_said text.now bytes.now) }
{
    match skip(text, bytes) {
        Some(rest) => Ok(rest),
        None => Err(ListKind::BadLine),
    }
}

/// A scaled number, in units of 1/65536 pt, and what stands behind it. `BadNumber` comes where none
/// stands there, `OutOfRange` where its size is 2^30 units or more.
#[tactic(auto, unfolding(crate::specs::Parts::size_at))]
pub fn read_size(bytes: &[u8]) -> Result<(i32, &[u8]), ListKind>
    ensures value { Answers (λ x. (x.0, x.1.now)) result (size_at bytes.now) }
    ensures range { IfOk result (λ x. IsScaled x.0) }
{
    match read_scaled(bytes) {
        Front::Value { value, len } => Ok((value, &bytes[len..])),
        Front::NotNumber => Err(ListKind::BadNumber),
        Front::TooLarge { .. } => Err(ListKind::OutOfRange),
    }
}

/// What stands behind a scaled number of any size.
#[tactic(auto, unfolding(crate::specs::Parts::past_size))]
pub fn skip_size(bytes: &[u8]) -> Result<&[u8], ListKind>
    ensures { Answers (λ b. b.now) result (past_size bytes.now) }
{
    match read_scaled(bytes) {
        Front::Value { len, .. } | Front::TooLarge { len } => Ok(&bytes[len..]),
        Front::NotNumber => Err(ListKind::BadNumber),
    }
}

/// The height or the depth of a rule, which may not be `*`.
#[tactic(auto, unfolding(crate::specs::Parts::fixed_size))]
pub fn read_fixed_size(bytes: &[u8]) -> Result<(i32, &[u8]), ListKind>
    ensures value { Answers (λ x. (x.0, x.1.now)) result (fixed_size bytes.now) }
    ensures range { IfOk result (λ x. IsScaled x.0) }
{
    match bytes {
        [] => Err(ListKind::BadNumber),
        [b'*', ..] => Err(ListKind::RunningSize),
        _ => read_size(bytes),
    }
}

/// What stands behind the width of a rule, which is a number or `*`.
#[tactic(auto, unfolding(crate::specs::Parts::past_width))]
pub fn skip_width(bytes: &[u8]) -> Result<&[u8], ListKind>
    ensures { Answers (λ b. b.now) result (past_width bytes.now) }
{
    match bytes {
        [] => Err(ListKind::BadNumber),
        [b'*', rest @ ..] => Ok(rest),
        _ => {
            let (_, rest) = read_size(bytes)?;
            Ok(rest)
        }
    }
}

/// The order of infinity behind a number, and what stands behind it.
#[tactic(auto, unfolding(crate::specs::Parts::order_at))]
pub fn read_order(bytes: &[u8]) -> (Order, &[u8])
    ensures order { result.0 ≡ (order_at bytes.now).0 }
    ensures rest { result.1.now ≡ (order_at bytes.now).1 }
{
    if let Some(rest) = skip(b"filll", bytes) {
        return (Order::Filll, rest);
    }
    if let Some(rest) = skip(b"fill", bytes) {
        return (Order::Fill, rest);
    }
    if let Some(rest) = skip(b"fil", bytes) {
        return (Order::Fil, rest);
    }
    (Order::Finite, bytes)
}
