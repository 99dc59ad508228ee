//! What columns add to a part together.
ghost use Rattle.std.specs.Prelude.{◌≡◌, ◌≤◌, ◌<◌, ◌*◌, ◌^◌, length, nat_abs};
ghost use Rattle.pg_parts.specs.Priced.{amounts};

use crate::part::Part;
use crate::priced::PricedColumn;
use pg_scaled::large_plus;

/// What columns add to a part of the cost together.
pub fn sum_of(columns: &[PricedColumn], part: Part) -> i128
    requires { length columns.now < 2 ^ 31 }
    ensures { result ≡ amounts columns.now part }
{
    let mut sum = 0;
    let mut rest = columns;
    'columns: while let [column, after @ ..] = rest {
        sum = large_plus(sum, column.amount(part));
        rest = after;
    }
    sum
}
