//! The parts of the cost of columns.
ghost use Rattle.std.specs.Prelude.{◌≡◌, ◌<◌, ◌^◌, length, reverse, IfOk};
ghost use Rattle.pg_floats.specs.AreFloats.{AreFloats};
ghost use Rattle.pg_rules.specs.Legal.{document};
ghost use Rattle.law_columns.specs.Stands.{Stand};
ghost use Rattle.pg_parts.specs.Priced.{ArePriced, amounts};

use pg_floats::FloatList;
use pg_list::Galley;
use pg_parts::{Part, PricedColumn, Pricing};
use pg_plan::PageMove;
use pg_style::Style;
use std::alloc::{AllocError, Global};

/// What each column of a pagination adds to its cost, from the first to the last.
pub fn price_columns(
    alloc: Global,
    galley: &Galley,
    style: &Style,
    list: &FloatList,
    moves: &[PageMove],
) -> Result<Pricing, AllocError>
    requires floats { AreFloats galley.now.blocks style.now list.now }
    requires stand { Stand (document galley.now style.now) (reverse moves.now) }
    requires few { length moves.now < 2 ^ 31 }
    ensures { IfOk result (λ pricing.
        ArePriced (document galley.now style.now) (reverse moves.now) (reverse pricing.columns.items)) }
{
    pg_parts::price_columns(alloc, galley, style, list, moves)
}

/// What columns add to a part of the cost together.
pub fn sum_of(columns: &[PricedColumn], part: Part) -> i128
    requires { length columns.now < 2 ^ 31 }
    ensures { result ≡ amounts columns.now part }
{
    pg_parts::sum_of(columns, part)
}
