//! The pages of first fit.
ghost use Rattle.std.specs.Prelude.{◌≡◌, IfOk, IfErr, None};
ghost use Rattle.pg_greedy.specs.Faults.{Causes, greedy_fault};
ghost use Rattle.pg_greedy.specs.FirstFit.{IsFirstFit};

use pg_greedy::GreedyFault;
use pg_list::Galley;
use pg_plan::Pagination;
use pg_style::Style;
use std::alloc::Global;

/// Breaks a galley into pages as TeX's page builder does.
pub fn first_fit(alloc: Global, galley: &Galley, style: &Style) -> Result<Pagination, GreedyFault>
    ensures fit { IfOk result (λ plan. IsFirstFit galley.now style.now plan) }
    ensures none { IfOk result (λ plan. greedy_fault style.now galley.now.blocks ≡ None) }
    ensures cause { IfErr result (λ fault. Causes style.now galley.now.blocks fault) }
{
    pg_greedy::first_fit(alloc, galley, style)
}
