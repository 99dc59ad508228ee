//! The columns of text from a place.
ghost use Rattle.std.specs.Prelude.{IfOk};
ghost use Rattle.pg_rules.specs.IsState.{IsPlace};
ghost use Rattle.pg_rules.specs.Legal.{document};
ghost use Rattle.pg_rules.specs.Reach.{IsReach};

use pg_list::{Galley, Place};
use pg_style::Style;
use std::alloc::{AllocError, Global};

/// How far columns of text from a place may go.
pub fn reach_of(
    alloc: Global,
    galley: &Galley,
    style: &Style,
    from: Place,
) -> Result<u32, AllocError>
    requires { IsPlace galley.now.blocks from }
    ensures { IfOk result (IsReach (document galley.now style.now) from) }
{
    pg_walk::reach_of(alloc, galley, style, from)
}
