//! Generated galleys.
ghost use Rattle.pg_make.specs.Generated.{MakesGalley};

use pg_list::Galley;
use pg_make::MakeFault;
use std::alloc::Global;

/// The galley of so many paragraphs.
pub fn make_galley(alloc: Global, count: u32) -> Result<Galley, MakeFault>
    ensures { MakesGalley count result }
{
    pg_make::make_galley(alloc, count)
}
