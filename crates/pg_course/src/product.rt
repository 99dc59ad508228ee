//! What a command makes of a galley.
ghost use Rattle.std.specs.Prelude.{◌≡◌, ◌<◌, ◌^◌, ◌∷◌, [], length};
ghost use Rattle.pg_outside.specs.Outside.{over_output};
ghost use Rattle.pg_session.specs.Shows.{AreCounted, show_of};
ghost use Rattle.pg_command.specs.Lines.{status_of};
ghost use Rattle.pg_course.specs.Calls.{Writes};
ghost use Rattle.pg_course.specs.Counted.{UnlessMemory, made_shows};
ghost use Rattle.pg_course.specs.Course.{MakesGalley};
ghost use Rattle.pg_course.specs.Products.{IsProduct};

use crate::compare::write_comparison;
use crate::fold::write_sheets;
use crate::heads::write_heads;
use crate::run::write_shown;
use pg_command::Ending;
use pg_outside::Sink;
use pg_plan::Pagination;
use pg_session::Session;
use pg_table::Steps;
use std::alloc::Global;
use std::sync::ledger::Ledger;

/// What is written for a galley that is taken.
#[derive(Clone, Copy)]
pub enum Product {
    /// Its best pages, and where `labels` is true the labels of the search behind them.
    Pages { labels: bool },
    /// The running heads of its best pages, and its references to pages.
    Heads,
    /// First fit beside the best pages.
    Comparison,
    /// The sheets on which its best pages are printed, each folded 1 to 4 times, 1 to 16 put into each other.
    Sheets { folds: u8, nest: u8 },
}

/// How many pages there are.
pub fn page_count(plan: &Pagination) -> u32
    requires { length plan.now.pages < 2 ^ 32 }
    ensures { result ≡ length plan.now.pages }
{
    plan.pages.as_slice().len() as u32
}

/// Writes what is made of the galley of a session as it stands, in one piece, and answers how that ends the run.
pub fn write_product<'a, O: Sink, L: Ledger>(
    alloc: Global,
    session: &mut Session,
    product: Product,
    out: &mut O,
    steps: &mut Steps<L>,
) -> Ending<'a>
    requires { IsProduct product }
    ensures writes { Writes (MakesGalley product session.old.style session.old.galley)
        (over_output O.written O.writes O.faults out.old out.new) result }
    ensures counted { UnlessMemory (status_of result)
        (AreCounted session.old.style
        (made_shows product session.old.style session.old.galley (show_of session.old ∷ [])) steps.old steps.new) }
{
    match product {
        Product::Pages { labels } => write_shown(alloc, session, labels, out, steps),
        Product::Heads => write_heads(alloc, session, out, steps),
        Product::Comparison => write_comparison(alloc, session, out, steps),
        Product::Sheets { folds, nest } => write_sheets(alloc, session, folds, nest, out, steps),
    }
}
