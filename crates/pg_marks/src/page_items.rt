//! The items of a page.
ghost use Rattle.std.specs.Prelude.{◌≡◌, ◌++◌, IfOk};
ghost use Rattle.pg_column.specs.Between.{behind};
ghost use Rattle.pg_marks.specs.Fitting.{AreFitting};
ghost use Rattle.pg_marks.specs.Walked.{page_text};

use pg_column::push_text;
use pg_list::{Galley, Item};
use pg_plan::Page;
use std::alloc::{AllocError, Global};

/// The items of a page's columns, in order.
pub fn page_items<'a>(
    alloc: Global,
    galley: &'a Galley,
    page: &Page,
) -> Result<Vec<&'a Item>, AllocError>
    requires { AreFitting galley.now.blocks page.now }
    ensures { IfOk result (λ items. behind items.items ≡ page_text galley.now.blocks page.now) }
{
    let mut items = Vec::new(alloc);
    let mut rest = page.columns.as_slice();
    'columns: while let [column, after @ ..] = rest {
        push_text(galley, column, &mut items)?;
        rest = after;
    }
    Ok(items)
}
