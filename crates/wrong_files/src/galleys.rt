//! Galleys: their texts, their choices, and edits of them.
ghost use Rattle.std.specs.Prelude.{◌≡◌, ◌↔◌, ◌<◌, ◌+◌, ◌-◌, ◌^◌, min, length, Err, IfOk, OnOk, OnErr};
ghost use Rattle.std.specs.List.{AllByRecursion};
ghost use Rattle.pg_list.specs.Counts.{item_count};
ghost use Rattle.pg_list.specs.Places.{spliced};
ghost use Rattle.pg_list.specs.Refusals.{IsLimit, IsRange};
ghost use Rattle.pg_list.specs.Shapes.{Chooses, IsWithinLimits};
ghost use Rattle.pg_list.specs.declared.galley.SpliceFault.TheVariants as SpliceFault;
ghost use Rattle.pg_showbox.specs.Nodes.{IsNodeInRange, glue_at};
ghost use Rattle.pg_showbox.specs.Reading.{Gives, galley_of};
ghost use Rattle.pg_showbox.specs.Shown.{IsShownBlock};

use pg_list::{Choice, Edit, Galley, ShapeFault, SpliceFault, Variant};
use pg_showbox::{ListFault, ListKind, Node, glue_node};
use std::alloc::Global;

/// The galley of a file.
pub fn read_galley(alloc: Global, text: &[u8], wrap: Option<u32>) -> Result<Galley, ListFault>
    requires { length text.now < 2 ^ 31 }
    ensures said { Gives (λ galley. galley) result (galley_of text.now wrap) }
    ensures shown { IfOk result (λ galley. AllByRecursion IsShownBlock galley.blocks) }
{
    pg_showbox::read_galley(alloc, text, wrap)
}

/// What a line of glue says, behind its point.
pub fn read_glue(bytes: &[u8]) -> Result<Node, ListKind>
    ensures value { result ≡ glue_at bytes.now }
    ensures range { IfOk result (λ node. IsNodeInRange node) }
{
    glue_node(bytes)
}

/// A choice of variants.
pub fn choose(variants: Vec<Variant>) -> Result<Choice, ShapeFault>
    requires { AllByRecursion IsWithinLimits variants.items }
    ensures { Chooses result variants.items }
{
    Choice::new(variants)
}

/// Edits a galley.
pub fn splice(galley: &mut Galley, edit: &Edit) -> Result<(), SpliceFault>
    ensures ok { OnOk result (galley.new ≡ record galley.old { blocks = spliced galley.old.blocks edit.now }) }
    ensures range { (result
        ≡ Err (SpliceFault.Range edit.now.at edit.now.gone (length galley.old.blocks))) ↔ (length galley.old.blocks < edit.now.at + edit.now.gone) }
    ensures only_range { IsRange result edit.now (length galley.old.blocks) }
    ensures limit { IsLimit result (min (item_count (spliced galley.old.blocks edit.now)) (2 ^ 32 - 1)) }
    ensures err { OnErr result (galley.new ≡ galley.old) }
{
    galley.splice(edit)
}
