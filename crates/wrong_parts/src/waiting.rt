//! The list of floats, and the floats that wait.
ghost use Rattle.std.specs.Prelude.{◌≡◌, ◌↔◌, ◌<◌, None, Some, OnOk, OnErr, IfSome, IsNone, MatchResult, length, slice_index};
ghost use Rattle.pg_rules.specs.Floats.{distance_table};
ghost use Rattle.pg_floats.specs.AreFloats.{MakesList};
ghost use Rattle.pg_floats.specs.QueueValue.{IsOf, ages_before, late_of, turned, with_placed};

use pg_floats::{FloatFault, FloatList, Late, Queue};
use pg_list::Galley;
use pg_style::Style;
use std::alloc::Global;

/// The list of floats of a galley.
pub fn list_floats(alloc: Global, galley: &Galley, style: &Style) -> Result<FloatList, FloatFault>
    ensures { MakesList result galley.now.blocks style.now }
{
    FloatList::of(alloc, galley, style)
}

/// Places the first float of a class that waits.
pub fn place_float(queue: &mut Queue, style: &Style, slot: usize) -> Option<u32>
    requires slot { slot < length queue.old.waiting }
    requires of { IsOf style.now queue.old }
    ensures none { IsNone result ↔ (slice_index queue.old.waiting slot ≡ 0) }
    ensures entry { IfSome result (λ demerits. demerits
        ≡ slice_index (distance_table style.now slot) (slice_index queue.old.ages (ages_before queue.old slot))) }
    ensures placed { IfSome result (λ demerits. queue.new ≡ with_placed queue.old slot) }
    ensures same { IsNone result → queue.new ≡ queue.old }
    ensures of { IsOf style.now queue.new }
{
    queue.place(style, slot)
}

/// Ends a page, behind which each float that waits is one page older.
pub fn turn_page(queue: &mut Queue, style: &Style) -> Result<(), Late>
    ensures ok { OnOk result (queue.new ≡ turned queue.old) }
    ensures late { MatchResult result (λ done. late_of style.now queue.old ≡ None)
        (λ late. late_of style.now queue.old ≡ Some late) }
    ensures err { OnErr result (queue.new ≡ queue.old) }
    ensures of { IsOf style.now queue.old → IsOf style.now queue.new }
{
    queue.turn_page(style)
}
