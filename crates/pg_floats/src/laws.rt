//! A queue of a style's classes stays one, and counts what happened to it.
ghost use Rattle.std.specs.Prelude.{◌<◌, ℕ, List, length, slice_index};
ghost use Rattle.pg_style.specs.Ranges.{AreClasses};
ghost use Rattle.pg_style.specs.Values.{StyleValue};
ghost use Rattle.pg_floats.specs.History.{CountsHistory, Event, Leads};
ghost use Rattle.pg_floats.specs.QueueValue.{IsOf, IsQueue, QueueValue, with_callout, with_placed};

/// Behind a callout, and behind the placing of a float that waits, no float has waited too long if none had before.
pub fn queues_stay_young()
    ensures callout { (style : StyleValue) (queue : QueueValue) (slot : ℕ) → AreClasses style.classes → IsQueue queue →
        IsOf style queue → slot < length queue.waiting → IsOf style (with_callout queue slot) }
    ensures placed { (style : StyleValue) (queue : QueueValue) (slot : ℕ) → IsQueue queue → IsOf style queue →
        slot < length queue.waiting → 0 < slice_index queue.waiting slot → IsOf style (with_placed queue slot) }
{}

/// After any callouts, placings of floats that wait, and ends of pages, a queue holds what counting from its first
/// value on gives: of each class the floats placed then and since, and the ages of those that wait, which are the
/// floats that waited at first and those called since without as many as were placed, the first called first. The age
/// of a float is the number of pages that ended since its callout, added to its first age where it waited at first.
pub fn queues_count_history()
    ensures { (first last : QueueValue) (events : List Event) (slot : ℕ) → IsQueue first → Leads first events last →
        slot < length first.waiting → CountsHistory first events last slot }
{}
