//! Ends in groups before which, and before whose barriers, the same floats are called.
ghost use Rattle.std.specs.Prelude.{◌≡◌, ◌≤◌, [], true, IfOk, OnOk, length, take};
ghost use Rattle.std.specs.List.{AllByRecursion};
ghost use Rattle.pg_candidates.specs.declared.room_end.RoomEnd.{RoomEnd as ARoomEnd};
ghost use Rattle.pg_rules.specs.Floats.{float_numbers};
ghost use Rattle.pg_sources.specs.Document.{before_of, doc_of};
ghost use Rattle.pg_rooms.specs.Calls.{AreCalls, IsLike};
ghost use Rattle.pg_rooms.specs.PlaceEnds.{AreGroups};

use crate::calls::{Call, Calls, first_from, is_same, like_beside, like_of};
use pg_candidates::RoomEnd;
use pg_list::Place;
use pg_plan::Counts;
use pg_sources::{Before, Sources};
use std::alloc::AllocError;

/// So many ends that follow one another, before each of which, and before whose barriers, so many floats of each class
/// are called.
#[derive(Drop)]
pub struct Group {
    pub before: Before,
    pub count: usize,
}

// How many of these ends from the first on have the same floats called before them as a place, by the place that each
// one's call names.
fn count_same(
    sources: &Sources<'_>,
    calls: &mut Calls,
    before: &Before,
    like: Place,
    ends: &[RoomEnd],
) -> Result<usize, AllocError>
    requires { before.now ≡ before_of (doc_of sources.now) like }
    ensures same { IfOk result (λ count. AreCalls (doc_of sources.now) calls.old.items.items →
        AllByRecursion (λ (end : ARoomEnd). IsLike (doc_of sources.now) like end.to) (take count ends.now)) }
    ensures calls { OnOk result (AreCalls (doc_of sources.now) calls.old.items.items →
        AreCalls (doc_of sources.now) calls.new.items.items) }
    ensures few { IfOk result (λ count. count ≤ length ends.now) }
{
    let mut count = 0;
    for end in ends {
        let its = like_beside(sources, calls, before, like, end.to)?;
        if !is_same(like, its) {
            return Ok(count);
        }
        count += 1;
    }
    Ok(count)
}

// Whether so many classes of floats are none, so that nothing is ever called.
fn has_no_class(slots: usize) -> bool
    ensures { result ≡ true → slots ≡ 0 }
{
    slots == 0
}

// All ends as one group, where the style has no class of floats. No group where there are no ends. Groups are kept in a list
// that has none yet.
fn group_all(
    sources: &Sources<'_>,
    ends: &[RoomEnd],
    none: Vec<Group>,
) -> Result<Vec<Group>, AllocError>
    requires classes { length (float_numbers sources.now.style.now) ≡ 0 }
    requires none { none.items ≡ [] }
    ensures { IfOk result (λ groups. AreGroups (doc_of sources.now) groups.items ends.now) }
{
    let mut groups = none;
    if ends.is_empty() {
        return Ok(groups);
    }
    let before = Before {
        called: Counts::new(sources.alloc),
        flushed: Counts::new(sources.alloc),
    };
    groups.push(Group {
        before,
        count: ends.len(),
    })?;
    Ok(groups)
}

// The first of calls in order that is not of a place before all of these ends.
fn first_call(calls: &[Call], ends: &[RoomEnd]) -> usize {
    match ends.first() {
        Some(end) => first_from(calls, &end.to),
        None => 0,
    }
}

/// Ends in groups: as many as follow one another with the same floats called before them are one. What is called before
/// them is kept, but where the style has no class of floats: all ends are then one group, and nothing is counted. Groups are
/// kept in a list that has none yet. The one refusal is want of memory.
pub(crate) fn group_ends(
    sources: &Sources<'_>,
    calls: &mut Calls,
    ends: &[RoomEnd],
    none: Vec<Group>,
) -> Result<Vec<Group>, AllocError>
    requires { none.items ≡ [] }
    ensures groups { IfOk result (λ groups. AreCalls (doc_of sources.now) calls.old.items.items →
        AreGroups (doc_of sources.now) groups.items ends.now) }
    ensures calls { OnOk result (AreCalls (doc_of sources.now) calls.old.items.items →
        AreCalls (doc_of sources.now) calls.new.items.items) }
{
    if has_no_class(sources.slots()) {
        return group_all(sources, ends, none);
    }
    let mut groups = none;
    let mut rest = ends;
    calls.at = first_call(calls.items.as_slice(), ends);
    'groups: while let [first, after @ ..] = rest {
        let like = like_of(sources, calls, first.to)?;
        let before = sources.before(like)?;
        let more = count_same(sources, calls, &before, like, after)?;
        groups.push(Group {
            before,
            count: more + 1,
        })?;
        rest = &after[more..];
    }
    Ok(groups)
}
