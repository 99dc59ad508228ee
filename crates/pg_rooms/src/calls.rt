//! What is called before the places at which columns end, and before the barriers in front of them, worked out once for
//! each of them.
ghost use Rattle.std.specs.Prelude.{◌≡◌, ◌≤◌, [], length, true, Contains, IfOk, IfSome, OnOk};
ghost use Rattle.pg_rules.specs.Room.{Document};
ghost use Rattle.pg_sources.specs.Document.{before_of, doc_of};
ghost use Rattle.pg_rooms.specs.Calls.{AreCalls, IsLike};

use pg_list::Place;
use pg_plan::compare_places;
use pg_sources::{Before, Sources};
use std::alloc::{AllocError, Global};
use std::cmp::Ordering;

/// A place, and one before which the same floats are called, also before the last barrier. Neighbours with the same
/// floats before them share it.
#[derive(Clone, Copy)]
pub struct Call {
    pub at: Place,
    pub like: Place,
}

/// Calls of places in order, and from which of them on the next place is looked for.
#[derive(Drop)]
pub struct Calls {
    pub items: Vec<Call>,
    pub at: usize,
}

impl Calls {
    /// No calls. No memory is taken.
    pub fn none(alloc: Global) -> Calls
        ensures { result.items.items ≡ [] }
    {
        Calls {
            items: Vec::new(alloc),
            at: 0,
        }
    }
}

/// Whether two places are one.
pub(crate) fn is_same(a: Place, b: Place) -> bool
    ensures { result ≡ true → a ≡ b }
{
    a == b
}

// Whether a call is of a place before another.
fn is_before(call: &Call, place: &Place) -> bool {
    matches!(compare_places(&call.at, place), Ordering::Less)
}

/// The first of calls in order that is not of a place before this one.
pub(crate) fn first_from(calls: &[Call], place: &Place) -> usize {
    calls.partition_point(|call| is_before(call, place))
}

// The first of the calls from an index on that is not of a place before this one.
fn skip_to(calls: &[Call], from: usize, place: &Place) -> usize
    ensures { result ≤ length calls.now }
{
    let mut at = from.min(calls.len());
    'calls: while at < calls.len() {
        if !is_before(&calls[at], place) {
            return at;
        }
        at += 1;
    }
    at
}

// The call at an index, if there is one.
fn call_at(calls: &[Call], at: usize) -> Option<Call>
    ensures { IfSome result (λ call. Contains calls.now call) }
{
    match calls.get(at) {
        Some(call) => Some(*call),
        None => None,
    }
}

// The place that a call names, where it is the call of this place.
fn like_by(call: Call, place: Place) -> Option<Place>
    ensures { IfSome result (λ like. (doc : Document) → IsLike doc call.like call.at → IsLike doc like place) }
{
    if !is_same(call.at, place) {
        return None;
    }
    Some(call.like)
}

// The place that the call at an index names, where it is the call of this place.
fn like_at(calls: &[Call], at: usize, place: Place) -> Option<Place>
    ensures { IfSome result (λ like. (doc : Document) → AreCalls doc calls.now → IsLike doc like place) }
{
    match call_at(calls, at) {
        Some(call) => like_by(call, place),
        None => None,
    }
}

// Whether so many floats are called before a place.
fn calls_so_many(sources: &Sources<'_>, before: &Before, place: Place) -> Result<bool, AllocError>
    ensures { IfOk result (λ same. same ≡ true → before_of (doc_of sources.now) place ≡ before.now) }
{
    Ok(sources.before(place)?.is_same(before))
}

// The place that the call at an index names, where so many floats are called before it.
fn like_with(
    sources: &Sources<'_>,
    calls: &[Call],
    at: usize,
    before: &Before,
) -> Result<Option<Place>, AllocError>
    ensures { IfOk result (λ o. IfSome o (λ like. before_of (doc_of sources.now) like ≡ before.now)) }
{
    let Some(call) = calls.get(at) else {
        return Ok(None);
    };
    if !calls_so_many(sources, before, call.like)? {
        return Ok(None);
    }
    Ok(Some(call.like))
}

// The same of the call in front of an index.
fn like_before(
    sources: &Sources<'_>,
    calls: &[Call],
    at: usize,
    before: &Before,
) -> Result<Option<Place>, AllocError>
    ensures { IfOk result (λ o. IfSome o (λ like. before_of (doc_of sources.now) like ≡ before.now)) }
{
    if at == 0 {
        return Ok(None);
    }
    like_with(sources, calls, at - 1, before)
}

// The first of two places that is there, or else the third one.
fn one_of(first: Option<Place>, next: Option<Place>, place: Place) -> Place
    ensures { (doc : Document) → IfSome first (λ like. IsLike doc like place) →
        IfSome next (λ like. IsLike doc like place) → IsLike doc result place }
{
    match first {
        Some(like) => like,
        None => match next {
            Some(like) => like,
            None => place,
        },
    }
}

// A place before which the same floats are called: one that the call in front of an index or the one at it names, or
// else the place itself.
fn like_near(
    sources: &Sources<'_>,
    calls: &[Call],
    at: usize,
    place: Place,
) -> Result<Place, AllocError>
    ensures { IfOk result (λ like. IsLike (doc_of sources.now) like place) }
{
    let before = sources.before(place)?;
    let first = like_before(sources, calls, at, &before)?;
    let next = like_with(sources, calls, at, &before)?;
    Ok(one_of(first, next, place))
}

// Adds the call of a place behind so many others, and answers the place that it names.
#[inline(never)]
fn add_call(
    sources: &Sources<'_>,
    calls: &mut Vec<Call>,
    at: usize,
    place: Place,
) -> Result<Place, AllocError>
    requires { at ≤ length calls.old.items }
    ensures like { IfOk result (λ like. IsLike (doc_of sources.now) like place) }
    ensures calls { OnOk result (AreCalls (doc_of sources.now) calls.old.items →
        AreCalls (doc_of sources.now) calls.new.items) }
{
    let like = like_near(sources, calls.as_slice(), at, place)?;
    calls.insert(at, Call { at: place, like })?;
    Ok(like)
}

// The same beside a place before which so many floats are called, which it names where as many are called before it.
#[inline(never)]
fn add_beside(
    sources: &Sources<'_>,
    calls: &mut Vec<Call>,
    at: usize,
    before: &Before,
    like: Place,
    place: Place,
) -> Result<Place, AllocError>
    requires within { at ≤ length calls.old.items }
    requires before { before.now ≡ before_of (doc_of sources.now) like }
    ensures like { IfOk result (λ its. IsLike (doc_of sources.now) its place) }
    ensures calls { OnOk result (AreCalls (doc_of sources.now) calls.old.items →
        AreCalls (doc_of sources.now) calls.new.items) }
{
    if !calls_so_many(sources, before, place)? {
        return add_call(sources, calls, at, place);
    }
    calls.insert(at, Call { at: place, like })?;
    Ok(like)
}

/// A place before which the same floats are called as before this one, by the calls that are kept, to which its own is
/// added where it is missing. Places one after another are found without a search. The one refusal is want of memory.
pub(crate) fn like_of(
    sources: &Sources<'_>,
    calls: &mut Calls,
    place: Place,
) -> Result<Place, AllocError>
    ensures like { IfOk result (λ like. AreCalls (doc_of sources.now) calls.old.items.items →
        IsLike (doc_of sources.now) like place) }
    ensures calls { OnOk result (AreCalls (doc_of sources.now) calls.old.items.items →
        AreCalls (doc_of sources.now) calls.new.items.items) }
{
    let at = skip_to(calls.items.as_slice(), calls.at, &place);
    calls.at = at;
    match like_at(calls.items.as_slice(), at, place) {
        Some(like) => Ok(like),
        None => add_call(sources, &mut calls.items, at, place),
    }
}

/// The same beside a place before which so many floats are called: where the call is missing, what is called is counted
/// once.
pub(crate) fn like_beside(
    sources: &Sources<'_>,
    calls: &mut Calls,
    before: &Before,
    like: Place,
    place: Place,
) -> Result<Place, AllocError>
    requires { before.now ≡ before_of (doc_of sources.now) like }
    ensures like { IfOk result (λ its. AreCalls (doc_of sources.now) calls.old.items.items →
        IsLike (doc_of sources.now) its place) }
    ensures calls { OnOk result (AreCalls (doc_of sources.now) calls.old.items.items →
        AreCalls (doc_of sources.now) calls.new.items.items) }
{
    let at = skip_to(calls.items.as_slice(), calls.at, &place);
    calls.at = at;
    match like_at(calls.items.as_slice(), at, place) {
        Some(its) => Ok(its),
        None => add_beside(sources, &mut calls.items, at, before, like, place),
    }
}
