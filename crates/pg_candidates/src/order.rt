//! The order in which the ends of candidates stand.
ghost use Rattle.std.specs.Prelude.{◌≡◌, ◌++◌, ◌<◌, ◌≤◌, IfOk, OnOk, true, ℕ, length, map};
ghost use Rattle.std.specs.List.{insert};
ghost use Rattle.law_walk.specs.Best.{IsAmong};
ghost use Rattle.pg_candidates.specs.Groups.{IsAdded, indices_in, indices_of};

use crate::candidate::Candidate;
use pg_list::Place;
use pg_plan::compare_picks;
use std::alloc::{AllocError, Global};
use std::cmp::Ordering;

// For how many places there is room at once.
const PLACES: usize = 256;

/// Which candidate of a list, with a number that rises with its place, and with the demerits of its picks.
#[derive(Clone, Copy)]
pub struct Ranked {
    rank: u64,
    pick_demerits: i64,
    pub at: usize,
}

// The candidates of one place: the cheapest one, and the others.
#[derive(Drop)]
struct Group {
    first: Ranked,
    others: Vec<Ranked>,
}

// A number that rises with a place, as far as a variant has less than 2^28 items.
fn rank_of(place: Place) -> u64 {
    (u64::from(place.block) << 32) | (u64::from(place.variant) << 28) | u64::from(place.index)
}

// The candidate at an index.
fn with_rank(candidate: &Candidate, at: usize) -> Ranked
    ensures { result.at ≡ at }
{
    Ranked {
        rank: rank_of(candidate.to),
        pick_demerits: candidate.pick_demerits,
        at,
    }
}

// Whether the picks of the candidate at an index stand before those of another one.
#[inline(never)]
fn has_lesser_picks(candidates: &[Candidate], a: usize, b: usize) -> bool {
    match candidates.get(a) {
        Some(one) => match candidates.get(b) {
            Some(other) => matches!(
                compare_picks(
                    one.picks.as_ref().as_slice(),
                    other.picks.as_ref().as_slice()
                ),
                Ordering::Less
            ),
            None => true,
        },
        None => false,
    }
}

// Whether a candidate comes before another one of its place: by the demerits of their picks, and then by the picks. The
// candidates themselves are seldom looked at.
#[inline]
fn is_cheaper(candidates: &[Candidate], a: &Ranked, b: &Ranked) -> bool {
    if a.pick_demerits != b.pick_demerits {
        return a.pick_demerits < b.pick_demerits;
    }
    has_lesser_picks(candidates, a.at, b.at)
}

// The first of the groups from an index on that does not stand before a rank.
#[inline]
fn skip_to(groups: &[Group], from: usize, rank: u64) -> usize
    ensures { result ≤ length groups.now }
{
    let mut at = from.min(groups.len());
    'groups: while at < groups.len() {
        if groups[at].first.rank >= rank {
            return at;
        }
        at += 1;
    }
    at
}

// Whether the group at an index, if there is one, stands behind a rank.
#[inline]
fn is_behind(groups: &[Group], at: usize, rank: u64) -> bool {
    match groups.get(at) {
        Some(group) => rank < group.first.rank,
        None => false,
    }
}

// How many of the groups, which are in order, stand before a rank. Where the one that is hinted at does not stand behind it,
// there is no search.
#[inline]
fn count_before(groups: &[Group], hint: usize, rank: u64) -> usize
    ensures { result ≤ length groups.now }
{
    if is_behind(groups, hint, rank) {
        return groups.partition_point(|group| group.first.rank < rank);
    }
    skip_to(groups, hint, rank)
}

// Whether there is a group at an index, and it has this rank.
#[inline]
fn is_there(groups: &[Group], at: usize, rank: u64) -> bool
    ensures { result ≡ true → at < length groups.now }
{
    at < groups.len() && groups[at].first.rank == rank
}

// Adds a candidate to those of its place.
#[inline]
fn add_to(candidates: &[Candidate], group: &mut Group, it: Ranked) -> Result<(), AllocError>
    ensures { OnOk result (IsAdded it.at (indices_of group.old) (indices_of group.new)) }
{
    if is_cheaper(candidates, &it, &group.first) {
        group.others.push(group.first)?;
        group.first = it;
    } else {
        group.others.push(it)?;
    }
    Ok(())
}

// Puts a group in behind so many others. Most are put in behind all.
#[inline]
fn put_behind(groups: &mut Vec<Group>, at: usize, group: Group) -> Result<(), AllocError>
    requires { at ≤ length groups.old.items }
    ensures { OnOk result (groups.new.items ≡ insert groups.old.items at group) }
{
    if at == groups.len() {
        groups.push(group)?;
    } else {
        groups.insert(at, group)?;
    }
    Ok(())
}

// A group of one candidate. No memory is taken.
#[inline]
fn group_of(alloc: Global, it: Ranked) -> Group
    ensures { result.first ≡ it }
{
    Group {
        first: it,
        others: Vec::new(alloc),
    }
}

// Adds a candidate to the groups, and answers which one it is in. A hint at a group that is not behind it saves a search.
#[inline]
fn add(
    alloc: Global,
    candidates: &[Candidate],
    groups: &mut Vec<Group>,
    hint: usize,
    it: Ranked,
) -> Result<usize, AllocError>
    ensures { OnOk result (IsAdded it.at (indices_in groups.old.items) (indices_in groups.new.items)) }
{
    let at = count_before(groups.as_slice(), hint, it.rank);
    if is_there(groups.as_slice(), at, it.rank) {
        add_to(candidates, &mut groups[at], it)?;
        return Ok(at);
    }
    put_behind(groups, at, group_of(alloc, it))?;
    Ok(at)
}

// The candidates of one place after another, the places in order.
fn grouped(alloc: Global, candidates: &[Candidate]) -> Result<Vec<Group>, AllocError>
    ensures { IfOk result (λ groups. (i : ℕ) → i < length candidates.now → IsAmong i (indices_in groups.items)) }
{
    let mut groups = Vec::with_capacity(alloc, PLACES)?;
    let mut hint = 0;
    for at in 0..candidates.len() {
        let it = with_rank(&candidates[at], at);
        hint = add(alloc, candidates, &mut groups, hint, it)?;
    }
    Ok(groups)
}

// Adds the candidates of a group behind others.
#[inline]
fn add_group(order: &mut Vec<Ranked>, group: &Group) -> Result<(), AllocError>
    ensures { OnOk result (map (λ it. it.at) order.new.items ≡ map (λ it. it.at) order.old.items ++ indices_of group.now) }
{
    order.push(group.first)?;
    order.extend_from_slice(group.others.as_slice())?;
    Ok(())
}

// So many candidates in groups, one behind another.
fn joined(alloc: Global, groups: &[Group], count: usize) -> Result<Vec<Ranked>, AllocError>
    ensures { IfOk result (λ order. map (λ it. it.at) order.items ≡ indices_in groups.now) }
{
    let mut order = Vec::with_capacity(alloc, count)?;
    'each: for group in groups {
        add_group(&mut order, group)?;
    }
    Ok(order)
}

// Whether each candidate stands at a place behind that of the one before it, so that each place has one.
pub(crate) fn are_rising(candidates: &[Candidate]) -> bool {
    let mut last = 0;
    for candidate in candidates {
        let rank = rank_of(candidate.to);
        if rank <= last {
            return false;
        }
        last = rank;
    }
    true
}

// The candidates in the order in which their ends stand: by place, and at one place the cheapest first. That all are there
// is proved; in another order they would only be slower to go through.
pub(crate) fn in_order(alloc: Global, candidates: &[Candidate]) -> Result<Vec<Ranked>, AllocError>
    ensures { IfOk result (λ order. (i : ℕ) → i < length candidates.now →
        IsAmong i (map (λ it. it.at) order.items)) }
{
    let groups = grouped(alloc, candidates)?;
    joined(alloc, groups.as_slice(), candidates.len())
}
