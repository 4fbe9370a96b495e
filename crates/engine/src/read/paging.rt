//! The page of the documents in several lists, none of which has an id that another has.
ghost use Rattle.std.specs.Prelude.{◌≡◌, ◌<◌, ◌≤◌, ◌+◌, ◌^◌, true, map, take, drop, filter, length, IfOk, IfSome};
ghost use Rattle.std.specs.FinMap.Entries.{is_sorted};
ghost use Rattle.doc.specs.Id.{id_cmp};
ghost use Rattle.engine.specs.Before.{is_before, is_behind, rank, IsPivot};
ghost use Rattle.engine.specs.Entry.{entry_view};
ghost use Rattle.engine.specs.Parts.{woven, AllInOrder, AreApart};
ghost use Rattle.engine.specs.Shown.{shown_view, seen, seen_all};

use crate::read::block::{Shown, entry_of};
use crate::read::documents::Entry;
use crate::read::merging::merge_owned;
use doc::DocId;
use std::alloc::{AllocError, Global};
use std::cmp::Ordering;

/// An id, and how many documents of all lists stand before it.
#[derive(Clone, Copy)]
pub(crate) struct Pivot<'a> {
    id: &'a DocId,
    rank: usize,
}

/// The first `size` documents of all lists after the first `from`, in byte order of their ids.
/// No entry is made for a document before the pivot.
pub(crate) fn page_behind<'a>(
    alloc: Global,
    lists: &[Vec<&'a Shown>],
    pivot: Pivot<'_>,
    from: usize,
    size: usize,
) -> Result<Vec<Entry<'a>>, AllocError>
    requires apart { AreApart (seen_all lists.now) }
    requires fits { from + size < 2 ^ 64 }
    requires pivot { IsPivot (seen_all lists.now) from pivot }
    ensures { IfOk result (λ v. map entry_view v.items ≡ take size (drop from (woven (seen_all lists.entry.now)))) }
{
    let rest = from - pivot.rank;
    let first = first_from(alloc, lists, pivot.id, rest + size)?;
    behind(first, rest)
}

/// The documents after the first so many.
pub(crate) fn behind<'a>(
    mut entries: Vec<Entry<'a>>,
    from: usize,
) -> Result<Vec<Entry<'a>>, AllocError>
    ensures { IfOk result (λ v. v.items ≡ drop from entries.entry.items) }
{
    let count = entries.len().min(from);
    entries.split_off(count)
}

/// The first documents of all lists that don't stand before an id, no more than wanted.
fn first_from<'a>(
    alloc: Global,
    lists: &[Vec<&'a Shown>],
    id: &DocId,
    wanted: usize,
) -> Result<Vec<Entry<'a>>, AllocError>
    requires { AreApart (seen_all lists.now) }
    ensures { IfOk result (λ v. map entry_view v.items ≡ take wanted (filter (is_behind id.now) (woven (seen_all lists.entry.now)))) }
{
    let mut first = Vec::new(alloc);
    for list in lists {
        let more = entries_from(alloc, list, id, wanted)?;
        first = merge_owned(alloc, first, more)?;
        first.truncate(wanted);
    }
    Ok(first)
}

/// The first documents of a list that don't stand before an id, no more than wanted.
fn entries_from<'a>(
    alloc: Global,
    list: &[&'a Shown],
    id: &DocId,
    wanted: usize,
) -> Result<Vec<Entry<'a>>, AllocError>
    requires { is_sorted id_cmp (seen list.now) ≡ true }
    ensures { IfOk result (λ v. map entry_view v.items ≡ take wanted (filter (is_behind id.now) (seen list.entry.now))) }
{
    let start = count_before(list, id);
    let count = wanted.min(list.len() - start);
    entries_of(alloc, &list[start..start + count])
}

/// Documents as entries.
fn entries_of<'a>(alloc: Global, list: &[&'a Shown]) -> Result<Vec<Entry<'a>>, AllocError>
    ensures { IfOk result (λ v. map entry_view v.items ≡ seen list.entry.now) }
{
    let mut entries = Vec::new(alloc);
    for shown in list {
        entries.push(entry_of(shown))?;
    }
    Ok(entries)
}

/// An id before which no more documents stand than are passed over: the furthest that is found by halving each list, from the one that was found before on.
pub(crate) fn find_pivot<'a>(lists: &[Vec<&'a Shown>], from: usize) -> Option<Pivot<'a>>
    requires { AllInOrder (seen_all lists.now) }
    ensures { IfSome result (λ p. IsPivot (seen_all lists.entry.now) from p) }
{
    let mut found = None;
    for list in lists {
        found = pivot_in(lists, list, from, found);
    }
    found
}

/// The furthest pivot that is found by halving a list, or the one that was found before.
fn pivot_in<'a>(
    lists: &[Vec<&'a Shown>],
    list: &[&'a Shown],
    from: usize,
    found: Option<Pivot<'a>>,
) -> Option<Pivot<'a>>
    requires order { AllInOrder (seen_all lists.now) }
    requires sorted { is_sorted id_cmp (seen list.now) ≡ true }
    requires found { IfSome found (λ p. IsPivot (seen_all lists.now) from p) }
    ensures { IfSome result (λ p. IsPivot (seen_all lists.entry.now) from p) }
{
    let mut best = found;
    let (mut low, mut high) = places_behind(list, from, found);
    while low < high {
        let middle = low + (high - low) / 2;
        match pivot_at(lists, list[middle], from) {
            Some(pivot) => {
                best = further(lists, from, best, pivot);
                low = middle + 1;
            }
            None => high = middle,
        }
    }
    best
}

/// Between which places of a list a pivot can stand further on than the one that was found, before which so many documents already stand.
fn places_behind(list: &[&Shown], from: usize, found: Option<Pivot<'_>>) -> (usize, usize)
    requires { is_sorted id_cmp (seen list.now) ≡ true }
    ensures order { result.0 ≤ result.1 }
    ensures within { result.1 ≤ length list.now }
{
    let Some(pivot) = found else {
        return (0, list.len());
    };
    let low = count_before(list, pivot.id);
    let more = from.saturating_sub(pivot.rank).saturating_add(1);
    (low, low.saturating_add(more).min(list.len()))
}

/// The id of a document, if no more documents stand before it than are passed over.
fn pivot_at<'a>(lists: &[Vec<&'a Shown>], shown: &'a Shown, from: usize) -> Option<Pivot<'a>>
    requires { AllInOrder (seen_all lists.now) }
    ensures { IfSome result (λ p. IsPivot (seen_all lists.entry.now) from p) }
{
    match rank_within(lists, shown.id(), from) {
        Some(rank) => Some(Pivot {
            id: shown.id(),
            rank,
        }),
        None => None,
    }
}

/// The pivot that stands further on.
fn further<'a>(
    _lists: &[Vec<&'a Shown>],
    _from: usize,
    best: Option<Pivot<'a>>,
    other: Pivot<'a>,
) -> Option<Pivot<'a>>
    requires best { IfSome best (λ p. IsPivot (seen_all _lists.now) _from p) }
    requires other { IsPivot (seen_all _lists.now) _from other }
    ensures { IfSome result (λ p. IsPivot (seen_all _lists.entry.now) _from p) }
{
    match best {
        None => Some(other),
        Some(best) => {
            if best.rank < other.rank {
                Some(other)
            } else {
                Some(best)
            }
        }
    }
}

/// How many documents of all lists stand before an id, where they are no more than so many.
fn rank_within(lists: &[Vec<&Shown>], id: &DocId, most: usize) -> Option<usize>
    requires { AllInOrder (seen_all lists.now) }
    ensures few { IfSome result (λ n. n ≤ most) }
    ensures is { IfSome result (λ n. n ≡ rank id.now (seen_all lists.entry.now)) }
{
    let mut total = 0;
    for list in lists {
        let count = count_before(list, id);
        if most - total < count {
            return None;
        }
        total += count;
    }
    Some(total)
}

/// How many documents of a list stand before an id: they come first.
fn count_before(list: &[&Shown], id: &DocId) -> usize
    requires { is_sorted id_cmp (seen list.now) ≡ true }
    ensures within { result ≤ length list.entry.now }
    ensures count { result ≡ length (filter (is_before id.now) (seen list.entry.now)) }
    ensures rest { drop result (seen list.entry.now) ≡ filter (is_behind id.now) (seen list.entry.now) }
{
    let mut low = 0;
    let mut high = list.len();
    while low < high {
        let middle = low + (high - low) / 2;
        if is_before(list[middle], id) {
            low = middle + 1;
        } else {
            high = middle;
        }
    }
    low
}

fn is_before(shown: &Shown, id: &DocId) -> bool
    ensures { result ≡ is_before id.now (shown_view shown.now) }
{
    shown.id().order(id) == Ordering::Less
}
