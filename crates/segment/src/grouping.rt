//! Keys with a place each, listed as they come, and put together by key.
ghost use Rattle.std.specs.Prelude.{◌≡◌, ℕ, ◌∷◌, ◌++◌, List, IfOk, OnOk};
ghost use Rattle.std.specs.BTreeMap.{is_at};
ghost use Rattle.std.specs.List.Sorted.{IsSortedByKey};
ghost use Rattle.segment.specs.Grouped.{places_posted, runs, runs_from, with_lists};
ghost use Rattle.segment.specs.Places.{as_list, places_listed};

use crate::places::Places;
use crate::texts::add_place;
use std::alloc::{AllocError, Global};
use std::mem;

/// Sorts postings by their keys. Those of one key stay in their order.
pub(crate) fn in_turn<K: Ord + Drop>(
    mut postings: Vec<(K, u32)>,
) -> Result<Vec<(K, u32)>, AllocError>
    ensures same { IfOk result (λ v. (q : K) → places_posted (is_at (K.cmp q)) v.items ≡ places_posted (is_at (K.cmp q)) postings.items) }
    ensures sorted { IfOk result (λ v. IsSortedByKey (λ e. e.0) K.cmp v.items) }
{
    postings.sort_by(|a, b| a.0.cmp(&b.0))?;
    Ok(postings)
}

/// Each key with its places, in order of the keys. A place that a key has twice running stands once.
pub(crate) fn grouped<K: Ord + Drop>(
    alloc: Global,
    postings: Vec<(K, u32)>,
) -> Result<Vec<(K, Places)>, AllocError>
    ensures { IfOk result (λ v. (q : K) → places_listed (is_at (K.cmp q)) v.items ≡ places_posted (is_at (K.cmp q)) postings.items) }
{
    let sorted = in_turn(postings)?;
    let grouped = runs_of(alloc, sorted)?;
    Ok(grouped)
}

/// The keys of the postings with their places, where equal neighbours are one.
fn runs_of<K: Ord + Drop>(
    alloc: Global,
    postings: Vec<(K, u32)>,
) -> Result<Vec<(K, Places)>, AllocError>
    ensures { IfOk result (λ v. with_lists v.items ≡ runs K.eq postings.items) }
{
    let mut closed = Vec::new(alloc);
    let mut rest = postings.into_iter();
    let Some(first) = rest.next() else {
        return Ok(closed);
    };
    let mut last = (first.0, Places::One(first.1));
    for posting in rest {
        add_posting(alloc, &mut closed, &mut last, posting)?;
    }
    closed.push(last)?;
    Ok(closed)
}

/// Adds the place of a posting to the last key if that is the posting's; else the posting's key becomes the last.
fn add_posting<K: Ord + Drop>(
    alloc: Global,
    closed: &mut Vec<(K, Places)>,
    last: &mut (K, Places),
    posting: (K, u32),
) -> Result<(), AllocError>
    ensures { OnOk result ((es : List (K × ℕ)) → with_lists closed.new.items ++ runs_from K.eq last.new.0 (as_list last.new.1) es ≡ with_lists closed.old.items ++ runs_from K.eq last.old.0 (as_list last.old.1) (posting ∷ es)) }
{
    if posting.0 == last.0 {
        return add_place(alloc, &mut last.1, posting.1);
    }
    let before = mem::replace(last, (posting.0, Places::One(posting.1)));
    closed.push(before)?;
    Ok(())
}
