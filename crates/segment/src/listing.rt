//! Keys with their places, listed one after another: a key may stand more than once.
ghost use Rattle.std.specs.Prelude.{◌≡◌, ◌∷◌, ◌++◌, [], List, length, IfOk, OnOk};
ghost use Rattle.std.specs.BTreeMap.{is_at, IsOrdered};
ghost use Rattle.std.specs.List.{dedup, dedup_from};
ghost use Rattle.std.specs.List.Sorted.{IsSortedByKey};
ghost use Rattle.std.specs.Map.{keys_of};
ghost use Rattle.segment.specs.Places.{places_listed};

use crate::places::Places;
use std::alloc::{AllocError, Global};
use std::collections::BTreeMap;
use std::mem;

/// Sorts pairs by their keys. The pairs of one key stay in their order.
pub(crate) fn sorted<K: Ord + Drop>(
    mut pairs: Vec<(K, Places)>,
) -> Result<Vec<(K, Places)>, AllocError>
    ensures same { IfOk result (λ v. (q : K) → places_listed (is_at (K.cmp q)) v.items ≡ places_listed (is_at (K.cmp q)) pairs.items) }
    ensures sorted { IfOk result (λ v. IsSortedByKey (λ e. e.0) K.cmp v.items) }
{
    pairs.sort_by(|a, b| a.0.cmp(&b.0))?;
    Ok(pairs)
}

/// Each key with all its places. Built at once: no key is looked for.
pub(crate) fn map_of<K: Ord + Drop>(
    alloc: Global,
    pairs: Vec<(K, Places)>,
) -> Result<BTreeMap<K, Places>, AllocError>
    ensures same { IfOk result (λ m. (q : K) → places_listed (is_at (K.cmp q)) m.entries ≡ places_listed (is_at (K.cmp q)) pairs.items) }
    ensures ordered { IfOk result (IsOrdered K.cmp) }
{
    let sorted = sorted(pairs)?;
    let once = once(alloc, sorted)?;
    BTreeMap::from_iter(alloc, once)
}

/// Each key once. Where none stands twice the pairs are handed on, without room for a second list.
fn once<K: Ord + Drop>(
    alloc: Global,
    pairs: Vec<(K, Places)>,
) -> Result<Vec<(K, Places)>, AllocError>
    ensures same { IfOk result (λ v. (q : K) → places_listed (is_at (K.cmp q)) v.items ≡ places_listed (is_at (K.cmp q)) pairs.items) }
    ensures once { IfOk result (λ v. keys_of v.items ≡ dedup K.eq (keys_of pairs.items)) }
{
    let count = distinct(&pairs);
    if count == pairs.len() {
        return Ok(pairs);
    }
    put_together(alloc, pairs, count)
}

/// How many keys there are, where equal neighbours are one.
fn distinct<K: Ord>(pairs: &[(K, Places)]) -> usize
    ensures { result ≡ length (dedup K.eq (keys_of pairs.now)) }
{
    let Some((first, rest)) = pairs.split_first() else {
        return 0;
    };
    let mut last = &first.0;
    let mut before = 0;
    for pair in rest {
        if pair.0 != *last {
            before += 1;
            last = &pair.0;
        }
    }
    before + 1
}

/// The places of equal neighbours, put together: so many keys.
fn put_together<K: Ord + Drop>(
    alloc: Global,
    pairs: Vec<(K, Places)>,
    count: usize,
) -> Result<Vec<(K, Places)>, AllocError>
    ensures same { IfOk result (λ v. (q : K) → places_listed (is_at (K.cmp q)) v.items ≡ places_listed (is_at (K.cmp q)) pairs.items) }
    ensures once { IfOk result (λ v. keys_of v.items ≡ dedup K.eq (keys_of pairs.items)) }
{
    let mut closed = Vec::with_capacity(alloc, count)?;
    let mut rest = pairs.into_iter();
    let Some(mut last) = rest.next() else {
        return Ok(closed);
    };
    for pair in rest {
        add_pair(alloc, &mut closed, &mut last, pair)?;
    }
    closed.push(last)?;
    Ok(closed)
}

/// Adds the places of a pair to the last pair if that has the same key; else the pair becomes the last.
fn add_pair<K: Ord + Drop>(
    alloc: Global,
    closed: &mut Vec<(K, Places)>,
    last: &mut (K, Places),
    pair: (K, Places),
) -> Result<(), AllocError>
    ensures same { OnOk result ((q : K) → places_listed (is_at (K.cmp q)) (closed.new.items ++ last.new ∷ []) ≡ places_listed (is_at (K.cmp q)) (closed.old.items ++ last.old ∷ pair ∷ [])) }
    ensures once { OnOk result ((ks : List K) → keys_of closed.new.items ++ dedup_from K.eq last.new.0 ks ≡ keys_of closed.old.items ++ dedup_from K.eq last.old.0 (pair.0 ∷ ks)) }
{
    if pair.0 == last.0 {
        return last.1.append(alloc, pair.1.as_slice());
    }
    let before = mem::replace(last, pair);
    closed.push(before)?;
    Ok(())
}
