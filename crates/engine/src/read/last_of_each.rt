//! Of pairs the last at each key.
ghost use Rattle.std.specs.Prelude.{◌≡◌, IfOk};
ghost use Rattle.std.specs.List.Sorted.{IsSortedByKey};
ghost use Rattle.std.specs.Map.{values_of};
ghost use Rattle.engine.specs.LastOfEach.{last_of_runs, ChangeAlike, IsLastOfEach};

use std::alloc::{AllocError, Global};

/// The last value at each key, in order of the keys.
pub(crate) fn last_of_each<K: Ord + Drop, V: Copy>(
    alloc: Global,
    pairs: Vec<(K, V)>,
) -> Result<Vec<V>, AllocError>
    ensures { IfOk result (λ v. IsLastOfEach K.cmp pairs.items v.items) }
{
    let sorted = sorted(pairs)?;
    let last = values_last(alloc, &sorted)?;
    Ok(last)
}

/// Sorts the pairs by their keys. The pairs of one key stay in their order.
fn sorted<K: Ord + Drop, V: Copy>(mut pairs: Vec<(K, V)>) -> Result<Vec<(K, V)>, AllocError>
    ensures same { IfOk result (λ v. ChangeAlike K.cmp pairs.items v.items) }
    ensures sorted { IfOk result (λ v. IsSortedByKey (λ e. e.0) K.cmp v.items) }
{
    pairs.sort_by(|a, b| a.0.cmp(&b.0))?;
    Ok(pairs)
}

/// The last values where equal keys are neighbours.
fn values_last<K: Ord + Drop, V: Copy>(
    alloc: Global,
    pairs: &[(K, V)],
) -> Result<Vec<V>, AllocError>
    ensures { IfOk result (λ v. v.items ≡ values_of (last_of_runs K.eq pairs.now)) }
{
    let mut values = Vec::with_capacity(alloc, pairs.len())?;
    let Some((first, rest)) = pairs.split_first() else {
        return Ok(values);
    };
    let mut last = first;
    for pair in rest {
        if pair.0 != last.0 {
            values.push(last.1)?;
        }
        last = pair;
    }
    values.push(last.1)?;
    Ok(values)
}
