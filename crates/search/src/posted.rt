//! The first places of a list, and how many there are.
ghost use Rattle.std.specs.Prelude.{◌≡◌, ◌<◌, ◌++◌, ◌∷◌, [], false, All, filter, length, nat_lt, slice_index_or, take, IfOk, OnOk, if◌then◌else◌};

use crate::finding::FoundPlaces;
use marks::Marks;
use std::alloc::{AllocError, Global};

/// How many places there are, and the first of them, no more than wanted.
pub(crate) fn first_listed(
    alloc: Global,
    places: &[u32],
    wanted: usize,
) -> Result<FoundPlaces, AllocError>
    ensures total { IfOk result (λ f. f.total ≡ length places.now) }
    ensures first { IfOk result (λ f. f.first.items ≡ take wanted places.now) }
{
    let count = places.len().min(wanted);
    let mut first = Vec::with_capacity(alloc, count)?;
    first.extend_from_slice(&places[..count])?;
    Ok(FoundPlaces {
        total: places.len(),
        first,
    })
}

/// How many places are live, and the first of them, no more than wanted.
pub(crate) fn first_live(
    alloc: Global,
    places: &[u32],
    live: &Marks,
    wanted: usize,
) -> Result<FoundPlaces, AllocError>
    requires { All (λ p. p < length live.now) places.now }
    ensures total { IfOk result (λ f. f.total ≡ length (filter (λ p. slice_index_or live.now p false) places.now)) }
    ensures first { IfOk result (λ f. f.first.items ≡ take wanted (filter (λ p. slice_index_or live.now p false) places.now)) }
{
    let mut total = 0;
    let mut first = Vec::new(alloc);
    for place in places {
        if live.get(*place) {
            total += 1;
            push_wanted(&mut first, *place, wanted)?;
        }
    }
    Ok(FoundPlaces { total, first })
}

/// Adds a place to the first ones, where more are wanted.
fn push_wanted(first: &mut Vec<u32>, place: u32, wanted: usize) -> Result<(), AllocError>
    ensures { OnOk result (first.new.items ≡ (if nat_lt (length first.old.items) wanted then first.old.items ++ place ∷ [] else first.old.items)) }
{
    if first.len() < wanted {
        first.push(place)?;
    }
    Ok(())
}
