//! The places of the documents that have a term.
ghost use Rattle.std.specs.Prelude.{◌≡◌, ◌∷◌, ◌++◌, [], IfOk, OnOk};
ghost use Rattle.segment.specs.Places.{as_list};
ghost use Rattle.segment.specs.Woven.{risen};

use crate::moving::risen;
use std::alloc::{AllocError, Global};
use std::slice;

/// A list of three places grows to six, which is what an allocator hands out at least.
const LEAST_GROWTH: usize = 3;

/// The places of a term. Most terms are in few documents, and one place or two need no allocation. More are in a box, so that those few take no more room than they must.
#[derive(Drop)]
pub enum Places {
    One(u32),
    Two([u32; 2]),
    Many(Box<Vec<u32>>),
}

impl Places {
    /// These places.
    pub(crate) fn of(alloc: Global, places: &[u32]) -> Result<Places, AllocError>
        ensures { IfOk result (λ p. as_list p ≡ places.now) }
    {
        if places.len() == 1 {
            return Ok(Places::One(places[0]));
        }
        if places.len() == 2 {
            return Ok(Places::Two([places[0], places[1]]));
        }
        let many = Vec::from_slice(alloc, places)?;
        Ok(Places::Many(Box::new(alloc, many)?))
    }

    /// The places one after another.
    pub(crate) fn as_slice(&self) -> &[u32]
        ensures { result.now ≡ as_list self.now }
    {
        match self {
            Places::One(at) => slice::from_ref(at),
            Places::Two(both) => both,
            Places::Many(places) => places.as_ref(),
        }
    }

    /// Adds a place at the end.
    pub(crate) fn push(&mut self, alloc: Global, at: u32) -> Result<(), AllocError>
        ensures { OnOk result (as_list self.new ≡ as_list self.old ++ at ∷ []) }
    {
        match self {
            Places::One(first) => {
                let first = *first;
                *self = Places::Two([first, at]);
            }
            Places::Two(both) => {
                let many = vec![in alloc; both[0], both[1], at]?;
                *self = Places::Many(Box::new(alloc, many)?);
            }
            Places::Many(places) => push(places, at)?,
        }
        Ok(())
    }

    /// Adds later places.
    pub(crate) fn append(&mut self, alloc: Global, later: &[u32]) -> Result<(), AllocError>
        ensures { OnOk result (as_list self.new ≡ as_list self.old ++ later.now) }
    {
        if let Places::Many(places) = self {
            places.reserve_exact(later.len())?;
            places.extend_from_slice(later)?;
            return Ok(());
        }
        let first = self.as_slice();
        let mut all = Vec::with_capacity(alloc, 2 + later.len())?;
        all.extend_from_slice(first)?;
        all.extend_from_slice(later)?;
        *self = Places::of(alloc, &all)?;
        Ok(())
    }

    /// Adds places that come among those that are there.
    pub(crate) fn merge(&mut self, alloc: Global, later: &[u32]) -> Result<(), AllocError>
        ensures { OnOk result (as_list self.new ≡ risen (as_list self.old) later.now) }
    {
        let all = risen(alloc, self.as_slice(), later)?;
        *self = Places::Many(Box::new(alloc, all)?);
        Ok(())
    }
}

/// Adds a place at the end. A list grows by an eighth and a few: there are many, and what they don't use is lost until the segment goes.
fn push(places: &mut Vec<u32>, at: u32) -> Result<(), AllocError>
    ensures { OnOk result (places.new.items ≡ places.old.items ++ at ∷ []) }
{
    if places.len() == places.capacity() {
        places.reserve_exact(LEAST_GROWTH + places.len() / 8)?;
    }
    places.push(at)?;
    Ok(())
}
