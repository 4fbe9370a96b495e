//! Tells by a bit for each id which ids may be among some.
ghost use Rattle.std.specs.Prelude.{◌≡◌, ◌<◌, ◌^◌, ◌%◌, true, length, slice_set};
ghost use Rattle.engine.specs.IdFilter.{has_bit, hash_from, place_in};

use crate::ids::sought::Sought;
use doc::DocId;
use marks::Marks;
use std::alloc::{AllocError, Global};
use std::marker::Model;

/// So many bits an id: one of sixty-four ids that aren't there is looked for, which costs more than the bits.
const BITS: usize = 64;

/// So many ids have fewer bits each, since caches hold no more.
const MANY_IDS: usize = 131_072;

const FEW_BITS: usize = 16;

const LEAST_BITS: usize = 64;

const MOST_BITS: usize = 4_294_967_295;

/// Numbers of ids are below this power of two: to take one by a prime number costs a division for each byte.
const NUMBERS: u64 = 4_294_967_296;

/// A bit for each place that an id of some may have.
pub(crate) struct IdFilter {
    bits: Marks,
}

impl Drop for IdFilter {
    fn drop(self) {
        let IdFilter { bits: _bits } = self;
    }
}

impl Model for IdFilter {
    ghost use Rattle.std.specs.Prelude.{◌<◌, ◌^◌, Bool, List, length};

    ghost Value = { List Bool };

    ghost view = { λ f. f.bits };

    ghost invariant = { λ f. (0 < length f.bits) × (length f.bits < 2 ^ 32) };
}

impl IdFilter {
    /// The filter of no id, where so many are to come.
    pub(crate) fn none(alloc: Global, ids: usize) -> Result<IdFilter, AllocError> {
        let each = if ids < MANY_IDS { BITS } else { FEW_BITS };
        let len = ids.saturating_mul(each).max(LEAST_BITS).min(MOST_BITS);
        let bits = Marks::none(alloc, len)?;
        Ok(IdFilter { bits })
    }

    /// Sets the bit of an id.
    pub(crate) fn add(&mut self, id: &DocId)
        ensures set { self.new ≡ slice_set self.old (place_in (length self.old) id.now) true }
        ensures within { place_in (length self.old) id.now < length self.old }
    {
        let at = place_of(number_of(id), self.bits.len());
        self.bits.set(at);
    }

    /// Whether the bit of an id is set.
    pub(crate) fn may_have(&self, id: &Sought<'_>) -> bool
        ensures { result ≡ has_bit self.now id.now }
    {
        self.bits.get(place_of(id.number(), self.bits.len()))
    }
}

fn place_of(number: u64, len: usize) -> u32
    requires some { 0 < len }
    requires few { len < 2 ^ 32 }
    ensures is { result ≡ number % len }
    ensures within { result < len }
{
    (number % len as u64) as u32
}

/// The number of an id.
pub(crate) fn number_of(id: &DocId) -> u64
    ensures { result ≡ hash_from 0 id.now }
{
    hash_of(id.as_str().as_bytes())
}

fn hash_of(bytes: &[u8]) -> u64
    ensures { result ≡ hash_from 0 bytes.now }
{
    let mut hash = 0u64;
    for byte in bytes {
        hash = (hash + *byte as u64 + 1) * 16_777_619 % NUMBERS;
    }
    hash
}
