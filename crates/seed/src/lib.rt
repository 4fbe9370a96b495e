//! What hash tables begin with: a number that strangers can't know, so they can't choose keys that collide.
#![tactic(auto)]

use std::hash::{BuildHasher, DefaultHasher, Hasher};
use std::io;
use std::random::RandomSource;

/// A seed of hash tables. They hash by SipHash-1-3, as those of `RandomState` do, behind the number that it was made of.
#[derive(Clone, Copy)]
pub struct Seed {
    initial: DefaultHasher,
}

impl Seed {
    /// The seed of a number.
    pub fn of(number: u128) -> Seed {
        let mut initial = DefaultHasher::new();
        initial.write_u128(number);
        Seed { initial }
    }

    /// A seed that nobody knows.
    pub fn random(rt: &impl RandomSource) -> io::Result<Seed> {
        let mut bytes = [0; 16];
        rt.fill_bytes(&mut bytes)?;
        Ok(Seed::of(u128::from_le_bytes(bytes)))
    }
}

impl BuildHasher for Seed {
    type Hasher = DefaultHasher;

    ghost build_hasher = { λ s. s.initial };

    fn build_hasher(&self) -> DefaultHasher {
        self.initial
    }
}
