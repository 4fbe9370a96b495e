//! Numbers that copies have acknowledged.
ghost use Rattle.std.specs.Prelude.{◌≡◌, ◌++◌, ◌∷◌, [], IfOk};
ghost use Rattle.std.specs.FinMap.Entries.{put};
ghost use Rattle.std.specs.Ordering.{nat_cmp};
ghost use Rattle.op.specs.Ids.{has};
ghost use Rattle.checkpoint.specs.Numbers.{run};
ghost use Rattle.replica.specs.Acks.{acks_of};

use checkpoint::{Span, Tracker};
use std::alloc::{AllocError, Global};
use std::marker::Model;

/// Sequence numbers, one after another. Those near the least take a few words, however many they are; the list after them has the others,
/// and is empty where the numbers rise within a window.
pub struct Numbers {
    near: Span,
    far: Vec<u64>,
}

impl Drop for Numbers {
    fn drop(self) {
        let Numbers {
            near: _near,
            far: _far,
        } = self;
    }
}

impl Model for Numbers {
    ghost use Rattle.std.specs.Prelude.{List, ℕ, ◌++◌};

    ghost Value = { List ℕ };

    ghost view = { λ a. a.near ++ a.far.items };
}

impl Numbers {
    /// No numbers.
    pub fn new(alloc: Global) -> Numbers
        ensures { result ≡ [] }
    {
        Numbers {
            near: Span::empty(),
            far: Vec::new(alloc),
        }
    }

    /// The numbers of a span, and after them those of a list.
    pub(crate) fn of(near: Span, far: Vec<u64>) -> Numbers
        ensures { result ≡ near ++ far.items }
    {
        Numbers { near, far }
    }

    /// The span, and the list after it.
    pub(crate) fn parts(&self) -> (&Span, &[u64])
        ensures { result.0.now ++ result.1.now ≡ self.now }
    {
        (&self.near, self.far.as_slice())
    }

    /// These numbers, and one more after them.
    pub fn then(&self, alloc: Global, number: u64) -> Result<Numbers, AllocError>
        ensures { IfOk result (λ a. a ≡ self.now ++ number ∷ []) }
    {
        if self.far.is_empty() {
            if let Some(near) = self.near.then(number) {
                return Ok(Numbers::of(near, Vec::new(alloc)));
            }
        }
        let mut far = Vec::from_slice(alloc, self.far.as_slice())?;
        far.push(number)?;
        Ok(Numbers::of(self.near.copy(), far))
    }

    /// Equal numbers.
    pub fn copy(&self, alloc: Global) -> Result<Numbers, AllocError>
        ensures { IfOk result (λ a. a ≡ self.now) }
    {
        let far = Vec::from_slice(alloc, self.far.as_slice())?;
        Ok(Numbers::of(self.near.copy(), far))
    }

    /// Their list.
    pub fn to_vec(&self, alloc: Global) -> Result<Vec<u64>, AllocError>
        ensures { IfOk result (λ v. v.items ≡ self.now) }
    {
        let mut items = self.near.to_vec(alloc)?;
        items.extend_from_slice(self.far.as_slice())?;
        Ok(items)
    }
}

/// What each other copy has acknowledged, by its id.
pub struct Acks {
    items: Vec<(u32, Tracker)>,
}

impl Drop for Acks {
    fn drop(self) {
        let Acks { items: _items } = self;
    }
}

impl Model for Acks {
    ghost use Rattle.std.specs.Prelude.{List, ℕ};

    ghost Value = { List (ℕ × List ℕ) };

    ghost view = { λ a. a.items.items };
}

impl Acks {
    /// Nothing is acknowledged.
    pub fn new(alloc: Global) -> Acks
        ensures { result ≡ [] }
    {
        Acks {
            items: Vec::new(alloc),
        }
    }

    /// Equal acknowledgements.
    pub fn copy(&self, alloc: Global) -> Result<Acks, AllocError>
        ensures { IfOk result (λ a. a ≡ self.now) }
    {
        let mut items = Vec::new(alloc);
        for (id, numbers) in &self.items {
            items.push((*id, numbers.copy()))?;
        }
        Ok(Acks { items })
    }

    /// Whether a copy has acknowledged a number.
    pub fn has(&self, id: u32, number: u64) -> bool
        ensures { result ≡ has (acks_of self.now id) number }
    {
        for (other, numbers) in &self.items {
            if *other == id {
                return numbers.has(number);
            }
        }
        false
    }

    /// How many numbers from 0 up a copy has acknowledged.
    pub fn run(&self, id: u32) -> u64
        ensures { result ≡ run (acks_of self.now id) }
    {
        for (other, numbers) in &self.items {
            if *other == id {
                return numbers.count();
            }
        }
        0
    }

    /// What a copy has acknowledged.
    pub fn of(&self, id: u32) -> Tracker
        ensures { result ≡ acks_of self.now id }
    {
        for (other, numbers) in &self.items {
            if *other == id {
                return numbers.copy();
            }
        }
        Tracker::at(-1)
    }

    /// The acknowledgements with these numbers of a copy in place of those that it had.
    pub fn with(&self, alloc: Global, id: u32, numbers: &Tracker) -> Result<Acks, AllocError>
        ensures { IfOk result (λ a. a ≡ put nat_cmp id numbers.now self.now) }
    {
        let mut items = Vec::new(alloc);
        let mut placed = false;
        for (other, old) in &self.items {
            if !placed && id <= *other {
                placed = true;
                items.push((id, numbers.copy()))?;
                if id == *other {
                    continue;
                }
            }
            items.push((*other, old.copy()))?;
        }
        if !placed {
            items.push((id, numbers.copy()))?;
        }
        Ok(Acks { items })
    }
}
