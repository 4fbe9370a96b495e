//! The writes of a bulk.
ghost use Rattle.std.specs.Prelude.{◌≡◌, ◌↔◌, IsTrue, IfOk, IfSome, IfNone};

use crate::equal::equal_writes;
use crate::input::Write;
use std::alloc::{AllocError, Global};
use std::marker::Model;

/// How many writes a bulk may have.
pub const MOST_WRITES: usize = 1024;

/// The writes of a bulk in their order: 1 to 1,024.
pub struct Writes {
    items: Vec<Write>,
}

impl Drop for Writes {
    fn drop(self) {
        let Writes { items: _items } = self;
    }
}

impl Model for Writes {
    ghost use Rattle.std.specs.Prelude.{List};
    ghost use Rattle.replica.specs.declared.input.Write.{Write};
    ghost use Rattle.replica.specs.Writes.{AreOfOneBulk};

    ghost Value = { List Write };

    ghost view = { λ w. w.items.items };

    ghost invariant = { λ w. AreOfOneBulk w.items.items };
}

impl Writes {
    ghost use Rattle.replica.specs.Writes.{AreOfOneBulk};

    /// The writes of a `Vec`; nothing where there are none or more than 1,024.
    pub fn of(items: Vec<Write>) -> Option<Writes>
        ensures all { IfSome result (λ w. w ≡ items.items) }
        ensures none { IfNone result (AreOfOneBulk items.items → ⊥) }
    {
        if items.is_empty() || items.len() > MOST_WRITES {
            drop(items);
            return None;
        }
        Some(Writes { items })
    }

    /// The writes as a `Vec`.
    pub fn into_vec(self) -> Vec<Write>
        ensures all { result.items ≡ self }
        ensures few { AreOfOneBulk self }
    {
        let Writes { items } = self;
        items
    }

    pub fn as_slice(&self) -> &[Write]
        ensures all { result.now ≡ self.now }
        ensures few { AreOfOneBulk self.now }
    {
        self.items.as_slice()
    }

    /// Equal writes.
    pub fn copy(&self, alloc: Global) -> Result<Writes, AllocError>
        ensures { IfOk result (λ w. w ≡ self.now) }
    {
        let mut items = Vec::new(alloc);
        for write in self.items.as_slice() {
            items.push(write.copy(alloc)?)?;
        }
        Ok(Writes { items })
    }

    /// Whether they are the same.
    pub fn is(&self, other: &Writes) -> bool
        ensures { IsTrue result ↔ (self.now ≡ other.now) }
    {
        equal_writes(self.items.as_slice(), other.items.as_slice())
    }
}
