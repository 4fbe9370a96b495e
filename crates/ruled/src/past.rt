//! What says permanently what the master was asked.
ghost use Rattle.std.specs.Prelude.{◌≡◌, ◌<◌, ◌≤◌, length, IsFalse, IsTrue};
ghost use mathlib.Core.List.{IsPrefix};

use crate::entry::MasterEntry;
use chronicle::{Entries, RegistryName};
use std::marker::Model;

/// The first entries of the master's journal, which is that of a cluster. Contracts see them.
pub struct Past<J: RegistryName> {
    entries: Entries<MasterEntry, J>,
    count: u64,
}

impl<J: RegistryName> Drop for Past<J> {
    fn drop(self) {
        let Past {
            entries: _entries,
            count: _,
        } = self;
    }
}

impl<J: RegistryName> Model for Past<J> {
    ghost use Rattle.std.specs.Prelude.{◌≡◌, List, length};
    ghost use Rattle.ruled.specs.declared.entry.MasterEntry.{MasterEntry};

    ghost Value = { List MasterEntry };

    ghost view = { λ p. p.entries };

    ghost invariant = { λ p. p.count ≡ length p.entries };
}

impl<J: RegistryName> Past<J> {
    pub(crate) fn of(entries: Entries<MasterEntry, J>, count: u64) -> Past<J>
        requires { count ≡ length entries }
        ensures { result ≡ entries }
    {
        Past { entries, count }
    }

    /// A duplicate.
    pub fn again(&self) -> Past<J>
        ensures { result ≡ self.now }
    {
        Past::of(self.entries.again(), self.count)
    }

    /// Of two the one that isn't longer begins the other.
    pub fn agrees(&self, other: &Past<J>)
        ensures { length self.now ≤ length other.now → IsPrefix self.now other.now }
    {
        self.entries.agrees(&other.entries);
    }

    /// Whether it begins another, as it does where that is no earlier.
    pub fn is_within(&self, other: &Past<J>) -> bool
        ensures within { IsTrue result → IsPrefix self.now other.now }
        ensures longer { IsFalse result → length other.now < length self.now }
    {
        self.agrees(other);
        self.count <= other.count
    }
}
