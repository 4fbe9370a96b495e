//! What tells for good what the ledger of a name has.
ghost use Rattle.std.specs.Prelude.{◌≡◌, ◌≤◌, length};
ghost use mathlib.Core.List.{IsPrefix};

use crate::mark::Mark;
use crate::name::RegistryName;
use std::marker::{Model, PhantomData};

/// The first entries of the ledger of a name. Contracts see them.
pub struct Entries<E, N: RegistryName> {
    mark: Mark<E>,
    of: PhantomData<N>,
}

impl<E, N: RegistryName> Drop for Entries<E, N> {
    fn drop(self) {
        let Entries { mark: _mark, of: _ } = self;
    }
}

impl<E, N: RegistryName> Model for Entries<E, N> {
    ghost use Rattle.std.specs.Prelude.{◌≡◌, List};
    ghost use base.Stored.{coded_list};

    ghost Value = { List E };

    ghost coded = { coded_list E.code };

    ghost view = { λ e. e.mark.entries };

    ghost invariant = { λ e. e.mark.line ≡ N.ledger };
}

impl<E, N: RegistryName> Entries<E, N> {
    pub(crate) fn of(mark: Mark<E>) -> Entries<E, N>
        requires { mark.line ≡ N.ledger }
        ensures { result ≡ mark.entries }
    {
        Entries {
            mark,
            of: PhantomData,
        }
    }

    /// A copy that is equal to this one.
    pub fn again(&self) -> Entries<E, N>
        ensures { result ≡ self.now }
    {
        Entries::of(self.mark.again())
    }

    /// Of two the one that isn't longer begins the other.
    pub fn agrees(&self, other: &Entries<E, N>)
        ensures { length self.now ≤ length other.now → IsPrefix self.now other.now }
    {
        self.mark.agrees(&other.mark);
    }
}
