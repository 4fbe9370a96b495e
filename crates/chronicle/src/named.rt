//! The ledger that stands next to a registry, under its name.
ghost use Rattle.std.specs.Prelude.{◌≡◌, ◌++◌, ◌∷◌, [], true, false, OnOk, IfNone, IfSome};
ghost use Rattle.chronicle.specs.Ledger.{recorded};

use crate::entries::Entries;
use crate::ledger::Ledger;
use crate::name::RegistryName;
use std::alloc::{AllocError, Global};
use std::marker::{Model, PhantomData};

/// The ledger of a name, while it has no entries.
pub struct Blank<E, N: RegistryName> {
    ledger: Ledger<E>,
    of: PhantomData<N>,
}

impl<E: Drop, N: RegistryName> Drop for Blank<E, N> {
    fn drop(self) {
        let Blank {
            ledger: _ledger,
            of: _,
        } = self;
    }
}

impl<E, N: RegistryName> Model for Blank<E, N> {
    ghost use Rattle.std.specs.Prelude.{◌≡◌, [], false};
    ghost use Rattle.chronicle.specs.Ledger.{recorded};
    ghost use Rattle.chronicle.specs.Written.{Line, line_coded};

    ghost Value = { Line };

    ghost coded = { line_coded };

    ghost view = { λ b. b.ledger.line };

    ghost invariant = { λ b. b.ledger ≡ recorded N.ledger false false [] };
}

impl<E: Drop, N: RegistryName> Blank<E, N> {
    pub(crate) fn of(ledger: Ledger<E>) -> Blank<E, N>
        requires { ledger ≡ recorded N.ledger false false [] }
    {
        Blank {
            ledger,
            of: PhantomData,
        }
    }

    /// The ledger, of which memory is to have all entries.
    pub fn kept(self, alloc: Global) -> NamedLedger<E, N>
        ensures { result ≡ recorded N.ledger true false [] }
    {
        let Blank { ledger, of: _ } = self;
        NamedLedger {
            ledger: ledger.keep(alloc),
            of: PhantomData,
        }
    }

    /// The ledger, of which memory is to have the last entry.
    pub fn unkept(self) -> NamedLedger<E, N>
        ensures { result ≡ recorded N.ledger false false [] }
    {
        let Blank { ledger, of: _ } = self;
        NamedLedger {
            ledger,
            of: PhantomData,
        }
    }
}

/// The ledger of a name. Contracts see the ledger.
pub struct NamedLedger<E, N: RegistryName> {
    ledger: Ledger<E>,
    of: PhantomData<N>,
}

impl<E: Drop, N: RegistryName> Drop for NamedLedger<E, N> {
    fn drop(self) {
        let NamedLedger {
            ledger: _ledger,
            of: _,
        } = self;
    }
}

impl<E, N: RegistryName> Model for NamedLedger<E, N> {
    ghost use Rattle.std.specs.Prelude.{◌≡◌};
    ghost use Rattle.chronicle.specs.Ledger.{ledger_coded, LedgerData};

    ghost Value = { LedgerData E };

    ghost coded = { ledger_coded E.code };

    ghost view = { λ n. n.ledger };

    ghost invariant = { λ n. n.ledger.line ≡ N.ledger };
}

impl<E: Drop, N: RegistryName> NamedLedger<E, N> {
    /// The ledger.
    pub fn ledger(&self) -> &Ledger<E>
        ensures { result.now ≡ self.now }
    {
        &self.ledger
    }

    /// Makes room for one entry more.
    pub fn reserve(&mut self) -> Result<(), AllocError>
        ensures line { self.new.line ≡ self.old.line }
        ensures kept { self.new.kept ≡ self.old.kept }
        ensures same { self.new.entries ≡ self.old.entries }
        ensures ready { OnOk result (self.new.ready ≡ true) }
    {
        self.ledger.reserve()
    }

    /// Adds an entry, for which there is room, and gives all entries up to it.
    pub fn push(&mut self, entry: E) -> Entries<E, N>
        requires ready { self.old.ready ≡ true }
        ensures added { self.new ≡ recorded self.old.line self.old.kept false (self.old.entries ++ entry ∷ []) }
        ensures entries { result ≡ self.new.entries }
    {
        Entries::of(self.ledger.push(entry))
    }

    /// All entries; none where there is none.
    pub fn entries(&self) -> Option<Entries<E, N>>
        ensures some { IfSome result (λ e. e ≡ self.now.entries) }
        ensures none { IfNone result (self.now.entries ≡ []) }
    {
        match self.ledger.mark() {
            Some(mark) => Some(Entries::of(mark)),
            None => None,
        }
    }

    /// The ledger alone, of which nothing tells any more.
    pub fn into_ledger(self) -> Ledger<E>
        ensures { result ≡ self }
    {
        let NamedLedger { ledger, of: _ } = self;
        ledger
    }
}
