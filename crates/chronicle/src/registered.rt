//! A ledger of a registry.
ghost use Rattle.std.specs.Prelude.{◌≡◌, ◌+◌, ◌∷◌, ◌++◌, [], length, true, false, Some, None, slice_get, OnOk, IfSome, IfNone};
ghost use Rattle.chronicle.specs.Ledger.{recorded};
ghost use Rattle.chronicle.specs.Registered.{prefix, registered, upto};

use crate::beginning::Beginning;
use crate::ledger::Ledger;
use crate::mark::Mark;
use crate::name::RegistryName;
use crate::prefix::Prefix;
use crate::seat::Seat;
use crate::upto::Upto;
use std::alloc::AllocError;
use std::marker::Model;

/// A ledger of a registry. Contracts see its number and the ledger.
pub struct Registered<E, N: RegistryName> {
    seat: Seat<E, N>,
    number: u32,
    ledger: Ledger<E>,
}

impl<E: Drop, N: RegistryName> Drop for Registered<E, N> {
    fn drop(self) {
        let Registered {
            seat: _seat,
            number: _,
            ledger: _ledger,
        } = self;
    }
}

impl<E, N: RegistryName> Model for Registered<E, N> {
    ghost use Rattle.std.specs.Prelude.{◌≡◌};
    ghost use Rattle.chronicle.specs.Registered.{registered, seat_at, RegisteredData};

    ghost Value = { RegisteredData E };

    ghost view = { λ r. registered r.number r.seat.first r.ledger };

    ghost invariant = { λ r. r.seat ≡ seat_at r.number r.ledger.line r.seat.first };
}

impl<E: Drop, N: RegistryName> Registered<E, N> {
    ghost use Rattle.chronicle.specs.Registered.{seat_at};

    pub(crate) fn of(seat: Seat<E, N>, number: u32, ledger: Ledger<E>) -> Registered<E, N>
        requires { seat ≡ seat_at number ledger.line seat.first }
        ensures { result ≡ registered number seat.first ledger }
    {
        Registered {
            seat,
            number,
            ledger,
        }
    }

    /// The number, under which no other ledger of the registry is.
    pub fn number(&self) -> u32
        ensures { result ≡ self.now.number }
    {
        self.number
    }

    /// The ledger.
    pub fn ledger(&self) -> &Ledger<E>
        ensures { result.now ≡ self.now.ledger }
    {
        &self.ledger
    }

    /// Makes room for one entry more.
    pub fn reserve(&mut self) -> Result<(), AllocError>
        ensures number { self.new.number ≡ self.old.number }
        ensures first { self.new.first ≡ self.old.first }
        ensures line { self.new.ledger.line ≡ self.old.ledger.line }
        ensures kept { self.new.ledger.kept ≡ self.old.ledger.kept }
        ensures same { self.new.ledger.entries ≡ self.old.ledger.entries }
        ensures ready { OnOk result (self.new.ledger.ready ≡ true) }
    {
        self.ledger.reserve()
    }

    /// Adds an entry, for which there is room, and gives all entries up to it.
    pub fn push(&mut self, entry: E) -> Prefix<E, N>
        requires ready { self.old.ledger.ready ≡ true }
        ensures added { self.new ≡ registered self.old.number self.old.first (recorded self.old.ledger.line self.old.ledger.kept false (self.old.ledger.entries ++ entry ∷ [])) }
        ensures prefix { result ≡ prefix self.new.number self.new.ledger.entries }
    {
        let mark = self.ledger.push(entry);
        Prefix::of(self.seat.again(), mark)
    }

    /// All entries; none where there is none.
    pub fn prefix(&self) -> Option<Prefix<E, N>>
        ensures some { IfSome result (λ p. p ≡ prefix self.now.number self.now.ledger.entries) }
        ensures none { IfNone result (self.now.ledger.entries ≡ []) }
    {
        match self.ledger.mark() {
            Some(mark) => Some(Prefix::of(self.seat.again(), mark)),
            None => None,
        }
    }

    /// All entries, without the name of the registry.
    #[tactic(auto, using(crate::proofs::Uptos::upto_is, crate::proofs::Uptos::mark_line))]
    pub fn upto(&self) -> Upto<E>
        ensures { result ≡ upto N.registry self.now.number self.now.ledger.entries }
    {
        Upto::of(self.seat.mark().again(), self.ledger.mark())
    }

    /// What it began with, as a mark of that line says.
    pub fn beginning<B>(&self, first: &Mark<B>) -> Beginning<B, E>
        requires { first.now.line ≡ self.now.first }
        ensures { result ≡ upto N.registry self.now.number first.now.entries }
    {
        Beginning::of(self.seat.mark().again(), first.again())
    }

    /// The ledger alone, which nothing tells of any more.
    pub fn into_ledger(self) -> Ledger<E>
        ensures { result ≡ self.ledger }
    {
        let Registered {
            seat: _seat,
            number: _,
            ledger,
        } = self;
        ledger
    }
}
