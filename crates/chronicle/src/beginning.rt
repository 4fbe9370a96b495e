//! What tells for good what a ledger of some registry began with.
ghost use Rattle.std.specs.Prelude.{◌≡◌, ◌≤◌, length};
ghost use mathlib.Core.List.{IsPrefix};
ghost use Rattle.chronicle.specs.Registered.{last_seat, upto, AreRising, IsAny};

use crate::mark::Mark;
use crate::registry::Numbered;
use std::marker::Model;

/// What a ledger of a registry began with. Contracts see which registry it is, the ledger's number and what the mark had that it was registered with.
pub struct Beginning<B, E> {
    seat: Mark<Numbered<E>>,
    first: Mark<B>,
}

impl<B, E> Drop for Beginning<B, E> {
    fn drop(self) {
        let Beginning {
            seat: _seat,
            first: _first,
        } = self;
    }
}

impl<B, E> Model for Beginning<B, E> {
    ghost use Rattle.std.specs.Prelude.{◌≡◌};
    ghost use Rattle.chronicle.specs.Registered.{last_seat, upto, AreRising, IsAny, UptoData};

    ghost Value = { UptoData B };

    ghost view = { λ b. upto b.seat.line (last_seat b.seat.entries).number b.first.entries };

    ghost invariant = { λ b. AreRising b.seat.entries × IsAny b.seat.entries × (b.first.line ≡ (last_seat b.seat.entries).first) };
}

impl<B, E> Beginning<B, E> {
    pub(crate) fn of(seat: Mark<Numbered<E>>, first: Mark<B>) -> Beginning<B, E>
        requires rising { AreRising seat.entries }
        requires any { IsAny seat.entries }
        requires line { first.line ≡ (last_seat seat.entries).first }
        ensures { result ≡ upto seat.line (last_seat seat.entries).number first.entries }
    {
        Beginning { seat, first }
    }

    /// A copy that is equal to this one.
    pub fn again(&self) -> Beginning<B, E>
        ensures { result ≡ self.now }
    {
        Beginning {
            seat: self.seat.again(),
            first: self.first.again(),
        }
    }

    /// Of two that are of one number of one registry the one that isn't longer begins the other.
    pub fn agrees(&self, other: &Beginning<B, E>)
        requires registry { other.now.registry ≡ self.now.registry }
        requires number { other.now.number ≡ self.now.number }
        ensures { length self.now.entries ≤ length other.now.entries → IsPrefix self.now.entries other.now.entries }
    {
        self.seat.agrees(&other.seat);
        other.seat.agrees(&self.seat);
        self.first.agrees(&other.first);
    }
}
