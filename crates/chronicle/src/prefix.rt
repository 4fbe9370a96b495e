//! What tells for good what a ledger of a registry has.
ghost use Rattle.std.specs.Prelude.{◌≡◌, ◌≤◌, length};
ghost use mathlib.Core.List.{IsPrefix};
ghost use Rattle.chronicle.specs.Registered.{prefix};

use crate::mark::Mark;
use crate::name::RegistryName;
use crate::seat::Seat;
use std::marker::Model;

/// The first entries of a ledger of a registry. Contracts see its number and them.
pub struct Prefix<E, N: RegistryName> {
    seat: Seat<E, N>,
    mark: Mark<E>,
}

impl<E, N: RegistryName> Drop for Prefix<E, N> {
    fn drop(self) {
        let Prefix {
            seat: _seat,
            mark: _mark,
        } = self;
    }
}

impl<E, N: RegistryName> Model for Prefix<E, N> {
    ghost use Rattle.std.specs.Prelude.{◌≡◌};
    ghost use Rattle.chronicle.specs.Registered.{prefix, prefix_coded, PrefixData};

    ghost Value = { PrefixData E };

    ghost coded = { prefix_coded E.code };

    ghost view = { λ p. prefix p.seat.number p.mark.entries };

    ghost invariant = { λ p. p.mark.line ≡ p.seat.line };
}

impl<E, N: RegistryName> Prefix<E, N> {
    pub(crate) fn of(seat: Seat<E, N>, mark: Mark<E>) -> Prefix<E, N>
        requires { mark.line ≡ seat.line }
        ensures { result ≡ prefix seat.number mark.entries }
    {
        Prefix { seat, mark }
    }

    /// A copy that is equal to this one.
    pub fn again(&self) -> Prefix<E, N>
        ensures { result ≡ self.now }
    {
        Prefix {
            seat: self.seat.again(),
            mark: self.mark.again(),
        }
    }

    /// Of two that are of one number the one that isn't longer begins the other.
    pub fn agrees(&self, other: &Prefix<E, N>)
        requires { other.now.number ≡ self.now.number }
        ensures { length self.now.entries ≤ length other.now.entries → IsPrefix self.now.entries other.now.entries }
    {
        self.seat.agrees(&other.seat);
        self.mark.agrees(&other.mark);
    }
}
